//! Tests of jumps: the image behind a step is that of a run of so many steps from the opening on.

use crate::runs::{Wrong, differing, fork_of, jump, rewind_of, run_for, stands_behind};
use omi_core::{End, Schedule, Stop};
use omi_fixture_rows::A_TEAM_OF_TWO;
use omi_rewind::At;
use std::fs;
use std::test::Fail;

/// The workload that `make 1000` writes.
const MANY_TASKS: &str = "threads 4
func leaf
  work
end
func node
  task leaf
  task leaf
  taskwait
end
func team
  repeat 1000 node
end
func main
  parallel team num 4
end
";

/// How many pages of memory the system has given to this process.
fn pages(rt: &HostRuntime) -> Result<u64, Fail> {
    let text = fs::read(rt, "/proc/self/statm")?;
    let text = str::from_utf8(&text)?;
    let (pages, _) = text.split_once(' ').ok_or("no number")?;
    Ok(pages.parse::<u64>()?)
}

/// Fewer pages, of 4,096 bytes, than the room for 200,000 steps takes.
const FEW_PAGES: u64 = 2_000;

#[test]
fn few_steps_take_little_room(rt: HostRuntime) -> Result<(), Fail> {
    let alloc = rt.alloc();
    let mut rewind = rewind_of(alloc, A_TEAM_OF_TWO)?;
    let before = pages(&rt)?;
    assert_eq!(rt; jump(alloc, &mut rewind, 10)?, At::Here);
    let more = pages(&rt)?.saturating_sub(before);
    assert!(rt; more < FEW_PAGES, "{more} pages");
    Ok(())
}

#[test]
fn back_one_step(rt: HostRuntime) -> Result<(), Wrong> {
    let alloc = rt.alloc();
    let fork = fork_of(alloc, A_TEAM_OF_TWO)?;
    assert!(rt; 0 < fork && fork <= 100_000);
    let mut rewind = rewind_of(alloc, A_TEAM_OF_TWO)?;
    assert_eq!(rt; jump(alloc, &mut rewind, fork)?, At::Here);
    assert!(rt; stands_behind(alloc, &rewind, A_TEAM_OF_TWO, fork)?);
    assert_eq!(rt; jump(alloc, &mut rewind, fork - 1)?, At::Here);
    assert!(rt; stands_behind(alloc, &rewind, A_TEAM_OF_TWO, fork - 1)?);
    assert_eq!(rt; rewind.made(), fork);
    assert_eq!(rt; jump(alloc, &mut rewind, 0)?, At::Here);
    assert!(rt; stands_behind(alloc, &rewind, A_TEAM_OF_TWO, 0)?);
    Ok(())
}

#[test]
fn ends_at_done(rt: HostRuntime) -> Result<(), Wrong> {
    let alloc = rt.alloc();
    let whole = run_for(alloc, A_TEAM_OF_TWO, 100_000)?;
    assert_eq!(rt; whole.why, End::Done);
    let done = whole.core.steps();
    assert!(rt; done <= 100_000);
    let mut rewind = rewind_of(alloc, A_TEAM_OF_TWO)?;
    assert_eq!(rt; jump(alloc, &mut rewind, 1_000_000)?, At::Done(done));
    assert_eq!(rt; differing(rewind.image(), whole.core.image()), 0);
    assert_eq!(rt; rewind.made(), done);
    assert_eq!(rt; rewind.events().len(), whole.core.events().len());
    assert_eq!(rt; jump(alloc, &mut rewind, done)?, At::Here);
    assert_eq!(rt; jump(alloc, &mut rewind, done + 1)?, At::Done(done));
    assert_eq!(rt; jump(alloc, &mut rewind, 10)?, At::Here);
    assert!(rt; stands_behind(alloc, &rewind, A_TEAM_OF_TWO, 10)?);
    assert_eq!(rt; jump(alloc, &mut rewind, done + 1)?, At::Done(done));
    assert_eq!(rt; differing(rewind.image(), whole.core.image()), 0);
    Ok(())
}

#[test]
fn across_a_copy(rt: HostRuntime) -> Result<(), Wrong> {
    let alloc = rt.alloc();
    let mut rewind = rewind_of(alloc, MANY_TASKS)?;
    for step in [65_537, 65_536, 65_535, 65_536, 65_537, 131_072, 65_536] {
        assert_eq!(rt; jump(alloc, &mut rewind, step)?, At::Here);
        assert!(rt; stands_behind(alloc, &rewind, MANY_TASKS, step)?);
    }
    assert_eq!(rt; rewind.made(), 131_072);
    Ok(())
}

#[test]
fn the_copy_is_made_there(rt: HostRuntime) -> Result<(), Wrong> {
    let alloc = rt.alloc();
    let mut rewind = rewind_of(alloc, MANY_TASKS)?;
    for step in [65_535, 65_536, 65_537] {
        assert_eq!(rt; jump(alloc, &mut rewind, step)?, At::Here);
        assert!(rt; stands_behind(alloc, &rewind, MANY_TASKS, step)?);
        assert_eq!(rt; rewind.made(), step);
    }
    Ok(())
}

#[test]
fn many_events(rt: HostRuntime) -> Result<(), Wrong> {
    let alloc = rt.alloc();
    let mut rewind = rewind_of(alloc, MANY_TASKS)?;
    let at = jump(alloc, &mut rewind, 1_000_000)?;
    assert!(rt; matches!(at, At::Done(_)));
    assert!(rt; rewind.events().len() >= 76_000);
    Ok(())
}

#[test]
fn a_copy_goes_its_own_way(rt: HostRuntime) -> Result<(), Wrong> {
    let alloc = rt.alloc();
    let mut rewind = rewind_of(alloc, A_TEAM_OF_TWO)?;
    assert_eq!(rt; jump(alloc, &mut rewind, 10)?, At::Here);
    let events = rewind.events().len();
    let mut copy = rewind.split(alloc)?;
    assert_eq!(rt; copy.steps(), 10);
    assert_eq!(rt; differing(rewind.image(), copy.image()), 0);
    let stop = Stop {
        steps: 100,
        on: None,
    };
    assert_eq!(rt; copy.run(&Schedule::Seed(5), stop)?, End::Steps);
    assert_eq!(rt; copy.steps(), 110);
    assert!(rt; differing(rewind.image(), copy.image()) > 0);
    assert!(rt; stands_behind(alloc, &rewind, A_TEAM_OF_TWO, 10)?);
    assert_eq!(rt; rewind.events().len(), events);
    assert_eq!(rt; rewind.made(), 10);
    Ok(())
}
