//! Handles that are kept from one stop of a run to a later one: of a region and of two of its tasks, current and stale.

ghost use Rattle.std.specs.Prelude.{◌≡◌};
ghost use Rattle.std.specs.Int.{from_le_bytes, w64};
ghost use Rattle.omi_calls.specs.Kept.{GivesNumbers, TakesAll};

use omi_ask::{
    get_enclosing_parallel_handle, get_task_parallel_handle, get_thread_handle, get_thread_id,
    region_id,
};
use omi_asktask::{get_curr_task_handle, get_task_frame, get_task_function, get_task_in_parallel};
use omi_calls::ToHost;
use omi_fixture_targets::{Asked, LITTLE, Opened, Stopped, Wrong, library, open, two_stops};
use omi_handle::{RegionHandle, TaskHandle, ThreadHandle};
use omi_icv::{Scoped, get_icv_from_scope};
use omi_model::{Id, Rid};
use omi_session::Rc;
use std::alloc::Global;
use std::test::Fail;

/// Two teams of two threads, one after the other in the same records.
const TWO_TEAMS: &str = "threads 2
func f
work
end
func main
parallel f num 2
parallel f num 2
end
";

/// The step of the first stop. Where the threads step in turn, the first team is forked by the step before it, and thread 0 has the next one.
const FIRST: u64 = 198;

/// A later step, and whether the tasks of both members and the region are current there. The first member's task is given back at the 259th step, the second
/// one's at the 265th and the region at the 267th. The region's record is taken again for the second team, which is forked at the 469th step.
const LATER: [(u64, [bool; 3]); 8] = [
    (198, [true, true, true]),
    (258, [true, true, true]),
    (259, [false, true, true]),
    (264, [false, true, true]),
    (265, [false, false, true]),
    (266, [false, false, true]),
    (267, [false, false, false]),
    (469, [false, false, false]),
];

/// The number of team-size-var.
const TEAM_SIZE: u32 = 12;

/// The handles that are kept: of thread 0, of the tasks of both members and of the region.
#[derive(Clone, Copy)]
struct Kept {
    thread: ThreadHandle,
    tasks: [TaskHandle; 2],
    region: RegionHandle,
}

/// The handles at the first stop.
fn at_the_first_stop<F: ToHost>(s: &mut Stopped<'_, F>) -> Result<Kept, Rc> {
    s.may_make()?;
    let thread = get_thread_handle(s, 0, 1000)?;
    s.may_make()?;
    let first = get_curr_task_handle(s, thread)?;
    s.may_make()?;
    let region = get_task_parallel_handle(s, first)?;
    s.may_make()?;
    let second = get_task_in_parallel(s, region, 1)?;
    Ok(Kept {
        thread,
        tasks: [first, second],
        region,
    })
}

/// Whether what a handle stands for is current, by the answer of an inquiry.
fn is_current(answer: Result<u64, Rc>) -> Result<bool, Rc> {
    match answer {
        Ok(_) => Ok(true),
        Err(Rc::StaleHandle) => Ok(false),
        Err(rc) => Err(rc),
    }
}

/// Whether a task is current: by its function, and by its frames too.
fn is_task_current<F: ToHost>(s: &mut Stopped<'_, F>, task: TaskHandle) -> Result<bool, Wrong> {
    let by_function = is_current(get_task_function(s, task))?;
    let by_frames = match get_task_frame(s, task) {
        Ok(frames) => is_current(Ok(frames.exit))?,
        Err(rc) => is_current(Err(rc))?,
    };
    if by_frames == by_function {
        Ok(by_function)
    } else {
        Err(Wrong::NoCore)
    }
}

/// Whether a region is current: by its size, and by the region around it too.
fn is_region_current<F: ToHost>(
    s: &mut Stopped<'_, F>,
    region: RegionHandle,
) -> Result<bool, Wrong> {
    let size = get_icv_from_scope(s, Scoped::Parallel(region), TEAM_SIZE);
    let by_size = is_current(size)?;
    s.may_make()?;
    let around = get_enclosing_parallel_handle(s, region);
    if around.is_ok() == by_size && (by_size || around == Err(Rc::StaleHandle)) {
        Ok(by_size)
    } else {
        Err(Wrong::NoCore)
    }
}

/// Which of the kept tasks and the region are current. The thread is, and the region keeps its name.
fn fates<F: ToHost>(s: &mut Stopped<'_, F>, kept: Kept) -> Result<[bool; 3], Wrong> {
    let name = Rid(Id {
        creator: 0,
        slot: 1,
        generation: 0,
    });
    if get_thread_id(s, 0, kept.thread)? != 1000 || region_id(s, kept.region)? != name {
        return Err(Wrong::NoCore);
    }
    let [first, second] = kept.tasks;
    Ok([
        is_task_current(s, first)?,
        is_task_current(s, second)?,
        is_region_current(s, kept.region)?,
    ])
}

/// What became of the kept handles so many steps behind the first stop.
fn fates_after<F: ToHost + Copy>(alloc: Global, steps: u64, to_host: F) -> Result<[bool; 3], Wrong>
    requires takes { TakesAll (F.takes to_host) }
    requires gives { GivesNumbers (F.gives to_host) 0 }
{
    let asked = Asked::never();
    let (first, later) = two_stops(alloc, TWO_TEAMS, [FIRST, steps])?;
    let session = open(alloc, first, LITTLE, to_host, &asked)?;
    let mut s = Opened { session };
    let kept = at_the_first_stop(&mut s.session)?;
    let table = library(alloc, later, LITTLE, to_host, &[], &asked)?.finalize();
    let mut s = s.over(table)?;
    fates(&mut s.session, kept)
}

#[test]
fn kept_handles_at_later_stops(rt: HostRuntime) -> Result<(), Fail> {
    let to_host = |bytes: [u8; 8]| -> u64
        ensures { result ≡ from_le_bytes w64 bytes }
    { u64::from_le_bytes(bytes) };
    for (step, wanted) in &LATER {
        let fates = fates_after(rt.alloc(), step.wrapping_sub(FIRST), &to_host);
        assert_eq!(rt; fates, Ok(*wanted), "{step}");
    }
    Ok(())
}
