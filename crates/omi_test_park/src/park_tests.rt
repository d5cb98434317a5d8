//! Worked runs of threads with stops.

ghost use Rattle.std.specs.Prelude.{◌≤◌, IfSome};
ghost use Rattle.omi_rep.specs.Suits.{Suits};
ghost use Rattle.omi_park.specs.declared.limits.TheConstants.{MOST_STOPS};
ghost use Rattle.omi_seat.specs.declared.limits.TheConstants.{MOST_BUDGET};

use crate::gates::{AtSteps, Counting, MidRun};
use omi_core::Until;
use omi_fixture_rows::A_TEAM_OF_TWO;
use omi_layout::{Layout, MOST_THREADS};
use omi_outside::{FreeGate, Gate};
use omi_park::{MOST_STOPS, ParkEnd, Stopped, park, park_within};
use omi_rep::suits;
use omi_script::{Program, parse};
use omi_word::{FIRST_ADDRESS, Image};
use std::alloc::Global;
use std::sync::Wait;
use std::test::Fail;
use std::thread::Threads;

/// One thread that does nothing.
const NOTHING: &str = "func main\nend\n";

/// One thread that works longer than any budget.
const A_LONG_RUN: &str =
    "func w\nwork\nend\nfunc r\nrepeat 1000 w\nend\nfunc main\nrepeat 1000 r\nend\n";

/// Four threads that wait for each other, and for a lock.
const A_LOCK: &str =
    "threads 4\nfunc c\nwork\nend\nfunc b\ncritical 1 c\nbarrier\nend\nfunc main\nparallel b num 4\nend\n";

/// A team of as many threads as a program can have.
const A_TEAM_OF_SIXTY_FOUR: &str =
    "threads 64\nfunc f\nwork\nend\nfunc main\nparallel f num 64\nend\n";

/// The program of a script.
fn program(alloc: Global, script: &str) -> Option<Program> {
    parse(alloc, script.as_bytes()).ok()
}

/// The program of a script, and the layout of family 0 for it.
fn made_for(alloc: Global, script: &str) -> Option<(Program, Layout)>
    ensures { IfSome result (λ made. Suits made.0 made.1.table) }
{
    let p = program(alloc, script)?;
    if u64::from(p.threads) > MOST_THREADS {
        return None;
    }
    let l = Layout::family(0, p.threads);
    if !suits(&p, &l) {
        return None;
    }
    Some((p, l))
}

/// What the threads of a script's program make, in the layout of family 0, with so many stops.
fn run<R: Threads + Wait + Sync, G: Gate>(
    rt: &R,
    alloc: Global,
    script: &str,
    budget: u64,
    stops: u8,
    gate: &G,
) -> Option<ParkEnd>
    requires budget { budget ≤ MOST_BUDGET }
    requires stops { stops ≤ MOST_STOPS }
{
    let (p, l) = made_for(alloc, script)?;
    park(rt, alloc, &p, &l, budget, stops, gate).ok()
}

/// Whether two images have the same words.
fn are_same(a: &Image, b: &Image) -> bool {
    if a.len() != b.len() {
        return false;
    }
    for at in 0..a.len() {
        let address = FIRST_ADDRESS + 8 * at as u64;
        if a.get(address) != b.get(address) {
            return false;
        }
    }
    true
}

/// How many steps a thread had made at a stop.
fn steps_of(stop: &Stopped, thread: usize) -> Option<u64> {
    Some(*stop.steps.find(thread)?)
}

/// Without steps each stop has the opening words, and so has the end.
#[test]
fn before_the_first_step(rt: HostRuntime) -> Result<(), Fail> {
    let alloc = rt.alloc();
    for script in [NOTHING, A_TEAM_OF_TWO, A_TEAM_OF_SIXTY_FOUR] {
        let p = program(alloc, script).ok_or("no program")?;
        let threads = p.threads;
        let end = run(&rt, alloc, script, 0, 2, &FreeGate);
        assert!(rt; end.is_some());
        let end = end.unwrap();
        assert_eq!(rt; end.stops.len(), 2);
        for stop in end.stops.as_slice() {
            assert_eq!(rt; stop.steps.len(), usize::from(threads));
            for steps in stop.steps.as_slice() {
                assert_eq!(rt; *steps, 0);
            }
            assert!(rt; are_same(&stop.image, &end.image));
        }
        assert_eq!(rt; end.runs.len(), usize::from(threads));
        for thread in end.runs.as_slice() {
            assert_eq!(rt; thread.steps, 0);
            assert_eq!(rt; thread.until, Until::Budget);
        }
    }
    Ok(())
}

/// Without stops the run is one as without an inspector.
#[test]
fn no_stop(rt: HostRuntime) -> Result<(), Fail> {
    let gate = Counting::new();
    let end = run(&rt, rt.alloc(), NOTHING, 50_000, 0, &gate);
    assert!(rt; end.is_some());
    let end = end.unwrap();
    assert_eq!(rt; end.stops.len(), 0);
    assert_eq!(rt; gate.passes(), (0, 0));
    assert_eq!(rt; end.runs.len(), 1);
    for thread in end.runs.as_slice() {
        assert_eq!(rt; thread.until, Until::Ended);
        assert_eq!(rt; gate.steps(), thread.steps);
    }
    Ok(())
}

/// Both threads stop between their second and their tenth step. A body that makes its stop before the run or behind it doesn't.
#[test]
fn in_mid_run(rt: HostRuntime) -> Result<(), Fail> {
    let gate = MidRun::of(2, 2, 10);
    let end = run(&rt, rt.alloc(), A_TEAM_OF_TWO, 5_000, 1, &gate);
    assert!(rt; end.is_some());
    assert!(rt; gate.holds.all_ended());
    let end = end.unwrap();
    assert_eq!(rt; end.stops.len(), 1);
    let stop = end.stops.find(0).ok_or("no stop")?;
    for thread in 0..2 {
        let steps = steps_of(stop, thread).ok_or("no number")?;
        assert!(rt; 1 <= steps && steps < 10, "thread {thread} at {steps}");
        let run = end.runs.find(thread).ok_or("no run")?;
        assert!(rt; run.steps >= steps);
    }
    assert!(rt; !are_same(&stop.image, &end.image));
    Ok(())
}

/// A thread that is held before a step is stopped behind the step before: within its fork, at its barrier, in its critical section.
#[test]
fn at_each_step(rt: HostRuntime) -> Result<(), Fail> {
    for script in [A_TEAM_OF_TWO, A_LOCK] {
        for step in 1..60u64 {
            let gate = AtSteps::of(0, step, None);
            let end = run(&rt, rt.alloc(), script, 300, 1, &gate);
            assert!(rt; end.is_some());
            assert!(rt; gate.holds.all_ended());
            let end = end.unwrap();
            let stop = end.stops.find(0).ok_or("no stop")?;
            assert_eq!(rt; steps_of(stop, 0), Some(step - 1));
        }
    }
    Ok(())
}

/// The gate is passed before and behind each call to stop, with the numbers from 1 on.
#[test]
fn eight_stops(rt: HostRuntime) -> Result<(), Fail> {
    for (script, budget, threads) in [
        (NOTHING, 2_000, 1),
        (A_TEAM_OF_TWO, 300, 2),
        (A_LOCK, 300, 4),
        (A_TEAM_OF_SIXTY_FOUR, 5, 64),
    ] {
        let gate = Counting::new();
        let end = run(&rt, rt.alloc(), script, budget, MOST_STOPS, &gate);
        assert!(rt; end.is_some());
        let end = end.unwrap();
        assert_eq!(rt; end.stops.len(), 8);
        assert_eq!(rt; gate.passes(), (16, 16));
        assert_eq!(rt; end.runs.len(), threads);
        for thread in 0..threads {
            let mut last = 0;
            for stop in end.stops.as_slice() {
                let steps = steps_of(stop, thread).ok_or("no number")?;
                assert!(rt; last <= steps);
                last = steps;
            }
            let run = end.runs.find(thread).ok_or("no run")?;
            assert!(rt; last <= run.steps);
        }
    }
    Ok(())
}

/// A worker that has left is still. The inspector is held until its thread comes to its last step, so both stops are before that step or
/// behind it.
#[test]
fn behind_its_end(rt: HostRuntime) -> Result<(), Fail> {
    let end = run(&rt, rt.alloc(), NOTHING, 50_000, 1, &FreeGate);
    assert!(rt; end.is_some());
    let end = end.unwrap();
    let steps = end.runs.find(0).ok_or("no run")?.steps;
    let gate = MidRun::of(1, steps, steps.wrapping_add(1));
    let end = run(&rt, rt.alloc(), NOTHING, 50_000, 2, &gate);
    assert!(rt; end.is_some());
    assert!(rt; gate.holds.all_ended());
    let end = end.unwrap();
    assert_eq!(rt; end.stops.len(), 2);
    for stop in end.stops.as_slice() {
        let made = steps_of(stop, 0).ok_or("no number")?;
        assert!(rt; made.wrapping_add(1) == steps || made == steps);
    }
    assert_eq!(rt; end.runs.find(0).ok_or("no run")?.until, Until::Ended);
    Ok(())
}

/// How many threads stand between their first and their last step at a stop.
fn in_work(end: &ParkEnd, stop: &Stopped) -> usize {
    let mut count = 0usize;
    for thread in 0..end.runs.len() {
        let (Some(steps), Some(run)) = (steps_of(stop, thread), end.runs.find(thread)) else {
            continue;
        };
        if 0 < steps && steps < run.steps {
            count = count.wrapping_add(1);
        }
    }
    count
}

/// Work that gets no thread runs behind other work, and the run ends: no more threads of the program stand in mid-run than there are threads, one that
/// has not begun holds no stop up, and an inspector without a thread makes its stops behind the run.
#[test]
fn fewer_threads(rt: HostRuntime) -> Result<(), Fail> {
    let alloc = rt.alloc();
    for threads in [2u8, 3, 4, 8] {
        let script = format!(in alloc;
            "threads {threads}\nfunc f\nwork\nbarrier\nend\nfunc main\nparallel f num {threads}\nend\n"
        )?;
        let (p, l) = made_for(alloc, script.as_str()).ok_or("no program")?;
        for limit in 0..=threads {
            let gate = Counting::new();
            let end = park_within(&rt, alloc, &p, &l, 1_000, MOST_STOPS, &gate, limit);
            let end = end.map_err(|_| "no memory")?;
            assert_eq!(rt; gate.passes(), (16, 16));
            assert_eq!(rt; end.stops.len(), 8);
            assert_eq!(rt; end.runs.len(), usize::from(threads));
            for stop in end.stops.as_slice() {
                assert_eq!(rt; stop.steps.len(), usize::from(threads));
                assert!(rt; in_work(&end, stop) <= usize::from(limit));
                if limit == 0 {
                    assert!(rt; are_same(&stop.image, &end.image));
                }
            }
            for run in end.runs.as_slice() {
                assert!(rt; run.steps == 1_000 || run.until == Until::Ended);
            }
        }
    }
    Ok(())
}

/// Whether a thread stands at each stop behind its shares of the budget, one more of nine than at the stop before, and by fewer than a hundred steps.
fn are_behind_shares(end: &ParkEnd, budget: u64) -> bool {
    for stop in 0..end.stops.len() {
        let Some(made) = end.stops.find(stop).and_then(|it| steps_of(it, 0)) else {
            return false;
        };
        let share = budget
            .wrapping_mul(stop as u64)
            .wrapping_add(budget)
            .div_ceil(9);
        if made < share || share.wrapping_add(100) <= made {
            return false;
        }
    }
    true
}

/// Where a thread spends its budget, the stops lie apart, each where it is due. Beside other programs the wait for one may be in vain: so in one of twenty runs.
#[test]
fn stops_are_apart(rt: HostRuntime) -> Result<(), Fail> {
    for _run in 0..20 {
        let end = run(&rt, rt.alloc(), A_LONG_RUN, 50_000, MOST_STOPS, &FreeGate);
        assert!(rt; end.is_some());
        let end = end.unwrap();
        assert_eq!(rt; end.stops.len(), 8);
        if are_behind_shares(&end, 50_000) {
            return Ok(());
        }
    }
    Err("no run had stops that are apart")?;
    Ok(())
}
