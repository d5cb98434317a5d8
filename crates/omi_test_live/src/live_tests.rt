//! Worked runs of threads.

ghost use Rattle.std.specs.Prelude.{◌≤◌};
ghost use Rattle.omi_seat.specs.declared.limits.TheConstants.{MOST_BUDGET};

use omi_core::{Break, Until};
use omi_fixture_gates::{Leading, Meeting, Starting};
use omi_fixture_rows::A_TEAM_OF_TWO;
use omi_layout::{Layout, MOST_THREADS};
use omi_live::{LiveEnd, live};
use omi_outside::{FreeGate, Gate};
use omi_rep::suits;
use omi_script::parse;
use omi_seat::StartGate;
use std::alloc::Global;
use std::test::Fail;
use std::thread::Threads;

/// A team of one thread.
const A_TEAM_OF_ONE: &str = "threads 1\nfunc f\nwork\nend\nfunc main\nparallel f num 1\nend\n";

/// A task on a team of four threads.
const A_TASK: &str =
    "threads 4\nfunc t\nwork\nend\nfunc b\ntask t\ntaskwait\nend\nfunc main\nparallel b num 4\nend\n";

/// A team of as many threads as a program can have.
const A_TEAM_OF_SIXTY_FOUR: &str =
    "threads 64\nfunc f\nwork\nend\nfunc main\nparallel f num 64\nend\n";

/// What the threads of a script's program make, in the layout of family 0.
fn run<R: Threads + Sync, G: Gate>(
    rt: &R,
    alloc: Global,
    script: &str,
    budget: u64,
    on: Option<Break>,
    gate: &G,
) -> Option<LiveEnd>
    requires { budget ≤ MOST_BUDGET }
{
    let p = parse(alloc, script.as_bytes()).ok()?;
    if u64::from(p.threads) > MOST_THREADS {
        return None;
    }
    let l = Layout::family(0, p.threads);
    if !suits(&p, &l) {
        return None;
    }
    live(rt, alloc, &p, &l, budget, on, gate).ok()
}

/// Why a thread made no further step.
fn until_of(end: &LiveEnd, thread: usize) -> Option<Until> {
    Some(end.runs.find(thread)?.until)
}

#[test]
fn no_budget(rt: HostRuntime) -> Result<(), Fail> {
    let end = run(&rt, rt.alloc(), A_TEAM_OF_TWO, 0, None, &FreeGate);
    assert!(rt; end.is_some());
    let end = end.unwrap();
    assert_eq!(rt; end.runs.len(), 2);
    for thread in end.runs.as_slice() {
        assert_eq!(rt; thread.steps, 0);
        assert_eq!(rt; thread.until, Until::Budget);
    }
    Ok(())
}

#[test]
fn one_thread_ends(rt: HostRuntime) -> Result<(), Fail> {
    let end = run(&rt, rt.alloc(), A_TEAM_OF_ONE, 50_000, None, &FreeGate);
    assert!(rt; end.is_some());
    let end = end.unwrap();
    assert_eq!(rt; until_of(&end, 0), Some(Until::Ended));
    assert_eq!(rt; until_of(&end, 1), None);
    Ok(())
}

/// Thread 0 forks, and is told so. Another thread may have made all its steps before.
#[test]
fn a_break_stops(rt: HostRuntime) -> Result<(), Fail> {
    let on = Some(Break::ParallelBegin);
    let end = run(&rt, rt.alloc(), A_TASK, 50_000, on, &FreeGate);
    assert!(rt; end.is_some());
    let end = end.unwrap();
    assert_eq!(rt; until_of(&end, 0), Some(Until::Stopped));
    assert_eq!(rt; end.runs.len(), 4);
    for thread in end.runs.as_slice() {
        assert_ne!(rt; thread.until, Until::Ended);
    }
    Ok(())
}

/// All threads stand before their second steps at once. Where they work one after another, in whatever order, or pass no gate, none meets
/// the others.
#[test]
fn threads_run_beside_each_other(rt: HostRuntime) -> Result<(), Fail> {
    for (script, threads, passes) in [
        (A_TEAM_OF_TWO, 2, 10),
        (A_TASK, 4, 20),
        (A_TEAM_OF_SIXTY_FOUR, 64, 320),
    ] {
        let gate = Meeting::of(threads);
        let end = run(&rt, rt.alloc(), script, 5, None, &gate);
        assert!(rt; end.is_some(), "{threads} threads");
        let end = end.unwrap();
        assert_eq!(rt; gate.opened(), (threads, 5));
        assert_eq!(rt; gate.met(), threads);
        assert_eq!(rt; gate.passes(), passes, "{threads} threads");
        assert_eq!(rt; end.runs.len() as u64, threads);
        for thread in end.runs.as_slice() {
            assert_eq!(rt; thread.steps, 5, "{threads} threads");
            assert_eq!(rt; thread.until, Until::Budget, "{threads} threads");
        }
    }
    Ok(())
}

/// A worker begins with its first step. All others, which are held before a step of theirs until then, don't make it.
#[test]
fn a_break_is_seen_by_others(rt: HostRuntime) -> Result<(), Fail> {
    for (script, threads, leader, step) in [
        (A_TEAM_OF_TWO, 2, 1, 1),
        (A_TEAM_OF_TWO, 2, 1, 2),
        (A_TEAM_OF_TWO, 2, 1, 3),
        (A_TASK, 4, 1, 1),
        (A_TASK, 4, 2, 1),
        (A_TASK, 4, 3, 1),
    ] {
        let gate = Leading::by(leader, threads, step);
        let on = Some(Break::ThreadBegin);
        let end = run(&rt, rt.alloc(), script, 5, on, &gate);
        assert!(rt; end.is_some());
        let end = end.unwrap();
        assert_eq!(rt;
            gate.let_go(),
            threads,
            "led by {leader}, before step {step}"
        );
        assert_eq!(rt; end.runs.len() as u64, threads);
        for thread in 0..end.runs.len() {
            let run = end.runs.get(thread);
            let made = if thread == usize::from(leader) {
                1
            } else {
                step.saturating_sub(1)
            };
            assert_eq!(rt; run.steps, made, "thread {thread} led by {leader}");
            assert_eq!(rt;
                run.until,
                Until::Stopped,
                "thread {thread} led by {leader}"
            );
        }
    }
    Ok(())
}

/// Thread 0 makes no step before all others have offered themselves. Where the budget has no third step, it doesn't wait.
#[test]
fn work_begins_once_all_have_offered(rt: HostRuntime) -> Result<(), Fail> {
    for (script, threads) in [(A_TEAM_OF_TWO, 2), (A_TASK, 4), (A_TEAM_OF_SIXTY_FOUR, 64)] {
        let gate = Starting::new();
        let end = run(&rt, rt.alloc(), script, 5, None, &gate);
        assert!(rt; end.is_some(), "{threads} threads");
        assert_eq!(rt; gate.seen(), threads - 1, "{threads} threads");
        let end = end.unwrap();
        assert_eq!(rt; end.runs.len() as u64, threads);
        for thread in end.runs.as_slice() {
            assert_eq!(rt; thread.steps, 5, "{threads} threads");
        }
        let end = run(&rt, rt.alloc(), script, 2, None, &Starting::new());
        assert!(rt; end.is_some(), "{threads} threads");
        let end = end.unwrap();
        assert_eq!(rt; end.runs.len() as u64, threads);
        for thread in end.runs.as_slice() {
            assert_eq!(rt; thread.steps, 2, "{threads} threads");
        }
    }
    Ok(())
}

/// More passes than end in a test's time where each of them waits.
const MANY: u64 = 20_000;

/// Who waits in vain goes on after so many turns, and then nobody waits any more.
#[test]
fn no_thread_waits_for_ever(rt: HostRuntime) -> Result<(), Fail> {
    let gate = StartGate::of(20);
    gate.open(4, 10);
    for _pass in 0..MANY {
        gate.pass(0, 1);
    }
    gate.pass(2, 3);
    let end = run(&rt, rt.alloc(), A_TEAM_OF_TWO, 5, None, &StartGate::of(0));
    assert!(rt; end.is_some());
    assert_eq!(rt; end.unwrap().runs.len(), 2);
    Ok(())
}
