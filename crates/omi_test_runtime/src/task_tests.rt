//! Worked runs of explicit tasks, in the layout of family 0: their events, the words of their records, and the words that do not change while
//! a task is taken from its slot.

use crate::lines::tells;
use crate::look::Place;
use crate::moves::follow;
use crate::orders::until;
use crate::places::{FIRST, FOURTH, OTHER, THIRD};
use crate::reports::{has_lines, report};
use crate::scripts::{A_NESTED_CHAIN, AN_ENDED_ANCESTOR};
use crate::trial::{Looks, Trial, Wrong};
use omi_fixture_rows::A_FULL_ROW;
use omi_layout::Field;
use omi_rep::Outcome;
use std::alloc::Global;
use std::test::Fail;

/// More steps than a thread makes from its arrival to its first task.
const MANY: u32 = 1_000;

/// The second task, although the task that made it has finished. For one thread the records of tasks begin at the word 310, and
/// those of regions at the word 118.
const THE_GRANDCHILD: [(Place, Field, u64); 9] = [
    (THIRD, Field::TaskLife, 1),
    (THIRD, Field::TaskImplicit, 0),
    (THIRD, Field::TaskRegion, 0x10000 + 8 * 118),
    (THIRD, Field::TaskThread, 0x10000 + 8 * 112),
    (THIRD, Field::TaskFunction, 0x40_0000),
    (THIRD, Field::TaskGenerating, 0x10000 + 8 * 342),
    (THIRD, Field::TaskScheduling, 0x10000 + 8 * 310),
    (THIRD, Field::TaskExit, 0x7f00_000f_ff80),
    (FIRST, Field::ThreadCurrent, 0x10000 + 8 * 374),
];

/// Whether the second task begins under the initial task, and the first has finished.
fn has_an_ended_ancestor(alloc: Global, t: &mut Trial) -> Result<bool, Wrong> {
    follow(
        t,
        "0 until start k0.1.0\n0 until finish k0.1.0\n0 until start k0.2.0",
    )?;
    t.look().have(&THE_GRANDCHILD)?;
    let events = "enter; defer k0.1.0; leave; state wait_barrier_implicit_parallel 0; arrive; \
        start k0.1.0; state work_serial 0; enter; defer k0.2.0; leave; finish k0.1.0; \
        state wait_barrier_implicit_parallel 0; start k0.2.0";
    Ok(tells(alloc, t.core(), 0, events)?)
}

#[test]
fn an_ended_ancestor(rt: HostRuntime) -> Result<(), Fail> {
    let mut t = Trial::opening(rt.alloc(), AN_ENDED_ANCESTOR, 0, Looks::EachStep)?;
    assert!(rt; has_an_ended_ancestor(rt.alloc(), &mut t)?);
    Ok(())
}

/// The events of eight tasks, of which four are deferred and four start at once. Each that starts at once takes the record that the one before
/// gave back.
const THE_ROW: &str = "\
    enter; defer k0.1.0; leave; \
    enter; seen 0; defer k0.2.0; leave; \
    enter; seen 0; seen 1; defer k0.3.0; leave; \
    enter; seen 0; seen 1; seen 2; defer k0.4.0; leave; \
    enter; seen 0; seen 1; seen 2; seen 3; start_now k0.5.0; work; finish k0.5.0; free k0.5.0; leave; \
    enter; seen 0; seen 1; seen 2; seen 3; start_now k0.5.1; work; finish k0.5.1; free k0.5.1; leave; \
    enter; seen 0; seen 1; seen 2; seen 3; start_now k0.5.2; work; finish k0.5.2; free k0.5.2; leave; \
    enter; seen 0; seen 1; seen 2; seen 3; start_now k0.5.3; work; finish k0.5.3; free k0.5.3; leave; \
    state wait_barrier_implicit_parallel 0; arrive; \
    start k0.1.0; state work_serial 0; work; finish k0.1.0; free k0.1.0; \
        state wait_barrier_implicit_parallel 0; \
    start k0.2.0; state work_serial 0; work; finish k0.2.0; free k0.2.0; \
        state wait_barrier_implicit_parallel 0; \
    start k0.3.0; state work_serial 0; work; finish k0.3.0; free k0.3.0; \
        state wait_barrier_implicit_parallel 0; \
    start k0.4.0; state work_serial 0; work; finish k0.4.0; free k0.4.0; \
        state wait_barrier_implicit_parallel 0; \
    release; pass; done";

/// Whether a run is done with these events, which are 87.
fn has_a_full_row(alloc: Global, t: &mut Trial) -> Result<bool, Wrong> {
    until(t, 0, "done")?;
    Ok(tells(alloc, t.core(), 0, THE_ROW)? && t.core().events().len() == 87)
}

#[test]
fn a_full_row_of_slots(rt: HostRuntime) -> Result<(), Fail> {
    let mut t = Trial::opening(rt.alloc(), A_FULL_ROW, 0, Looks::EachStep)?;
    assert!(rt; has_a_full_row(rt.alloc(), &mut t)?);
    Ok(())
}

/// The words of thread 0 that a report shows first: its current task, and its state.
fn has_arrived(t: &Trial) -> Result<(), Wrong> {
    t.look().is(FIRST, Field::ThreadCurrent, 0x10000 + 8 * 310)?;
    t.look().is(FIRST, Field::ThreadState, 0x11)?;
    Ok(())
}

/// From the arrival up to one step before the first start these words and the report stay, and how many steps these are.
fn stays_in_transit(alloc: Global, t: &mut Trial) -> Result<u32, Wrong> {
    until(t, 0, "arrive")?;
    let first = report(alloc, t)?;
    for steps in 0..MANY {
        has_arrived(t)?;
        if report(alloc, t)? != first {
            return Err(Wrong::NoReport);
        }
        if let Some(Outcome::Event(_)) = t.step(0)? {
            return Ok(steps);
        }
    }
    Err(Wrong::TooLong)
}

/// From its arrival a thread looks at a row, finds a code in its first slot, takes it, reads the task's function and final flag, and fills the five
/// words of its place, before it starts.
#[test]
fn in_transit(rt: HostRuntime) -> Result<(), Fail> {
    let mut t = Trial::opening(rt.alloc(), A_FULL_ROW, 0, Looks::EachStep)?;
    assert_eq!(rt; stays_in_transit(rt.alloc(), &mut t)?, 10);
    Ok(())
}

/// The chain of thread 1: an implicit task under an explicit one, under a member. For two threads the records of tasks begin at the word 540, those
/// of regions at the word 124, and thread 1 has 256 and 16 records behind those of thread 0.
const THE_CHAIN: [(Place, Field, u64); 22] = [
    (OTHER, Field::ThreadCurrent, 0x10000 + 8 * 8732),
    (OTHER, Field::TaskImplicit, 1),
    (OTHER, Field::TaskThread, 0x10000 + 8 * 118),
    (OTHER, Field::TaskRegion, 0x10000 + 8 * 332),
    (OTHER, Field::TaskGenerating, 0x10000 + 8 * 636),
    (OTHER, Field::TaskScheduling, 0x10000 + 8 * 636),
    (OTHER, Field::TaskExit, 0x7f00_001f_ff40),
    (OTHER, Field::TaskEnter, 0),
    (FOURTH, Field::TaskImplicit, 0),
    (FOURTH, Field::TaskThread, 0x10000 + 8 * 118),
    (FOURTH, Field::TaskRegion, 0x10000 + 8 * 137),
    (FOURTH, Field::TaskFunction, 0x40_0010),
    (FOURTH, Field::TaskGenerating, 0x10000 + 8 * 572),
    (FOURTH, Field::TaskScheduling, 0x10000 + 8 * 604),
    (FOURTH, Field::TaskExit, 0x7f00_001f_ff80),
    (FOURTH, Field::TaskEnter, 0x7f00_001f_ff60),
    (THIRD, Field::TaskImplicit, 1),
    (THIRD, Field::TaskFunction, 0x40_0030),
    (THIRD, Field::TaskGenerating, 0x10000 + 8 * 540),
    (THIRD, Field::TaskScheduling, 0),
    (THIRD, Field::TaskExit, 0x7f00_001f_ffc0),
    (THIRD, Field::TaskEnter, 0),
];

/// A member defers a task, and the other one runs it at the barrier and forks in it.
fn has_a_nested_chain(t: &mut Trial) -> Result<(), Wrong> {
    let moves = "1 waits at thread.assign 1 0 0 0\n0 until defer k0.3.0\n\
        1 until fork r1.0.0 size 1 team k1.0.0@1";
    follow(t, moves)?;
    t.look().have(&THE_CHAIN)?;
    Ok(())
}

/// The tasks of the report: the chain of thread 0, which is still in its `task` construct, and that of thread 1.
const THE_CHAINS: &str = "\
task k0.1.0 thread 0 kind implicit region r0.1.0 function 0x400030 generating k0.0.0 scheduling k0.0.0 exit 0x7f00000fff80 enter 0x7f00000fff60 tool 0
task k0.0.0 thread 0 kind implicit region r0.0.0 function 0x400040 generating none scheduling none exit 0x7f00000fffc0 enter 0x7f00000fffa0 tool 0
task k1.0.0 thread 1 kind implicit region r1.0.0 function 0x400000 generating k0.3.0 scheduling k0.3.0 exit 0x7f00001fff40 enter 0x0 tool 0
task k0.3.0 thread 1 kind explicit region r0.1.0 function 0x400010 generating k0.1.0 scheduling k0.2.0 exit 0x7f00001fff80 enter 0x7f00001fff60 tool 0
task k0.2.0 thread 1 kind implicit region r0.1.0 function 0x400030 generating k0.0.0 scheduling none exit 0x7f00001fffc0 enter 0x0 tool 0";

#[test]
fn a_nested_chain(rt: HostRuntime) -> Result<(), Fail> {
    let mut t = Trial::opening(rt.alloc(), A_NESTED_CHAIN, 0, Looks::EachStep)?;
    has_a_nested_chain(&mut t)?;
    let report = report(rt.alloc(), &t)?;
    assert!(rt; has_lines(&report, "task ", THE_CHAINS), "{report}");
    Ok(())
}
