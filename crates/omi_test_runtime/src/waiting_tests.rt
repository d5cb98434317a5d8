//! Each place at which a thread waits: the word at which it is not ready, and that it goes on once the others have
//! made their steps. In the layouts of all families, with few records where a search finds all in use.

use crate::moves::follow;
use crate::scripts::{
    A_GROUP_IN_A_TASK, A_TASK_OF_EACH_MEMBER, A_TEAM_IN_A_TEAM, FOUR_TASKS_OF_A_MEMBER, ONE_LOCK,
    TWO_BARRIERS, WAITS_FOR_TASKS,
};
use crate::trial::{Few, Looks, Trial, Wrong};
use omi_fixture_rows::{A_FULL_ROW, A_TEAM_OF_TWO};
use std::alloc::Global;
use std::test::Fail;

/// A worker waits for a task; member 0 for the others at the barrier, and for them to leave; another member for the release.
/// A search for a record finds one in use, and goes on at the next.
const A_TEAM: &str = "\
1 waits at thread.assign 1 0 0 0
1 waits at thread.assign 1 0 0 0
0 until ask 1 got
0 waits at region.life 0 0 0 1
0 waits at task.life 0 0 0 1
0 waits at task.life 0 0 0 1
0 waits at task.life 0 1 0 1
0 goes on to fork r0.1.0 size 2 team k0.1.0@0 k0.2.0@1
0 waits at region.arrived 0 1 0 1
0 waits at region.arrived 0 1 0 1
1 goes on to implicit_begin k0.2.0
1 waits at region.released 0 1 0 0
1 waits at region.released 0 1 0 0
0 goes on to release
0 waits at region.left 0 1 0 0
0 waits at region.left 0 1 0 0
1 goes on to pass
1 waits at thread.assign 1 0 0 0
0 goes on to join r0.1.0
0 goes on to free k0.1.0
0 goes on to free k0.2.0
0 goes on to free r0.1.0
0 goes on to state work_serial 0
0 until done";

/// The bounds of the words at a first and a second barrier of three members: so many arrivals for each release.
const BARRIERS: &str = "\
1 waits at thread.assign 1 0 0 0
2 waits at thread.assign 2 0 0 0
0 until fork
0 waits at region.arrived 0 1 0 1
2 waits at region.released 0 1 0 0
0 waits at region.arrived 0 1 0 2
1 waits at region.released 0 1 0 0
0 goes on to release
0 goes on to pass
0 waits at region.arrived 0 1 0 4
2 goes on to pass
2 waits at region.released 0 1 0 1
0 waits at region.arrived 0 1 0 5
1 goes on to pass
1 waits at region.released 0 1 0 1
0 goes on to release
1 goes on to pass
0 waits at region.left 0 1 0 0
1 waits at thread.assign 1 0 0 0
0 waits at region.left 0 1 0 1";

/// A member waits for a lock that the other has.
const A_LOCK: &str = "\
1 waits at thread.assign 1 0 0 0
0 until lock 3
1 waits at rt.locks 0 0 3 1
1 waits at rt.locks 0 0 3 1
0 until unlock 3
1 goes on to lock 3
0 waits at region.arrived 0 1 0 1
1 until unlock 3";

/// Member 0 waits at the barrier for the explicit task that the other member runs, until its thread has given the task back and has lowered
/// the count.
const TASKS_OF_A_REGION: &str = "\
1 waits at thread.assign 1 0 0 0
0 until fork
0 until arrive
1 until start k0.3.0
0 until finish k1.0.0
0 waits at region.pending 0 1 0 1
0 waits at region.pending 0 1 0 1
1 until finish k0.3.0
0 waits at region.pending 0 1 0 1
1 goes on to free k0.3.0
0 waits at region.pending 0 1 0 1
1 goes on to state wait_barrier_implicit_parallel 0
0 goes on to release";

/// A task waits for a child that the other member runs, until its thread has lowered the count. It finishes before the child's thread has given up
/// its reference, so that this thread gives back both.
const CHILDREN: &str = "\
1 waits at thread.assign 1 0 0 0
0 until fork
0 waits at region.arrived 0 1 0 1
1 until defer k1.1.0
0 until start k1.1.0
1 waits at task.children 1 0 0 1
1 waits at task.children 1 0 0 1
0 until finish k1.1.0
1 waits at task.children 1 0 0 1
0 goes on to free k1.1.0
1 goes on to wait_done
1 until finish k1.0.0
1 goes on to state wait_barrier_implicit_parallel 0
0 goes on to free k1.0.0
0 goes on to state wait_barrier_implicit_parallel 0";

/// A task that another thread made begins a group, and waits at its end for the task that the other thread runs, until this has lowered the group's count.
const A_GROUP: &str = "\
1 waits at thread.assign 1 0 0 0
0 until fork
0 until arrive
1 until defer k1.0.0
1 until arrive
0 until start k1.0.0
0 goes on to state work_parallel 0
0 goes on to group_begin
0 until defer k0.3.0
0 until state wait_taskgroup 0
1 until start k0.3.0
0 waits at task.slots 1 0 6 1
0 waits at task.slots 1 0 6 1
1 until finish k0.3.0
0 waits at task.slots 1 0 6 1
1 goes on to free k0.3.0
1 goes on to state wait_barrier_implicit_parallel 0
0 goes on to group_end
0 goes on to state work_parallel 0
0 goes on to leave
0 goes on to finish k1.0.0
0 goes on to free k1.0.0
0 goes on to state wait_barrier_implicit_parallel 0";

/// A search for the record of an explicit task finds one in use, and goes on at the next.
const A_TASK_RECORD: &str = "\
0 until enter
0 waits at task.life 0 0 0 1
0 goes on to defer k0.1.0";

/// Makes moves and compares the words behind them.
fn follow_and_compare(t: &mut Trial, moves: &str) -> Result<(), Wrong> {
    follow(t, moves)?;
    t.compare()
}

/// Makes moves in the layout of a family.
fn in_family(alloc: Global, script: &str, k: u8, moves: &str) -> Result<(), Wrong> {
    let mut t = Trial::opening(alloc, script, k, Looks::EachEvent)?;
    follow_and_compare(&mut t, moves)
}

/// Makes moves in the layouts of all families.
fn in_all_families(alloc: Global, script: &str, moves: &str) -> Result<(), Wrong> {
    for k in 0..16u8 {
        in_family(alloc, script, k, moves)?;
    }
    Ok(())
}

/// Each place at which a thread waits: a team and its records, two barriers, a lock, tasks of a region, children, tasks of a
/// group, and the record of a task.
#[test]
fn each_wait(rt: HostRuntime) -> Result<(), Fail> {
    for (script, moves) in [
        (A_TEAM_OF_TWO, A_TEAM),
        (TWO_BARRIERS, BARRIERS),
        (ONE_LOCK, A_LOCK),
        (A_TASK_OF_EACH_MEMBER, TASKS_OF_A_REGION),
        (WAITS_FOR_TASKS, CHILDREN),
        (A_GROUP_IN_A_TASK, A_GROUP),
        (A_FULL_ROW, A_TASK_RECORD),
    ] {
        in_all_families(rt.alloc(), script, moves)?;
    }
    Ok(())
}

/// Two records of regions and three of tasks for each thread.
const FEW: Few = Few {
    regions: 2,
    tasks: 3,
};

/// The looks of a search that finds all records of regions in use, and begins anew.
const A_SEARCH_IN_VAIN: &str = "\
0 until fork r0.1.0
0 until want 1
0 waits at region.life 0 0 0 1
0 waits at region.life 0 1 0 1
0 waits at region.life 0 0 0 1
0 waits at region.life 0 1 0 1";

/// A member has made as many tasks as it has records. Its search for one more finds all in use, and begins anew; a task that has finished keeps its
/// record until it is given back. Then the search comes to it.
const A_SEARCH_THAT_WAITS: &str = "\
1 waits at thread.assign 1 0 0 0
0 until fork
0 until arrive
1 until defer k1.2.0
1 waits at task.life 1 0 0 1
1 waits at task.life 1 1 0 1
1 waits at task.life 1 2 0 1
1 waits at task.life 1 0 0 1
0 until finish k1.0.0
1 waits at task.life 1 1 0 1
1 waits at task.life 1 2 0 1
1 waits at task.life 1 0 0 1
0 goes on to free k1.0.0
1 waits at task.life 1 1 0 1
1 waits at task.life 1 2 0 1
1 goes on to defer k1.0.1";

/// Makes moves in the layout of a family with few records.
fn with_few(alloc: Global, script: &str, k: u8, moves: &str) -> Result<(), Wrong> {
    let mut t = Trial::with_few(alloc, script, k, FEW, Looks::EachEvent)?;
    follow_and_compare(&mut t, moves)
}

#[test]
fn no_record_is_free(rt: HostRuntime) -> Result<(), Fail> {
    for k in 0..16u8 {
        with_few(rt.alloc(), A_TEAM_IN_A_TEAM, k, A_SEARCH_IN_VAIN)?;
        with_few(rt.alloc(), FOUR_TASKS_OF_A_MEMBER, k, A_SEARCH_THAT_WAITS)?;
    }
    Ok(())
}
