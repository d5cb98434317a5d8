//! Worked runs in which records are given back and taken again, in the layout of family 0: their words are compared at each step, and with them the
//! life words of the records and the counts of references.

use crate::lines::tells;
use crate::moves::follow;
use crate::orders::until;
use crate::places::{SECOND, THIRD};
use crate::scripts::{AN_ENDED_ANCESTOR, ONE_TASK_AFTER_ANOTHER, ONE_TEAM_AFTER_ANOTHER};
use crate::trial::{Looks, Trial, Wrong};
use omi_layout::Field;
use std::alloc::Global;
use std::test::Fail;

/// Moves of a thread that makes two tasks, one after the other, and behind each the life word of the record of both.
const THE_LIVES: [(&str, u64); 6] = [
    ("0 until start_now k0.1.0", 1),
    ("0 until finish k0.1.0", 1),
    ("0 goes on to free k0.1.0", 2),
    ("0 until start_now k0.1.1", 3),
    ("0 until finish k0.1.1", 3),
    ("0 goes on to free k0.1.1", 4),
];

/// The events of both tasks.
const THE_TASKS: &str = "\
    enter; start_now k0.1.0; work; finish k0.1.0; free k0.1.0; leave; \
    enter; start_now k0.1.1; work; finish k0.1.1; free k0.1.1; leave; \
    state wait_barrier_implicit_parallel 0; arrive; release; pass; done";

/// Whether the second task takes the record that the first one gave back, and gives it back.
fn takes_the_record(alloc: Global, t: &mut Trial) -> Result<bool, Wrong> {
    for (moves, life) in &THE_LIVES {
        follow(t, moves)?;
        t.look().is(SECOND, Field::TaskLife, *life)?;
    }
    until(t, 0, "done")?;
    Ok(tells(alloc, t.core(), 0, THE_TASKS)?)
}

#[test]
fn a_task_in_the_record_of_another(rt: HostRuntime) -> Result<(), Fail> {
    let mut t = Trial::opening(rt.alloc(), ONE_TASK_AFTER_ANOTHER, 0, Looks::EachStep)?;
    assert!(rt; takes_the_record(rt.alloc(), &mut t)?);
    Ok(())
}

/// Moves of two threads that are a team and then another one. Behind each: the life words of the region and of the tasks of the members.
const THE_TEAMS: [(&str, [u64; 3]); 9] = [
    (
        "1 waits at thread.assign 1 0 0 0\n0 until fork r0.1.0 size 2 team k0.1.0@0 k0.2.0@1",
        [1, 1, 1],
    ),
    (
        "0 goes on to state work_parallel 0\n1 until arrive\n0 until release\n1 waits at thread.assign 1 0 0 0",
        [1, 1, 1],
    ),
    ("0 until join r0.1.0", [1, 1, 1]),
    ("0 goes on to free k0.1.0", [1, 2, 1]),
    ("0 goes on to free k0.2.0", [1, 2, 2]),
    ("0 goes on to free r0.1.0", [2, 2, 2]),
    (
        "0 goes on to state work_serial 0\n0 until fork r0.1.1 size 2 team k0.1.1@0 k0.2.1@1",
        [3, 3, 3],
    ),
    (
        "0 goes on to state work_parallel 0\n1 until arrive\n0 until release\n1 waits at thread.assign 1 0 0 0\n0 until join r0.1.1",
        [3, 3, 3],
    ),
    (
        "0 goes on to free k0.1.1\n0 goes on to free k0.2.1\n0 goes on to free r0.1.1\n0 goes on to state work_serial 0",
        [4, 4, 4],
    ),
];

/// The second team takes the records of the region and of the members that the first one gave back.
fn takes_the_records(t: &mut Trial) -> Result<(), Wrong> {
    for (moves, lives) in &THE_TEAMS {
        follow(t, moves)?;
        t.look().have(&[
            (SECOND, Field::RegionLife, lives[0]),
            (SECOND, Field::TaskLife, lives[1]),
            (THIRD, Field::TaskLife, lives[2]),
        ])?;
    }
    until(t, 0, "done")
}

#[test]
fn a_team_in_the_records_of_another(rt: HostRuntime) -> Result<(), Fail> {
    let mut t = Trial::opening(rt.alloc(), ONE_TEAM_AFTER_ANOTHER, 0, Looks::EachStep)?;
    takes_the_records(&mut t)?;
    Ok(())
}

/// Moves of a thread whose task makes a task and finishes before that one starts. Behind each the references of the first: its own, and one of the
/// second.
const THE_REFERENCES: [(&str, u64); 6] = [
    ("0 until defer k0.1.0", 1),
    ("0 until defer k0.2.0", 2),
    ("0 until finish k0.1.0", 2),
    ("0 goes on to state wait_barrier_implicit_parallel 0", 1),
    ("0 until free k0.2.0", 1),
    ("0 goes on to free k0.1.0", 0),
];

/// The first task is given back behind the second one, and keeps its record until then.
fn gives_back_both(t: &mut Trial) -> Result<(), Wrong> {
    for (moves, references) in &THE_REFERENCES {
        follow(t, moves)?;
        t.look().is(SECOND, Field::TaskReferences, *references)?;
    }
    t.look().is(SECOND, Field::TaskLife, 2)?;
    t.look().is(THIRD, Field::TaskLife, 2)?;
    follow(
        t,
        "0 goes on to state wait_barrier_implicit_parallel 0\n0 until done",
    )
}

#[test]
fn an_ancestor_behind_its_child(rt: HostRuntime) -> Result<(), Fail> {
    let mut t = Trial::opening(rt.alloc(), AN_ENDED_ANCESTOR, 0, Looks::EachStep)?;
    gives_back_both(&mut t)?;
    Ok(())
}
