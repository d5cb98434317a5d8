//! Worked runs of task groups, in the layout of family 0: their events, and the words of groups.

use crate::lines::tells;
use crate::look::Place;
use crate::moves::follow;
use crate::orders::until;
use crate::places::{FIRST, SECOND, SIXTH, THIRD};
use crate::scripts::{A_GROUP_OF_A_MEMBER, A_TASK_BEFORE_A_GROUP, FOUR_GROUPS};
use crate::trial::{Looks, Trial, Wrong};
use omi_fixture_rows::A_GROUPS_DESCENDANTS;
use omi_layout::{COUNT_PLACE, Field, GROUP_PLACE, OPEN_PLACE};
use std::alloc::Global;
use std::test::Fail;

/// The events of a group whose task makes a task. The group ends behind both.
const THE_DESCENDANTS: &str = "\
    group_begin; call 2; enter; defer k0.1.0; leave; ret; enter; state wait_taskgroup 0; start k0.1.0; \
    state work_serial 0; enter; defer k0.2.0; leave; finish k0.1.0; state wait_taskgroup 0; start k0.2.0; \
    state work_serial 0; work; finish k0.2.0; free k0.2.0; free k0.1.0; state wait_taskgroup 0; group_end; \
    state work_serial 0; leave; state wait_barrier_implicit_parallel 0; arrive; release; pass; done";

/// Whether a run is done with these events of thread 0.
fn is_done_with(alloc: Global, t: &mut Trial, events: &str) -> Result<bool, Wrong> {
    until(t, 0, "done")?;
    Ok(tells(alloc, t.core(), 0, events)?)
}

#[test]
fn descendants_of_a_group(rt: HostRuntime) -> Result<(), Fail> {
    let alloc = rt.alloc();
    let mut t = Trial::opening(alloc, A_GROUPS_DESCENDANTS, 0, Looks::EachStep)?;
    assert!(rt; is_done_with(alloc, &mut t, THE_DESCENDANTS)?);
    assert_eq!(rt; t.core().events().len(), 30);
    Ok(())
}

/// The events of four groups in one another, each of one task, and of a task in front of them: at the end of a group the task of this group starts, and no
/// other. The slots are full where the innermost group makes its task, which starts at once.
const FOUR_ENDS: &str = "\
    enter; defer k0.1.0; leave; group_begin; call 4; enter; seen 0; defer k0.2.0; leave; group_begin; call 3; enter; \
    seen 0; seen 1; defer k0.3.0; leave; group_begin; call 2; enter; seen 0; seen 1; seen 2; defer k0.4.0; leave; \
    group_begin; call 1; enter; seen 0; seen 1; seen 2; seen 3; start_now k0.5.0; work; finish k0.5.0; free k0.5.0; \
    leave; ret; enter; state wait_taskgroup 0; group_end; state work_serial 0; leave; ret; enter; \
    state wait_taskgroup 0; start k0.4.0; state work_serial 0; work; finish k0.4.0; free k0.4.0; \
    state wait_taskgroup 0; group_end; state work_serial 0; leave; ret; enter; state wait_taskgroup 0; start k0.3.0; \
    state work_serial 0; work; finish k0.3.0; free k0.3.0; state wait_taskgroup 0; group_end; state work_serial 0; \
    leave; ret; enter; state wait_taskgroup 0; start k0.2.0; state work_serial 0; work; finish k0.2.0; free k0.2.0; \
    state wait_taskgroup 0; group_end; state work_serial 0; leave; state wait_barrier_implicit_parallel 0; arrive; \
    start k0.1.0; state work_serial 0; work; finish k0.1.0; free k0.1.0; state wait_barrier_implicit_parallel 0; \
    release; pass; done";

/// The byte address of the record of the initial task. For one thread the records of tasks begin at the word 310.
const INITIAL_TASK: u64 = 0x10000 + 8 * 310;

/// A word of the slots of a task's record: the record, the place, and what stands there.
type SlotWord = (Place, u8, u64);

/// Where all four groups are open: the number of open groups of the initial task and the count of each, and of two tasks their groups, the outermost
/// and the innermost one. The task in front of the groups has none.
const FOUR_OPEN: [SlotWord; 8] = [
    (FIRST, OPEN_PLACE, 4),
    (FIRST, COUNT_PLACE, 1),
    (FIRST, COUNT_PLACE + 1, 1),
    (FIRST, COUNT_PLACE + 2, 1),
    (FIRST, COUNT_PLACE + 3, 1),
    (SECOND, GROUP_PLACE, 0),
    (THIRD, GROUP_PLACE, INITIAL_TASK),
    (SIXTH, GROUP_PLACE, INITIAL_TASK + 3),
];

/// Behind the ends of all four: no open group, and no count.
const NONE_OPEN: [SlotWord; 5] = [
    (FIRST, OPEN_PLACE, 0),
    (FIRST, COUNT_PLACE, 0),
    (FIRST, COUNT_PLACE + 1, 0),
    (FIRST, COUNT_PLACE + 2, 0),
    (FIRST, COUNT_PLACE + 3, 0),
];

/// These words stand in the slots.
fn have(t: &Trial, words: &[SlotWord]) -> Result<(), Wrong> {
    for (record, place, word) in words {
        t.look()
            .is_at(*record, Field::TaskSlots, *place, Some(*word))?;
    }
    Ok(())
}

/// Whether four groups open one in another, and end with their words as they are to be.
fn has_four_groups(alloc: Global, t: &mut Trial) -> Result<bool, Wrong> {
    follow(t, "0 until start_now k0.5.0")?;
    have(t, &FOUR_OPEN)?;
    let is_done = is_done_with(alloc, t, FOUR_ENDS)?;
    have(t, &NONE_OPEN)?;
    Ok(is_done)
}

#[test]
fn four_groups_in_one_another(rt: HostRuntime) -> Result<(), Fail> {
    let mut t = Trial::opening(rt.alloc(), FOUR_GROUPS, 0, Looks::EachStep)?;
    assert!(rt; has_four_groups(rt.alloc(), &mut t)?);
    Ok(())
}

/// Moves of two threads, of which thread 1 makes a task and then two more in a group: at its end these two start, and the first one at the barrier.
const ONLY_MEMBERS: &str = "\
1 waits at thread.assign 1 0 0 0
0 until fork
0 until arrive
1 until defer k1.0.0
1 until group_begin
1 until defer k1.1.0
1 until defer k1.2.0
1 until state wait_taskgroup 0
1 goes on to start k1.1.0
1 until finish k1.1.0
1 goes on to free k1.1.0
1 goes on to state wait_taskgroup 0
1 goes on to start k1.2.0
1 until finish k1.2.0
1 goes on to free k1.2.0
1 goes on to state wait_taskgroup 0
1 goes on to group_end
0 until start k1.0.0
1 until arrive
0 until finish k1.0.0";

#[test]
fn tasks_of_no_group_stay_at_its_end(rt: HostRuntime) -> Result<(), Fail> {
    let mut t = Trial::opening(rt.alloc(), A_TASK_BEFORE_A_GROUP, 0, Looks::EachStep)?;
    follow(&mut t, ONLY_MEMBERS)?;
    Ok(())
}

/// Moves of two threads, and behind each the count of the group that the second member begins. Its task runs on thread 0 and makes a task, which
/// starts on thread 1 at the end of the group: it is no child of the task that began this.
const THE_COUNTS: [(&str, u64); 8] = [
    (
        "1 waits at thread.assign 1 0 0 0\n0 until fork\n0 until arrive\n1 until group_begin",
        0,
    ),
    ("1 until defer k1.0.0", 1),
    ("0 until start k1.0.0\n0 until defer k0.3.0", 2),
    ("1 until start k0.3.0", 2),
    ("0 until finish k1.0.0", 2),
    ("0 goes on to state wait_barrier_implicit_parallel 0", 1),
    ("1 until finish k0.3.0", 1),
    ("1 goes on to free k0.3.0", 0),
];

/// The group ends behind both of its tasks, and its count tells of each that has not finished.
fn counts_its_tasks(t: &mut Trial) -> Result<(), Wrong> {
    for (moves, count) in &THE_COUNTS {
        follow(t, moves)?;
        have(t, &[(THIRD, COUNT_PLACE, *count)])?;
    }
    follow(
        t,
        "1 goes on to free k1.0.0\n1 goes on to state wait_taskgroup 0\n1 goes on to group_end",
    )
}

#[test]
fn a_groups_count(rt: HostRuntime) -> Result<(), Fail> {
    let mut t = Trial::opening(rt.alloc(), A_GROUP_OF_A_MEMBER, 0, Looks::EachStep)?;
    counts_its_tasks(&mut t)?;
    Ok(())
}
