//! Each refusal of the inquiries alone, at its first word.

use crate::asking::{Inquiry, forked};
use crate::rows::{
    BAD, GONE, OF_MEMBER, OF_REGION, OF_SIZE, OF_TASK, OF_THREAD, Records, Row, STALE, TO_OTHER,
    TO_REGION, TO_TASK, alone, error, first_wrong, records_of,
};
use omi_layout::Field;
use omi_session::Rc;
use std::test::Fail;

/// What is asked of thread 0. A thread whose life word isn't 1 has not begun.
fn of_threads(r: &Records) -> [Row; 7] {
    let (t, life) = (r.thread, Field::ThreadLife);
    let (cur, native) = (Field::ThreadCurrent, Field::ThreadNative);
    let finding = [Inquiry::ThreadWithId];
    let of_id = [Inquiry::ThreadWithId, Inquiry::IdOfThread];
    [
        alone((t, life, 0, Some(3)), &OF_THREAD, STALE),
        alone((t, life, 0, None), &OF_THREAD, error(t, life)).and(&finding, error(t, life)),
        alone((t, native, 0, None), &of_id, error(t, native)),
        alone((t, cur, 0, Some(0)), &TO_TASK, GONE),
        alone((t, cur, 0, None), &TO_TASK, error(t, cur)),
        alone((t, cur, 0, Some(8)), &TO_TASK, error(8, cur)),
        alone((t, cur, 0, Some(r.inner)), &TO_TASK, error(r.inner, cur)),
    ]
}

/// What leads to thread 1.
fn of_other(r: &Records) -> [Row; 4] {
    let (u, life, native) = (r.other, Field::ThreadLife, Field::ThreadNative);
    let (finding, member) = ([Inquiry::ThreadWithId], [Inquiry::ThreadOfMember]);
    let lost = error(u, Field::TaskThread);
    [
        alone((u, life, 0, Some(0)), &finding, GONE).and(&member, lost),
        alone((u, life, 0, None), &finding, error(u, life)).and(&member, lost),
        alone((u, native, 0, None), &finding, error(u, native)),
        alone((u, native, 0, Some(1002)), &finding, GONE),
    ]
}

/// The region and what leads to it, and the region around it. A task's region may not be none.
fn of_regions(r: &Records) -> [Row; 11] {
    let (n, m, o, life) = (r.inner, r.master, r.outer, Field::RegionLife);
    let (around, region) = (Field::RegionEnclosing, Field::TaskRegion);
    let enclosing = [Inquiry::Enclosing];
    [
        alone((n, life, 0, Some(3)), &OF_REGION, STALE),
        alone((n, life, 0, Some(2)), &OF_REGION, STALE).and(&TO_REGION, error(n, region)),
        alone((n, life, 0, None), &OF_REGION, error(n, life)).and(&TO_REGION, error(n, region)),
        alone((m, region, 0, Some(0)), &TO_REGION, error(0, region)),
        alone((m, region, 0, None), &TO_REGION, error(m, region)),
        alone((n, around, 0, Some(0)), &enclosing, GONE),
        alone((n, around, 0, None), &enclosing, error(n, around)),
        alone((n, around, 0, Some(8)), &enclosing, error(8, around)),
        alone(
            (n, around, 0, Some(r.thread)),
            &enclosing,
            error(r.thread, around),
        ),
        alone((o, life, 0, Some(2)), &enclosing, error(o, around)),
        alone((o, life, 0, None), &enclosing, error(o, around)),
    ]
}

/// The size of the team, and its element for member 1. An element may not be none.
fn of_teams(r: &Records) -> [Row; 9] {
    let (n, size, team) = (r.inner, Field::RegionSize, Field::RegionTeam);
    [
        alone((n, size, 0, None), &OF_SIZE, error(n, size)),
        alone((n, size, 0, Some(0)), &OF_SIZE, error(n, size)),
        alone((n, size, 0, Some(3)), &OF_SIZE, error(n, size)),
        alone((n, size, 0, Some(1)), &OF_MEMBER, BAD),
        alone((n, team, 1, None), &OF_MEMBER, error(n, team)),
        alone((n, team, 1, Some(0)), &OF_MEMBER, error(0, team)),
        alone((n, team, 1, Some(8)), &OF_MEMBER, error(8, team)),
        alone((n, team, 1, Some(n)), &OF_MEMBER, error(n, team)),
        alone(
            (n, team, 1, Some(r.thread)),
            &OF_MEMBER,
            error(r.thread, team),
        ),
    ]
}

/// The task of member 1, and its thread, which may not be none.
fn of_members(r: &Records) -> [Row; 8] {
    let (k, life, thread) = (r.worker, Field::TaskLife, Field::TaskThread);
    let lost = error(k, Field::RegionTeam);
    let member = [Inquiry::ThreadOfMember];
    [
        alone((k, life, 0, Some(0)), &OF_MEMBER, lost),
        alone((k, life, 0, Some(2)), &OF_MEMBER, lost),
        alone((k, life, 0, Some(0x2_0000_0001)), &OF_MEMBER, lost),
        alone((k, life, 0, None), &OF_MEMBER, lost),
        alone((k, thread, 0, None), &member, error(k, thread)),
        alone((k, thread, 0, Some(0)), &member, error(0, thread)),
        alone((k, thread, 0, Some(8)), &member, error(8, thread)),
        alone((k, thread, 0, Some(k)), &member, error(k, thread)),
    ]
}

/// The current task, its function and its frames.
fn of_tasks(r: &Records) -> [Row; 7] {
    let (m, life) = (r.master, Field::TaskLife);
    let (function, exit, enter) = (Field::TaskFunction, Field::TaskExit, Field::TaskEnter);
    let lost = error(m, Field::ThreadCurrent);
    [
        alone((m, life, 0, Some(3)), &OF_TASK, STALE),
        alone((m, life, 0, Some(2)), &OF_TASK, STALE).and(&TO_TASK, lost),
        alone((m, life, 0, Some(0x2_0000_0001)), &OF_TASK, STALE).and(&TO_TASK, lost),
        alone((m, life, 0, None), &OF_TASK, error(m, life)).and(&TO_TASK, lost),
        alone(
            (m, function, 0, None),
            &[Inquiry::Function],
            error(m, function),
        ),
        alone((m, exit, 0, None), &[Inquiry::Frames], error(m, exit)),
        alone((m, enter, 0, None), &[Inquiry::Frames], error(m, enter)),
    ]
}

/// The tasks to which the current one leads: one that made it or was left for it may be none, but not lost.
fn of_ancestors(r: &Records) -> [Row; 10] {
    let (m, i, life) = (r.master, r.initial, Field::TaskLife);
    let (made, left) = (Field::TaskGenerating, Field::TaskScheduling);
    let (generating, scheduling) = ([Inquiry::Generating], [Inquiry::Scheduling]);
    let (lost, gone) = (error(i, made), error(i, left));
    [
        alone((m, made, 0, Some(0)), &generating, GONE),
        alone((m, made, 0, Some(8)), &generating, error(8, made)),
        alone(
            (m, made, 0, Some(r.inner)),
            &generating,
            error(r.inner, made),
        ),
        alone((m, made, 0, None), &generating, error(m, made)),
        alone((m, left, 0, Some(0)), &scheduling, GONE),
        alone((m, left, 0, Some(8)), &scheduling, error(8, left)),
        alone(
            (m, left, 0, Some(r.thread)),
            &scheduling,
            error(r.thread, left),
        ),
        alone((m, left, 0, None), &scheduling, error(m, left)),
        alone((i, life, 0, Some(2)), &generating, lost).and(&scheduling, gone),
        alone((i, life, 0, None), &generating, lost).and(&scheduling, gone),
    ]
}

/// The control variables, the state and the tool word. A list has one to four elements, of which the first alone is read here.
fn of_words(r: &Records) -> [Row; 10] {
    let (m, t, u) = (r.master, r.thread, r.runtime);
    let (count, element) = (Field::TaskNthreadsLength, Field::TaskNthreads);
    let (number, tool) = (Field::TaskNumber, Field::TaskTool);
    let (debug, state) = (Field::RuntimeDebug, Field::ThreadState);
    let (list, of_state) = ([Inquiry::Nthreads], [Inquiry::State]);
    [
        alone((m, count, 0, None), &list, error(m, count)),
        alone((m, count, 0, Some(0)), &list, error(m, count)),
        alone((m, count, 0, Some(5)), &list, error(m, count)),
        alone((m, count, 0, Some(4)), &list, Rc::Incomplete(2)),
        alone((m, element, 0, None), &list, error(m, element)),
        alone(
            (m, number, 0, None),
            &[Inquiry::MemberNumber],
            error(m, number),
        ),
        alone((m, tool, 0, None), &[Inquiry::Tool], error(m, tool)),
        alone((u, debug, 0, None), &of_state, error(u, debug)),
        alone((u, debug, 0, Some(0)), &of_state, Rc::NeedsStateTracking),
        alone((t, state, 0, None), &of_state, error(t, state)),
    ]
}

#[test]
fn each_refusal_at_its_word(rt: HostRuntime) -> Result<(), Fail> {
    let alloc = rt.alloc();
    for family in [0u8, 7] {
        let words = forked(alloc, family)?;
        let r = records_of(&words)?;
        for wrong in [
            first_wrong(alloc, &words, &of_threads(&r)),
            first_wrong(alloc, &words, &of_other(&r)),
            first_wrong(alloc, &words, &of_regions(&r)),
            first_wrong(alloc, &words, &of_teams(&r)),
            first_wrong(alloc, &words, &of_members(&r)),
            first_wrong(alloc, &words, &of_tasks(&r)),
            first_wrong(alloc, &words, &of_ancestors(&r)),
            first_wrong(alloc, &words, &of_words(&r)),
        ] {
            assert_eq!(rt; wrong, Ok(None));
        }
    }
    Ok(())
}
