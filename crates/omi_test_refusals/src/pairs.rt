//! Two refusals of an inquiry at once: the one whose word is read first decides.

use crate::asking::{Inquiry, forked};
use crate::rows::{
    BAD, GONE, OF_MEMBER, OF_REGION, OF_SIZE, OF_TASK, OF_THREAD, Records, Row, STALE, TO_REGION,
    TO_TASK, error, first_wrong, pair, records_of,
};
use omi_layout::Field;
use omi_session::Rc;
use std::test::Fail;

/// What is asked of thread 0.
fn of_threads(r: &Records) -> [Row; 6] {
    let (t, life) = (r.thread, Field::ThreadLife);
    let (cur, native) = (Field::ThreadCurrent, Field::ThreadNative);
    let (stale, hole) = ((t, life, 0, Some(3)), (t, life, 0, None));
    let unmapped = error(t, life);
    let finding = [Inquiry::ThreadWithId];
    [
        pair(stale, (t, native, 0, None), &OF_THREAD, STALE),
        pair(stale, (t, cur, 0, Some(0)), &OF_THREAD, STALE),
        pair(stale, (t, cur, 0, None), &OF_THREAD, STALE),
        pair(hole, (t, native, 0, None), &OF_THREAD, unmapped).and(&finding, unmapped),
        pair(hole, (t, cur, 0, Some(8)), &OF_THREAD, unmapped).and(&finding, unmapped),
        pair(hole, (t, cur, 0, None), &OF_THREAD, unmapped).and(&finding, unmapped),
    ]
}

/// What leads to thread 1.
fn of_other(r: &Records) -> [Row; 4] {
    let (t, u) = (r.thread, r.other);
    let (life, native) = (Field::ThreadLife, Field::ThreadNative);
    let (finding, member) = ([Inquiry::ThreadWithId], [Inquiry::ThreadOfMember]);
    let of_id = [Inquiry::ThreadWithId, Inquiry::IdOfThread];
    let (no_id, lost) = ((u, native, 0, None), error(u, Field::TaskThread));
    let (unnamed, hole) = ((t, native, 0, None), (u, life, 0, None));
    [
        pair((u, life, 0, Some(0)), no_id, &finding, GONE).and(&member, lost),
        pair((u, life, 0, Some(3)), no_id, &finding, GONE).and(&member, lost),
        pair(hole, no_id, &finding, error(u, life)).and(&member, lost),
        pair(unnamed, hole, &of_id, error(t, native)).and(&member, lost),
    ]
}

/// What is asked of the region.
fn of_regions(r: &Records) -> [Row; 7] {
    let (n, life, size) = (r.inner, Field::RegionLife, Field::RegionSize);
    let (around, team) = (Field::RegionEnclosing, Field::RegionTeam);
    let stale = (n, life, 0, Some(3));
    let none = (n, size, 0, Some(0));
    let one = (n, size, 0, Some(1));
    let hole = (n, team, 1, None);
    let lost = error(n, Field::TaskRegion);
    [
        pair(stale, none, &OF_REGION, STALE),
        pair(stale, (n, around, 0, Some(0)), &OF_REGION, STALE),
        pair(
            (n, life, 0, None),
            (n, size, 0, None),
            &OF_REGION,
            error(n, life),
        )
        .and(&TO_REGION, lost),
        pair(none, (n, team, 1, Some(8)), &OF_SIZE, error(n, size)),
        pair((n, size, 0, None), hole, &OF_SIZE, error(n, size)),
        pair(one, (n, team, 1, Some(8)), &OF_MEMBER, BAD),
        pair(one, hole, &OF_MEMBER, BAD),
    ]
}

/// What leads to the task of member 1 and to its thread.
fn of_members(r: &Records) -> [Row; 4] {
    let (n, k, team) = (r.inner, r.worker, Field::RegionTeam);
    let (life, thread) = (Field::TaskLife, Field::TaskThread);
    let lost = error(k, team);
    [
        pair(
            (n, team, 1, Some(8)),
            (k, thread, 0, Some(0)),
            &OF_MEMBER,
            error(8, team),
        ),
        pair(
            (n, team, 1, None),
            (k, life, 0, None),
            &OF_MEMBER,
            error(n, team),
        ),
        pair(
            (k, life, 0, Some(2)),
            (k, thread, 0, Some(0)),
            &OF_MEMBER,
            lost,
        ),
        pair((k, life, 0, None), (k, thread, 0, None), &OF_MEMBER, lost),
    ]
}

/// What is asked of the current task, and what leads to it.
fn of_tasks(r: &Records) -> [Row; 7] {
    let (t, m, life) = (r.thread, r.master, Field::TaskLife);
    let (cur, exit) = (Field::ThreadCurrent, Field::TaskExit);
    let (made, left) = (Field::TaskGenerating, Field::TaskScheduling);
    let stale = (m, life, 0, Some(3));
    let ended = (m, life, 0, Some(2));
    let off = (m, Field::TaskRegion, 0, Some(8));
    let no_task = (t, cur, 0, Some(0));
    let no_frame = (m, exit, 0, None);
    let hole = (m, life, 0, None);
    let unmapped = error(m, life);
    [
        pair(off, ended, &OF_TASK, STALE).and(&TO_TASK, error(m, cur)),
        pair(no_task, ended, &OF_TASK, STALE).and(&TO_TASK, GONE),
        pair(no_task, stale, &OF_TASK, STALE).and(&TO_TASK, GONE),
        pair((m, made, 0, Some(0)), stale, &OF_TASK, STALE),
        pair((m, left, 0, Some(8)), hole, &OF_TASK, unmapped).and(&TO_TASK, error(m, cur)),
        pair(no_frame, stale, &OF_TASK, STALE),
        pair(
            no_frame,
            (m, Field::TaskEnter, 0, None),
            &[Inquiry::Frames],
            error(m, exit),
        ),
    ]
}

/// What is asked of control variables and states.
fn of_words(r: &Records) -> [Row; 5] {
    let (m, t, u) = (r.master, r.thread, r.runtime);
    let (count, element) = (Field::TaskNthreadsLength, Field::TaskNthreads);
    let (debug, state, life) = (Field::RuntimeDebug, Field::ThreadState, Field::ThreadLife);
    let (list, of_state) = ([Inquiry::Nthreads], [Inquiry::State]);
    let off = (u, debug, 0, Some(0));
    let hole = (m, element, 0, None);
    [
        pair(off, (t, life, 0, Some(3)), &OF_THREAD, STALE),
        pair(off, (t, state, 0, None), &of_state, Rc::NeedsStateTracking),
        pair(
            (u, debug, 0, None),
            (t, state, 0, None),
            &of_state,
            error(u, debug),
        ),
        pair((m, count, 0, Some(5)), hole, &list, error(m, count)),
        pair((m, count, 0, Some(2)), hole, &list, error(m, element)),
    ]
}

#[test]
fn the_word_that_is_read_first_decides(rt: HostRuntime) -> Result<(), Fail> {
    let alloc = rt.alloc();
    for family in [0u8, 7] {
        let words = forked(alloc, family)?;
        let r = records_of(&words)?;
        for wrong in [
            first_wrong(alloc, &words, &of_threads(&r)),
            first_wrong(alloc, &words, &of_other(&r)),
            first_wrong(alloc, &words, &of_regions(&r)),
            first_wrong(alloc, &words, &of_members(&r)),
            first_wrong(alloc, &words, &of_tasks(&r)),
            first_wrong(alloc, &words, &of_words(&r)),
        ] {
            assert_eq!(rt; wrong, Ok(None));
        }
    }
    Ok(())
}
