//! The reads of inquiries: how many each makes, and each of them failing in turn.

ghost use Rattle.std.specs.Prelude.{◌≡◌};
ghost use Rattle.std.specs.Int.{from_le_bytes, w64};
ghost use Rattle.omi_calls.specs.Kept.{GivesNumbers, TakesAll};

use crate::asking::{COUNT, EACH, Inquiry, Three, changed, forked, refusal, refusals, unread};
use crate::rows::{BAD, GONE, STALE, change, records_of};
use omi_ask::{get_thread_handle, get_thread_id, rel_parallel_handle, rel_thread_handle};
use omi_asktask::rel_task_handle;
use omi_calls::ToHost;
use omi_fixture_targets::{Asked, Words, Wrong};
use omi_handle::{RegionHandle, TaskHandle, ThreadHandle};
use omi_layout::Field;
use omi_session::Rc;
use std::alloc::Global;
use std::process::Abort;
use std::test::Fail;

/// How many words each inquiry reads, the handle's life word first.
pub const READS: [u64; COUNT] = [4, 6, 2, 5, 3, 3, 3, 3, 3, 4, 2, 3, 3, 4, 2, 3, 2];

const FAILED: Option<Rc> = Some(Rc::CallbackError);

/// The calls of going on.
pub const GOING_ON: u64 = 57;

/// No change of words.
pub const NONE: [(u64, Option<u64>); 2] = [(0, Some(0)); 2];

fn reads_and_look_ups<F: ToHost + Copy>(
    rt: &impl Abort,
    alloc: Global,
    to_host: F,
) -> Result<(), Fail>
    requires takes { TakesAll (F.takes to_host) }
    requires gives { GivesNumbers (F.gives to_host) 0 }
{
    let words = forked(alloc, 0)?;
    let asked = Asked::never();
    let (mut s, h) = changed(alloc, &words, NONE, 0, &asked, to_host)?;
    assert_eq!(rt; asked.look_ups.get(), 2);
    for at in 0..COUNT {
        asked.reads.set(0);
        assert_eq!(rt; refusal(&mut s.session, EACH[at], h), Ok(None));
        assert_eq!(rt; asked.reads.get(), READS[at], "{at}");
    }
    asked.reads.set(0);
    assert_eq!(rt; unread(&mut s.session, h)[0], None);
    assert_eq!(rt; (asked.reads.get(), asked.look_ups.get()), (0, 2));
    Ok(())
}

/// How an inquiry is refused, and then again, where the call of this number fails.
fn twice<F: ToHost + Copy>(
    alloc: Global,
    words: &Words,
    inquiry: Inquiry,
    failing: u64,
    to_host: F,
) -> Result<[Option<Rc>; 2], Wrong>
    requires takes { TakesAll (F.takes to_host) }
    requires gives { GivesNumbers (F.gives to_host) 0 }
{
    let asked = Asked::never();
    let (mut s, h) = changed(alloc, words, NONE, failing, &asked, to_host)?;
    Ok([
        refusal(&mut s.session, inquiry, h)?,
        refusal(&mut s.session, inquiry, h)?,
    ])
}

/// Each read of an inquiry fails, and the inquiry is made again with the same handle. The read behind its last one is the next inquiry's.
fn each_read_fails_in_turn<F: ToHost + Copy>(
    rt: &impl Abort,
    alloc: Global,
    to_host: F,
) -> Result<(), Fail>
    requires takes { TakesAll (F.takes to_host) }
    requires gives { GivesNumbers (F.gives to_host) 0 }
{
    let words = forked(alloc, 0)?;
    for at in 0..COUNT {
        let past = GOING_ON.wrapping_add(READS[at]).wrapping_add(1);
        for failing in GOING_ON + 1..past {
            let refused = twice(alloc, &words, EACH[at], failing, to_host)?;
            assert_eq!(rt; refused, [FAILED, None]);
        }
        let refused = twice(alloc, &words, EACH[at], past, to_host)?;
        assert_eq!(rt; refused, [None, FAILED]);
    }
    Ok(())
}

/// A read that fails comes before what its word would have said, and behind what earlier words said.
fn a_failed_read_and_another_refusal<F: ToHost + Copy>(
    rt: &impl Abort,
    alloc: Global,
    to_host: F,
) -> Result<(), Fail>
    requires takes { TakesAll (F.takes to_host) }
    requires gives { GivesNumbers (F.gives to_host) 0 }
{
    let words = forked(alloc, 0)?;
    let r = records_of(&words)?;
    let (gone, stale, bad) = (Some(GONE), Some(STALE), Some(BAD));
    let begun = Field::ThreadLife;
    let around = (r.inner, Field::RegionEnclosing, 0, Some(0));
    let idle = (r.other, begun, 0, Some(0));
    let other = (r.thread, begun, 0, Some(3));
    let no_task = (r.thread, Field::ThreadCurrent, 0, Some(0));
    let hole = (r.master, Field::TaskLife, 0, None);
    let one = (r.inner, Field::RegionSize, 0, Some(1));
    let ended = (r.worker, Field::TaskLife, 0, Some(2));
    let not_begun = (r.thread, begun, 0, Some(0));
    let off = (r.runtime, Field::RuntimeDebug, 0, Some(0));
    let untracked = Some(Rc::NeedsStateTracking);
    for (inquiry, word, read, wanted) in [
        (Inquiry::ThreadWithId, not_begun, 1, FAILED),
        (Inquiry::ThreadWithId, idle, 3, FAILED),
        (Inquiry::ThreadWithId, idle, 4, gone),
        (Inquiry::ThreadOfMember, one, 2, FAILED),
        (Inquiry::ThreadOfMember, one, 3, bad),
        (Inquiry::IdOfThread, other, 1, FAILED),
        (Inquiry::IdOfThread, other, 2, stale),
        (Inquiry::Enclosing, around, 3, gone),
        (Inquiry::CurrentTask, other, 1, FAILED),
        (Inquiry::CurrentTask, other, 2, stale),
        (Inquiry::CurrentTask, no_task, 2, FAILED),
        (Inquiry::CurrentTask, no_task, 3, gone),
        (Inquiry::Generating, hole, 1, FAILED),
        (Inquiry::TaskOfMember, one, 2, FAILED),
        (Inquiry::TaskOfMember, one, 3, bad),
        (Inquiry::TaskOfMember, ended, 4, FAILED),
        (Inquiry::State, off, 2, FAILED),
        (Inquiry::State, off, 3, untracked),
        (Inquiry::MemberNumber, no_task, 3, gone),
    ] {
        let asked = Asked::never();
        let changes = [change(&words, word); 2];
        let (mut s, h) = changed(
            alloc,
            &words,
            changes,
            GOING_ON.wrapping_add(read),
            &asked,
            to_host,
        )?;
        assert_eq!(rt; refusal(&mut s.session, inquiry, h), Ok(wanted));
    }
    Ok(())
}

/// Each handle under the type of another kind.
fn turned(h: Three) -> Three {
    Three {
        thread: ThreadHandle {
            key: h.task.key,
            serial: h.task.serial,
        },
        region: RegionHandle {
            key: h.thread.key,
            serial: h.thread.serial,
        },
        task: TaskHandle {
            key: h.region.key,
            serial: h.region.serial,
        },
    }
}

/// A handle of another kind is refused before any word is read, and so is one that was let go, also for ids of another kind. The inquiry
/// without a handle comes last, and its first read is the first of all.
fn handles_that_are_not_held<F: ToHost + Copy>(
    rt: &impl Abort,
    alloc: Global,
    to_host: F,
) -> Result<(), Fail>
    requires takes { TakesAll (F.takes to_host) }
    requires gives { GivesNumbers (F.gives to_host) 0 }
{
    let words = forked(alloc, 0)?;
    let r = records_of(&words)?;
    let stale = change(&words, (r.master, Field::TaskLife, 0, Some(3)));
    let hole = change(&words, (r.inner, Field::RegionLife, 0, None));
    let mut order = EACH;
    order[0] = Inquiry::Tool;
    order[COUNT - 1] = Inquiry::ThreadWithId;
    let mut wanted = [Some(BAD); COUNT];
    wanted[COUNT - 1] = FAILED;
    let asked = Asked::never();
    let (mut s, h) = changed(alloc, &words, [stale, hole], GOING_ON + 1, &asked, to_host)?;
    assert_eq!(rt; unread(&mut s.session, turned(h)), [Some(BAD); 10]);
    assert_eq!(rt; refusals(&mut s.session, order, turned(h)), Ok(wanted));
    let asked = Asked::never();
    let (mut s, h) = changed(alloc, &words, [stale, hole], GOING_ON + 1, &asked, to_host)?;
    assert_eq!(rt; rel_thread_handle(&mut s.session, h.thread), Ok(()));
    assert_eq!(rt; rel_parallel_handle(&mut s.session, h.region), Ok(()));
    assert_eq!(rt; rel_task_handle(&mut s.session, h.task), Ok(()));
    assert_eq!(rt; unread(&mut s.session, h), [Some(BAD); 10]);
    assert_eq!(rt; refusals(&mut s.session, order, h), Ok(wanted));
    Ok(())
}

/// Ids of another kind are refused before any word is read.
fn ids_of_another_kind<F: ToHost + Copy>(
    rt: &impl Abort,
    alloc: Global,
    to_host: F,
) -> Result<(), Fail>
    requires takes { TakesAll (F.takes to_host) }
    requires gives { GivesNumbers (F.gives to_host) 0 }
{
    let words = forked(alloc, 0)?;
    let r = records_of(&words)?;
    let stale = change(&words, (r.thread, Field::ThreadLife, 0, Some(3)));
    let asked = Asked::never();
    let (mut s, h) = changed(alloc, &words, [stale; 2], GOING_ON + 1, &asked, to_host)?;
    s.session.may_make()?;
    assert_eq!(rt;
        get_thread_handle(&mut s.session, 1, 1001),
        Err(Rc::Unsupported)
    );
    assert_eq!(rt;
        get_thread_id(&mut s.session, 1, h.thread),
        Err(Rc::Unsupported)
    );
    assert_eq!(rt;
        get_thread_id(&mut s.session, 0, h.thread),
        Err(Rc::CallbackError)
    );
    assert_eq!(rt;
        get_thread_id(&mut s.session, 0, h.thread),
        Err(Rc::StaleHandle)
    );
    Ok(())
}

/// All of these, by one conversion of the bytes of a word.
fn each_by<F: ToHost + Copy>(rt: &impl Abort, alloc: Global, to_host: F) -> Result<(), Fail>
    requires takes { TakesAll (F.takes to_host) }
    requires gives { GivesNumbers (F.gives to_host) 0 }
{
    reads_and_look_ups(rt, alloc, to_host)?;
    each_read_fails_in_turn(rt, alloc, to_host)?;
    a_failed_read_and_another_refusal(rt, alloc, to_host)?;
    handles_that_are_not_held(rt, alloc, to_host)?;
    ids_of_another_kind(rt, alloc, to_host)?;
    Ok(())
}

#[test]
fn each(rt: HostRuntime) -> Result<(), Fail> {
    each_by(
        &rt,
        rt.alloc(),
        |bytes: [u8; 8]| -> u64
            ensures { result ≡ from_le_bytes w64 bytes }
        { u64::from_le_bytes(bytes) },
    )
}
