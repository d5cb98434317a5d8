//! Handles after an inquiry that was refused: each that is held answers as before, and no handle was made.

ghost use Rattle.std.specs.Prelude.{◌≡◌};
ghost use Rattle.std.specs.Int.{from_le_bytes, w64};
ghost use Rattle.omi_calls.specs.Kept.{GivesNumbers, TakesAll};

use crate::asking::{COUNT, EACH, Inquiry, Three, forked, make_three, refusal, unread};
use crate::reads::{GOING_ON, NONE, READS};
use omi_ask::{
    get_enclosing_parallel_handle, get_thread_id, get_thread_in_parallel, region_id,
    rel_parallel_handle, rel_thread_handle, thread_number,
};
use omi_asktask::{get_task_function, get_task_in_parallel, rel_task_handle, task_id};
use omi_calls::ToHost;
use omi_fixture_targets::{Asked, LITTLE, Opened, Stopped, Words, Wrong, library, open};
use omi_icv::{Scoped, get_icv_from_scope, get_icv_string_from_scope};
use omi_session::Rc;
use std::alloc::Global;
use std::process::Abort;
use std::test::Fail;

/// Handles of member 0 of the team and its region, and of member 1 and the region around that.
#[derive(Clone, Copy)]
struct Held {
    first: Three,
    second: Three,
}

/// The handles, made at the fork of a team of two.
fn make_all<F: ToHost>(s: &mut Stopped<'_, F>) -> Result<Held, Rc> {
    let first = make_three(s)?;
    s.may_make()?;
    let thread = get_thread_in_parallel(s, first.region, 1)?;
    s.may_make()?;
    let region = get_enclosing_parallel_handle(s, first.region)?;
    s.may_make()?;
    let task = get_task_in_parallel(s, first.region, 1)?;
    let second = Three {
        thread,
        region,
        task,
    };
    Ok(Held { first, second })
}

/// What three handles answer: number and native id of the thread, slot and size of the region, slot and function of the task.
type Answers = [u64; 6];

fn answers_of<F: ToHost>(s: &mut Stopped<'_, F>, h: Three) -> Result<Answers, Rc> {
    Ok([
        u64::from(thread_number(s, h.thread)?),
        get_thread_id(s, 0, h.thread)?,
        u64::from(region_id(s, h.region)?.0.slot),
        get_icv_from_scope(s, Scoped::Parallel(h.region), 12)?,
        u64::from(task_id(s, h.task)?.0.slot),
        get_task_function(s, h.task)?,
    ])
}

/// What all handles answer at the fork.
const WANTED: [Answers; 2] = [[0, 1000, 1, 2, 1, 0x40_0000], [1, 1001, 0, 1, 2, 0x40_0000]];

/// Whether each handle that is held answers so.
fn are_as_before<F: ToHost>(s: &mut Stopped<'_, F>, held: Held) -> bool {
    let first = answers_of(s, held.first);
    let second = answers_of(s, held.second);
    first == Ok(WANTED[0]) && second == Ok(WANTED[1])
}

/// How the inquiry for the text of a task's nthreads-var is refused.
fn refusal_of_text<F: ToHost>(s: &mut Stopped<'_, F>, alloc: Global, h: Three) -> Option<Rc> {
    get_icv_string_from_scope(s, alloc, Scoped::Task(h.task), 2).err()
}

/// How the inquiries for the thread and for the task of the member behind the last one are refused.
fn refusals_behind_the_last<F: ToHost>(
    s: &mut Stopped<'_, F>,
    h: Three,
) -> Result<[Option<Rc>; 2], Rc> {
    s.may_make()?;
    let thread = get_thread_in_parallel(s, h.region, 2).err();
    s.may_make()?;
    let task = get_task_in_parallel(s, h.region, 2).err();
    Ok([thread, task])
}

/// A session at the fork of a team of two, with all handles.
fn opened<'a, F: ToHost>(
    alloc: Global,
    words: &Words,
    asked: &'a Asked,
    to_host: F,
) -> Result<(Opened<'a, F>, Held), Wrong>
    requires takes { TakesAll (F.takes to_host) }
    requires gives { GivesNumbers (F.gives to_host) 0 }
{
    let session = open(alloc, words.core(alloc, NONE)?, LITTLE, to_host, asked)?;
    let mut s = Opened { session };
    let held = make_all(&mut s.session)?;
    Ok((s, held))
}

/// Each call with handles that were let go, and the inquiries for the member behind the last one.
fn after_bad_input<F: ToHost + Copy>(rt: &impl Abort, alloc: Global, to_host: F) -> Result<(), Fail>
    requires takes { TakesAll (F.takes to_host) }
    requires gives { GivesNumbers (F.gives to_host) 0 }
{
    let words = forked(alloc, 0)?;
    let asked = Asked::never();
    let (mut s, held) = opened(alloc, &words, &asked, to_host)?;
    let gone = make_three(&mut s.session)?;
    rel_thread_handle(&mut s.session, gone.thread)?;
    rel_parallel_handle(&mut s.session, gone.region)?;
    rel_task_handle(&mut s.session, gone.task)?;
    let made = s.session.made();
    let bad = Some(Rc::BadInput);
    for inquiry in EACH {
        if inquiry != Inquiry::ThreadWithId {
            assert_eq!(rt; refusal(&mut s.session, inquiry, gone), Ok(bad));
            assert!(rt; are_as_before(&mut s.session, held));
            assert_eq!(rt; s.session.made(), made);
        }
    }
    assert_eq!(rt; refusal_of_text(&mut s.session, alloc, gone), bad);
    assert!(rt; are_as_before(&mut s.session, held));
    assert_eq!(rt; unread(&mut s.session, gone), [bad; 10]);
    assert!(rt; are_as_before(&mut s.session, held));
    let behind = refusals_behind_the_last(&mut s.session, held.first);
    assert_eq!(rt; behind, Ok([bad; 2]));
    assert!(rt; are_as_before(&mut s.session, held));
    assert_eq!(rt; s.session.made(), made);
    Ok(())
}

/// How an inquiry is refused, or where there is none the one for a text, in a session with all handles that goes on over callbacks of which the
/// call of this number fails; and whether each handle answers as before then, and none was made.
fn over_failing<F: ToHost + Copy>(
    alloc: Global,
    words: &Words,
    inquiry: Option<Inquiry>,
    failing: u64,
    to_host: F,
) -> Result<(Option<Rc>, bool), Wrong>
    requires takes { TakesAll (F.takes to_host) }
    requires gives { GivesNumbers (F.gives to_host) 0 }
{
    let asked = Asked::never();
    let (s, held) = opened(alloc, words, &asked, to_host)?;
    let core = words.core(alloc, NONE)?;
    let other = library(alloc, core, LITTLE, to_host, &[failing], &asked)?;
    let mut s = s.over(other.finalize())?;
    let made = s.session.made();
    let refused = match inquiry {
        Some(inquiry) => refusal(&mut s.session, inquiry, held.first)?,
        None => refusal_of_text(&mut s.session, alloc, held.first),
    };
    let are = are_as_before(&mut s.session, held);
    Ok((refused, are && s.session.made() == made))
}

/// Each read of an inquiry fails in turn. The read behind them is one of the next inquiry.
fn after_failed_reads_of<F: ToHost + Copy>(
    rt: &impl Abort,
    alloc: Global,
    words: &Words,
    inquiry: Option<Inquiry>,
    reads: u64,
    to_host: F,
) -> Result<(), Fail>
    requires takes { TakesAll (F.takes to_host) }
    requires gives { GivesNumbers (F.gives to_host) 0 }
{
    let past = GOING_ON.wrapping_add(reads).wrapping_add(1);
    for failing in GOING_ON + 1..past {
        let found = over_failing(alloc, words, inquiry, failing, to_host)?;
        assert_eq!(rt; found, (Some(Rc::CallbackError), true));
    }
    let (refused, _) = over_failing(alloc, words, inquiry, past, to_host)?;
    assert_eq!(rt; refused, None);
    Ok(())
}

/// Each read of each inquiry: of the text of a list of one element there are three, the life word, the length and the element.
fn after_failed_reads<F: ToHost + Copy>(
    rt: &impl Abort,
    alloc: Global,
    to_host: F,
) -> Result<(), Fail>
    requires takes { TakesAll (F.takes to_host) }
    requires gives { GivesNumbers (F.gives to_host) 0 }
{
    let words = forked(alloc, 0)?;
    for at in 0..COUNT {
        after_failed_reads_of(rt, alloc, &words, Some(EACH[at]), READS[at], to_host)?;
    }
    after_failed_reads_of(rt, alloc, &words, None, 3, to_host)
}

/// Both, by one conversion of the bytes of a word.
fn after_refusals_by<F: ToHost + Copy>(
    rt: &impl Abort,
    alloc: Global,
    to_host: F,
) -> Result<(), Fail>
    requires takes { TakesAll (F.takes to_host) }
    requires gives { GivesNumbers (F.gives to_host) 0 }
{
    after_bad_input(rt, alloc, to_host)?;
    after_failed_reads(rt, alloc, to_host)
}

#[test]
fn after_refusals(rt: HostRuntime) -> Result<(), Fail> {
    after_refusals_by(
        &rt,
        rt.alloc(),
        |bytes: [u8; 8]| -> u64
            ensures { result ≡ from_le_bytes w64 bytes }
        { u64::from_le_bytes(bytes) },
    )
}
