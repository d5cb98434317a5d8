//! Rows of refusals: changes of a fork's words, and how each inquiry is refused over them.

ghost use Rattle.std.specs.Prelude.{◌≡◌};
ghost use Rattle.std.specs.Int.{from_le_bytes, w64};
ghost use Rattle.omi_calls.specs.Kept.{GivesNumbers, TakesAll};

use crate::asking::{COUNT, EACH, Inquiry, Refusals, changed, refusals, unread};
use omi_calls::ToHost;
use omi_fixture_targets::{Asked, Change, Words, Wrong};
use omi_layout::Field;
use omi_session::Rc;
use std::alloc::Global;

pub const GONE: Rc = Rc::Unavailable;

pub const STALE: Rc = Rc::StaleHandle;

pub const BAD: Rc = Rc::BadInput;

/// The inquiries with a handle of thread 0.
pub const OF_THREAD: [Inquiry; 5] = [
    Inquiry::IdOfThread,
    Inquiry::CurrentRegion,
    Inquiry::CurrentTask,
    Inquiry::State,
    Inquiry::MemberNumber,
];

/// Those with a handle of the region.
pub const OF_REGION: [Inquiry; 4] = [
    Inquiry::ThreadOfMember,
    Inquiry::Enclosing,
    Inquiry::TaskOfMember,
    Inquiry::TeamSize,
];

/// Those with a handle of the task.
pub const OF_TASK: [Inquiry; 7] = [
    Inquiry::RegionOfTask,
    Inquiry::Generating,
    Inquiry::Scheduling,
    Inquiry::Function,
    Inquiry::Frames,
    Inquiry::Nthreads,
    Inquiry::Tool,
];

/// Those that lead to the region.
pub const TO_REGION: [Inquiry; 2] = [Inquiry::CurrentRegion, Inquiry::RegionOfTask];

/// Those that lead to the current task.
pub const TO_TASK: [Inquiry; 3] = [
    Inquiry::CurrentRegion,
    Inquiry::CurrentTask,
    Inquiry::MemberNumber,
];

/// Those that ask for member 1.
pub const OF_MEMBER: [Inquiry; 2] = [Inquiry::ThreadOfMember, Inquiry::TaskOfMember];

/// Those that read the size of the team.
pub const OF_SIZE: [Inquiry; 3] = [
    Inquiry::ThreadOfMember,
    Inquiry::TaskOfMember,
    Inquiry::TeamSize,
];

/// Those that find thread 1.
pub const TO_OTHER: [Inquiry; 2] = [Inquiry::ThreadWithId, Inquiry::ThreadOfMember];

/// The records that the inquiries read, by their addresses.
#[derive(Clone, Copy)]
pub struct Records {
    pub thread: u64,
    pub other: u64,
    pub runtime: u64,
    pub outer: u64,
    pub inner: u64,
    pub initial: u64,
    pub master: u64,
    pub worker: u64,
}

/// A word at a place of a field of the record at an address, and what stands there instead. None: it isn't mapped.
pub type Word = (u64, Field, u64, Option<u64>);

/// Two changes, and how the inquiries are refused over the words with both.
#[derive(Clone, Copy)]
pub struct Row {
    words: [Word; 2],
    refusals: Refusals,
}

/// One change, by which these inquiries are refused.
pub fn alone(word: Word, inquiries: &[Inquiry], refusal: Rc) -> Row {
    pair(word, word, inquiries, refusal)
}

/// Two changes, by which these inquiries are refused.
pub fn pair(first: Word, second: Word, inquiries: &[Inquiry], refusal: Rc) -> Row {
    let row = Row {
        words: [first, second],
        refusals: [None; COUNT],
    };
    row.and(inquiries, refusal)
}

impl Row {
    /// These inquiries are refused besides.
    pub fn and(self, inquiries: &[Inquiry], refusal: Rc) -> Row {
        let mut row = self;
        for at in 0..COUNT {
            if inquiries.contains(&EACH[at]) {
                row.refusals[at] = Some(refusal);
            }
        }
        row
    }
}

/// An Error with this address and the number of this field.
pub fn error(addr: u64, field: Field) -> Rc {
    Rc::Error {
        addr,
        field: field.number(),
    }
}

/// The records of a layout, where it has them.
pub fn records_of(words: &Words) -> Result<Records, Wrong> {
    let layout = &words.layout;
    if layout.threads() < 2 || layout.regions_per_thread() < 2 || layout.tasks_per_thread() < 3 {
        return Err(Wrong::NoProgram);
    }
    Ok(Records {
        thread: layout.thread_at(0),
        other: layout.thread_at(1),
        runtime: layout.runtime_place(),
        outer: layout.region_at(0, 0),
        inner: layout.region_at(0, 1),
        initial: layout.task_at(0, 0),
        master: layout.task_at(0, 1),
        worker: layout.task_at(0, 2),
    })
}

/// The change of a word.
pub fn change(words: &Words, word: Word) -> Change {
    let (record, field, place, new) = word;
    (words.at(record, field, place), new)
}

/// How the calls are refused that read no word: only for ids of another kind, whatever the words are.
const UNREAD: [Option<Rc>; 10] = [
    None,
    None,
    None,
    None,
    None,
    None,
    Some(Rc::Unsupported),
    None,
    None,
    None,
];

/// Whether a row holds.
fn holds<F: ToHost + Copy>(
    alloc: Global,
    words: &Words,
    row: Row,
    to_host: F,
) -> Result<bool, Wrong>
    requires takes { TakesAll (F.takes to_host) }
    requires gives { GivesNumbers (F.gives to_host) 0 }
{
    let changes = [change(words, row.words[0]), change(words, row.words[1])];
    let asked = Asked::never();
    let (mut s, h) = changed(alloc, words, changes, 0, &asked, to_host)?;
    let refused = refusals(&mut s.session, EACH, h)?;
    Ok(refused == row.refusals && unread(&mut s.session, h) == UNREAD)
}

/// The number of the first of these rows that doesn't hold.
pub fn first_wrong(alloc: Global, words: &Words, rows: &[Row]) -> Result<Option<usize>, Wrong> {
    for at in 0..rows.len() {
        if !holds(
            alloc,
            words,
            rows[at],
            |bytes: [u8; 8]| -> u64
                ensures { result ≡ from_le_bytes w64 bytes }
            { u64::from_le_bytes(bytes) },
        )? {
            return Ok(Some(at));
        }
    }
    Ok(None)
}
