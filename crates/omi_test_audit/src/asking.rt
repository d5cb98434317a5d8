//! Audits of the words of a stop, of which some are changed or not mapped.

ghost use Rattle.std.specs.Prelude.{◌≡◌};
ghost use Rattle.std.specs.Int.{from_le_bytes, w64};
ghost use Rattle.omi_calls.specs.Kept.{GivesNumbers, TakesAll};

use crate::overlay::{Overlay, Seen};
use omi_audit::{AuditFault, Verdict, audit};
use omi_calls::{MemCalls, Table, ToHost};
use omi_fixture_targets::{Change, Words, Wrong};
use omi_layout::Field;
use omi_session::{Session, initialize};
use std::alloc::Global;

/// A word at a place of a field of the record at an address, and what stands there instead. None: it isn't mapped.
pub type Word = (u64, Field, u64, Option<u64>);

/// A change of nothing: no word is at this address.
pub const NO_CHANGE: Change = (0, Some(0));

/// Two changes, and the verdict on the words with both.
#[derive(Clone, Copy, Debug)]
pub struct Case {
    pub changes: [Change; 2],
    pub verdict: Verdict,
}

/// What a case is answered that is to be answered otherwise, by its number, with the number of words that were read.
pub type Other = (usize, Result<Verdict, AuditFault>, u64);

/// The change of a word.
pub fn change(words: &Words, word: Word) -> Change {
    let (record, field, place, new) = word;
    (words.at(record, field, place), new)
}

/// The verdict that a clause fails at a word.
fn fails(words: &Words, word: Word, clause: u8) -> Verdict {
    let (record, field, place, _) = word;
    Verdict::No {
        addr: words.at(record, field, place),
        field: field.number(),
        clause,
    }
}

/// The words are fine, with so many records.
pub fn yes(records: u64) -> Case {
    Case {
        changes: [NO_CHANGE; 2],
        verdict: Verdict::Yes { records },
    }
}

/// Two words are changed, and a clause fails at the first of them.
pub fn refused(words: &Words, first: Word, second: Word, clause: u8) -> Case {
    Case {
        changes: [change(words, second), change(words, first)],
        verdict: fails(words, first, clause),
    }
}

/// Two words are changed, and the chain of a field meets the record at an address a second time.
pub fn comes_back(words: &Words, changed: [Word; 2], addr: u64, field: Field, clause: u8) -> Case {
    Case {
        changes: [change(words, changed[0]), change(words, changed[1])],
        verdict: Verdict::No {
            addr,
            field: field.number(),
            clause,
        },
    }
}

/// A session over the words of a stop.
fn open<'a, F: ToHost>(
    alloc: Global,
    words: &Words,
    failing: &[u64],
    seen: &'a Seen,
    to_host: F,
) -> Result<Session<Overlay<'a>, F>, Wrong>
    requires takes { TakesAll (F.takes to_host) }
    requires gives { GivesNumbers (F.gives to_host) 0 }
{
    let core = words.core(alloc, [NO_CHANGE; 2])?;
    let calls = MemCalls::over(core, failing.to_vec(alloc)?);
    let library = match initialize(201811, Table::new(Overlay { calls, seen }, 0, to_host)) {
        Ok(library) => library,
        Err((rc, _)) => return Err(Wrong::Refused(rc)),
    };
    match library.process_initialize(alloc) {
        Ok(session) => Ok(session),
        Err((rc, _)) => Err(Wrong::Refused(rc)),
    }
}

/// The answer of an audit with these changes, and how many words it read.
fn audited<F: ToHost>(
    s: &mut Session<Overlay<'_>, F>,
    alloc: Global,
    seen: &Seen,
    changes: [Change; 2],
) -> (Result<Verdict, AuditFault>, u64) {
    seen.changes.set(changes);
    seen.reads.set(0);
    let answer = audit(s, alloc);
    (answer, seen.reads.get())
}

/// The first of these cases that is answered otherwise.
fn first_other<F: ToHost>(
    alloc: Global,
    words: &Words,
    cases: &[Case],
    to_host: F,
) -> Result<Option<Other>, Wrong>
    requires takes { TakesAll (F.takes to_host) }
    requires gives { GivesNumbers (F.gives to_host) 0 }
{
    let seen = Seen::new();
    let mut s = open(alloc, words, &[], &seen, to_host)?;
    for at in 0..cases.len() {
        let (answer, reads) = audited(&mut s, alloc, &seen, cases[at].changes);
        if answer != Ok(cases[at].verdict) {
            return Ok(Some((at, answer, reads)));
        }
    }
    Ok(None)
}

/// The same, where words have their lowest byte first.
pub fn first_wrong(alloc: Global, words: &Words, cases: &[Case]) -> Result<Option<Other>, Wrong> {
    first_other(
        alloc,
        words,
        cases,
        |bytes: [u8; 8]| -> u64
            ensures { result ≡ from_le_bytes w64 bytes }
        { u64::from_le_bytes(bytes) },
    )
}

/// The answers of two audits of words, of which the first meets a call of the debugger that fails, by its number, and how many words each read.
fn twice<F: ToHost>(
    alloc: Global,
    words: &Words,
    failing: u64,
    to_host: F,
) -> Result<[(Result<Verdict, AuditFault>, u64); 2], Wrong>
    requires takes { TakesAll (F.takes to_host) }
    requires gives { GivesNumbers (F.gives to_host) 0 }
{
    let seen = Seen::new();
    let mut s = open(alloc, words, &[failing], &seen, to_host)?;
    let first = audited(&mut s, alloc, &seen, [NO_CHANGE; 2]);
    let second = audited(&mut s, alloc, &seen, [NO_CHANGE; 2]);
    Ok([first, second])
}

/// The same, where words have their lowest byte first.
pub fn audit_twice(
    alloc: Global,
    words: &Words,
    failing: u64,
) -> Result<[(Result<Verdict, AuditFault>, u64); 2], Wrong> {
    twice(
        alloc,
        words,
        failing,
        |bytes: [u8; 8]| -> u64
            ensures { result ≡ from_le_bytes w64 bytes }
        { u64::from_le_bytes(bytes) },
    )
}
