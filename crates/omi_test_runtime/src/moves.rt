//! Moves of threads, written as lines: what a thread does next, and what is to come of it.

use crate::look::{Place, address};
use crate::orders::until;
use crate::trial::{Trial, Wrong};
use omi_layout::Field;
use omi_rep::Outcome;
use omi_script::number;

/// More steps than a thread makes to come to what it is waited for.
const LONG: u32 = 10_000;

/// What is wrong with a thread that does not wait where it is to wait, or waits where it is to go on.
fn wrong(t: &Trial, i: u8) -> Wrong {
    Wrong::Waits {
        thread: i,
        step: t.core().steps(),
    }
}

/// Steps a thread until it is not ready, and answers the byte address and the word that it found.
fn until_waiting(t: &mut Trial, i: u8) -> Result<(u64, u64), Wrong> {
    for _ in 0..LONG {
        match t.step(i)? {
            Some(Outcome::NotReady { addr, word }) => return Ok((addr, word)),
            Some(Outcome::Quiet | Outcome::Event(_)) => (),
            _ => break,
        }
    }
    Err(Wrong::TooLong)
}

/// Steps a thread up to its next event, whose line has to begin so. It has to be ready at each step.
fn goes_on(t: &mut Trial, i: u8, event: &str) -> Result<(), Wrong> {
    for _ in 0..LONG {
        match t.step(i)? {
            Some(Outcome::Quiet) => (),
            Some(Outcome::Event(e)) if t.begins(i, &e, event)? => return Ok(()),
            _ => break,
        }
    }
    Err(wrong(t, i))
}

/// A field at which a thread may wait, by its name.
fn field_named(name: &str) -> Option<Field> {
    match name {
        "rt.locks" => Some(Field::RuntimeLocks),
        "thread.assign" => Some(Field::ThreadAssign),
        "region.life" => Some(Field::RegionLife),
        "region.arrived" => Some(Field::RegionArrived),
        "region.pending" => Some(Field::RegionPending),
        "region.released" => Some(Field::RegionReleased),
        "region.left" => Some(Field::RegionLeft),
        "task.children" => Some(Field::TaskChildren),
        "task.life" => Some(Field::TaskLife),
        "task.slots" => Some(Field::TaskSlots),
        _ => None,
    }
}

/// A number of at most three digits.
fn small(text: Option<&str>) -> Option<u8> {
    let value = number(text?.as_bytes(), 0, 255)?;
    u8::try_from(value).ok()
}

/// The byte address and the word that `FIELD CREATOR SLOT PLACE WORD` names in the layout of a run: of the record that a thread makes
/// in a slot, a place of a field and what stands there.
fn named(t: &Trial, text: &str) -> Option<(u64, u64)> {
    let mut words = text.split(' ');
    let field = field_named(words.next()?)?;
    let creator = small(words.next())?;
    let slot = small(words.next())?;
    let place = small(words.next())?;
    let word = small(words.next())?;
    let record = Place {
        creator,
        slot: u16::from(slot),
    };
    let at = address(t.look().layout, record, field, place)?;
    Some((at, u64::from(word)))
}

/// Steps a thread until it is not ready, which it has to be at this byte address because of this word.
fn waits(t: &mut Trial, i: u8, at: Option<(u64, u64)>) -> Result<(), Wrong> {
    let found = until_waiting(t, i)?;
    if at == Some(found) {
        return Ok(());
    }
    Err(wrong(t, i))
}

/// Makes the moves of a line's verb.
fn make(t: &mut Trial, i: u8, rest: &str) -> Result<(), Wrong> {
    if let Some(event) = rest.strip_prefix("until ") {
        until(t, i, event)
    } else if let Some(event) = rest.strip_prefix("goes on to ") {
        goes_on(t, i, event)
    } else if let Some(text) = rest.strip_prefix("waits at ") {
        let at = named(t, text);
        waits(t, i, at)
    } else {
        Err(Wrong::NoMove)
    }
}

/// Makes moves, a line each, one after the other: `THREAD until EVENT` steps a thread up to an event whose line begins so;
/// `THREAD goes on to EVENT` steps it up to its next event, where it is ready at each step; `THREAD waits at FIELD CREATOR SLOT PLACE WORD`
/// steps it until it is not ready, at this place of a field of a record because of this word.
pub fn follow(t: &mut Trial, moves: &str) -> Result<(), Wrong> {
    for line in moves.lines() {
        let Some((thread, rest)) = line.split_once(' ') else {
            return Err(Wrong::NoMove);
        };
        let i = small(Some(thread)).ok_or(Wrong::NoMove)?;
        make(t, i, rest)?;
    }
    Ok(())
}
