//! What is listed of a run of two threads that is stopped at its fork.

ghost use Rattle.std.specs.Prelude.{◌≡◌, if◌then◌else◌};
ghost use Rattle.omi_calls.specs.Kept.{GivesNumbers, TakesAll};

use omi_calls::ToHost;
use omi_fixture_targets::{Stopped, Wrong};
use omi_process::Listed;
use omi_ps::{Form, Listing, listing_of, listing_text};
use omi_walk::WalkFault;
use omi_word::{Natives, OutOfMemory};
use std::alloc::Global;

/// Why nothing is listed.
#[derive(Clone, Copy, Debug, PartialEq, Eq)]
pub enum Missing {
    NoSession(Wrong),
    NoWalk(WalkFault),
    NoMemory,
    /// Something is listed where it was to be refused.
    Unrefused,
}

impl From<OutOfMemory> for Missing {
    fn from(_e: OutOfMemory) -> Missing {
        Missing::NoMemory
    }
}

impl From<WalkFault> for Missing {
    fn from(fault: WalkFault) -> Missing {
        Missing::NoWalk(fault)
    }
}

impl From<Wrong> for Missing {
    fn from(wrong: Wrong) -> Missing {
        Missing::NoSession(wrong)
    }
}

/// The native ids that a core lists: those of a note of ours, or those of all threads.
#[derive(Clone, Copy)]
pub enum Ids<'a> {
    Contexts(&'a [u64]),
    Threads(&'a [u64]),
}

/// A list of ids.
fn natives(alloc: Global, ids: &[u64]) -> Result<Natives, OutOfMemory> {
    let mut list = Natives::new(alloc);
    for id in ids {
        list.push(*id)?;
    }
    Ok(list)
}

/// What is listed by the ids of a note of ours.
fn of_contexts<F: ToHost>(
    alloc: Global,
    s: &mut Stopped<'_, F>,
    contexts: Natives,
) -> Result<Listing, Missing> {
    if contexts.len() > 64 || s.made() > 100_000 {
        return Err(Missing::NoMemory);
    }
    Ok(listing_of(s, alloc, Listed::Contexts(contexts))?)
}

/// What is listed by the ids of all threads.
fn of_threads<F: ToHost>(
    alloc: Global,
    s: &mut Stopped<'_, F>,
    threads: Natives,
) -> Result<Listing, Missing> {
    if s.made() > 100_000 {
        return Err(Missing::NoMemory);
    }
    Ok(listing_of(s, alloc, Listed::Threads(threads))?)
}

/// What is listed by these ids.
pub fn listing<F: ToHost>(
    alloc: Global,
    s: &mut Stopped<'_, F>,
    ids: Ids<'_>,
) -> Result<Listing, Missing> {
    match ids {
        Ids::Contexts(ids) => of_contexts(alloc, s, natives(alloc, ids)?),
        Ids::Threads(ids) => of_threads(alloc, s, natives(alloc, ids)?),
    }
}

/// The text of it in a form, of a file that is cut off or isn't.
pub fn text<F: ToHost>(
    alloc: Global,
    s: &mut Stopped<'_, F>,
    ids: Ids<'_>,
    form: Form,
    cut_off: bool,
) -> Result<Vec<u8>, Missing> {
    let listing = listing(alloc, s, ids)?;
    Ok(listing_text(alloc, form, &listing, cut_off)?)
}
