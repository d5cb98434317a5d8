//! The contexts of a report: which of the native ids that the core of a process lists are those of threads of OpenMP.

ghost use Rattle.std.specs.Prelude.{◌≡◌, ◌+◌, IfOk, filter, length};
ghost use Rattle.std.specs.List.Sorted.{IsStrictlySortedBy};
ghost use Rattle.std.specs.Ordering.{nat_cmp};
ghost use Rattle.omi_process.specs.Contexts.{has, AreThose, AreContexts};

use crate::Listed;
use omi_word::Natives;
use std::alloc::{AllocError, Global};
use std::collections::BTreeSet;

/// The contexts of a report, which rise, and how many other ids are listed.
#[derive(Drop)]
pub struct ReportContexts {
    pub contexts: Natives,
    pub others: usize,
}

/// Whether an id is among these.
fn is_among(ids: &[u64], id: u64) -> bool
    ensures { result ≡ has ids.now id }
{
    ids.contains(&id)
}

/// The numbers of a set, which rise.
fn in_order(alloc: Global, set: &BTreeSet<u64>) -> Result<Vec<u64>, AllocError>
    ensures all { IfOk result (λ ids. ids.items ≡ set.now.keys) }
    ensures rise { IsStrictlySortedBy nat_cmp set.now.keys }
{
    set.iter().copied().collect(alloc)
}

/// The ids of a list, rising, each once.
fn each_once(alloc: Global, ids: &[u64]) -> Result<Vec<u64>, AllocError>
    ensures { IfOk result (λ once. AreThose (has ids.now) once.items) }
{
    let mut set = BTreeSet::new(alloc);
    for id in ids {
        if set.insert(*id).is_err() {
            return Err(AllocError);
        }
    }
    in_order(alloc, &set)
}

/// Those of some ids that are among others.
fn those_among(alloc: Global, ids: &[u64], others: &[u64]) -> Result<Vec<u64>, AllocError>
    ensures { IfOk result (λ those. those.items ≡ filter (has others.now) ids.now) }
{
    ids.iter()
        .copied()
        .filter(|id| is_among(others, *id))
        .collect(alloc)
}

/// The contexts of a report: the ids of the note of ours, or else those listed ids that are recorded, where the record of a thread that has
/// begun has each of these.
pub fn contexts_among(
    alloc: Global,
    listed: Listed,
    recorded: &[u64],
) -> Result<ReportContexts, AllocError>
    ensures { IfOk result (λ r. AreContexts listed recorded.now r.contexts r.others) }
{
    match listed {
        Listed::Contexts(contexts) => Ok(ReportContexts {
            contexts,
            others: 0,
        }),
        Listed::Threads(ids) => {
            let once = each_once(alloc, ids.as_slice())?;
            let contexts = those_among(alloc, &once, recorded)?;
            let others = once.len() - contexts.len();
            Ok(ReportContexts {
                contexts: Natives::from_vec(contexts),
                others,
            })
        }
    }
}
