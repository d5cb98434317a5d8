//! The contexts of a report: those of the note of ours, or the listed threads that are recorded.

use omi_process::{Listed, contexts_among};
use omi_word::Natives;
use std::alloc::{AllocError, Global};
use std::test::Fail;

/// A list of ids.
fn natives(alloc: Global, ids: &[u64]) -> Result<Natives, AllocError> {
    let mut list = Natives::new(alloc);
    for id in ids {
        list.push(*id)?;
    }
    Ok(list)
}

/// Whether of these threads just those are contexts, and so many others are counted.
fn are_contexts(
    alloc: Global,
    threads: &[u64],
    recorded: &[u64],
    wanted: (&[u64], usize),
) -> Result<bool, AllocError> {
    let listed = Listed::Threads(natives(alloc, threads)?);
    let found = contexts_among(alloc, listed, recorded)?;
    Ok(found.contexts.as_slice() == wanted.0 && found.others == wanted.1)
}

/// In any order, some of them twice, and with records of ids that aren't listed.
#[test]
fn threads(rt: HostRuntime) -> Result<(), Fail> {
    let ids = [71, 70, 71, 5, 9, 9, 70].as_slice();
    let some = are_contexts(rt.alloc(), ids, &[70, 1000, 9], (&[9, 70], 2))?;
    let none = are_contexts(rt.alloc(), ids, &[], (&[], 4))?;
    let all = are_contexts(rt.alloc(), ids, &[71, 70, 5, 9], (&[5, 9, 70, 71], 0))?;
    let of_none = are_contexts(rt.alloc(), &[], &[70], (&[], 0))?;
    assert_eq!(rt; (some, none, all, of_none), (true, true, true, true));
    Ok(())
}

/// 5,000 of them, of which each comes twice, falling.
#[test]
fn many_threads(rt: HostRuntime) -> Result<(), Fail> {
    let mut ids = Vec::new(rt.alloc());
    for id in 0..2500u64 {
        ids.push(2500 - id)?;
        ids.push(2500 - id)?;
    }
    let is = are_contexts(rt.alloc(), &ids, &[2500, 1, 17], (&[1, 17, 2500], 2497))?;
    assert!(rt; is);
    Ok(())
}

/// Whatever is recorded.
#[test]
fn ours(rt: HostRuntime) -> Result<(), Fail> {
    let listed = Listed::Contexts(natives(rt.alloc(), &[5, 9])?);
    let found = contexts_among(rt.alloc(), listed, &[9, 10])?;
    assert_eq!(rt; found.contexts.as_slice(), [5, 9].as_slice());
    assert_eq!(rt; found.others, 0);
    Ok(())
}
