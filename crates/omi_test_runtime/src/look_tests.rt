//! The look at the words of a run sees each word that a state asks for.

use crate::orders::until;
use crate::trial::{Looks, Trial};
use omi_fixture_rows::A_TEAM_OF_TWO;
use omi_word::{Image, Op, OutOfMemory};
use std::alloc::Global;
use std::test::Fail;

/// The words that are looked at behind the fork of a team of two: all 13 of the runtime record, 5 of each thread, 9 of each
/// region and its team, and 19 of each task.
const LOOKED_AT: usize = 13 + 2 * 5 + (9 + 1) + (9 + 2) + 3 * 19;

/// The byte address of a word by its place in the image.
fn address(place: usize) -> u64 {
    (place as u64).wrapping_mul(8).wrapping_add(0x10000)
}

/// Stores a word, where the image has one at the address.
fn store(image: &mut Image, at: u64, new: u64) {
    if image.get(at).is_some() {
        image.apply(Op::Store { at, new });
    }
}

/// An equal image.
fn copy_of(alloc: Global, image: &Image) -> Result<Image, OutOfMemory> {
    let mut copy = Image::zeroed(alloc, image.len())?;
    for place in 0..image.len() {
        let at = address(place);
        store(&mut copy, at, image.get(at).unwrap_or(0));
    }
    Ok(copy)
}

/// How many words of an image that shows the state of a run are seen, each being changed alone.
fn seen(t: &Trial, image: &mut Image) -> usize {
    let mut seen = 0usize;
    for place in 0..image.len() {
        let at = address(place);
        let word = image.get(at).unwrap_or(0);
        store(image, at, word.wrapping_add(1));
        if !t.is_shown_by(image) {
            seen = seen.wrapping_add(1);
        }
        store(image, at, word);
    }
    seen
}

#[test]
fn each_changed_word_is_seen(rt: HostRuntime) -> Result<(), Fail> {
    let alloc = rt.alloc();
    let mut t = Trial::opening(alloc, A_TEAM_OF_TWO, 0, Looks::EachEvent)?;
    until(&mut t, 1, "offer")?;
    until(&mut t, 0, "fork")?;
    let mut copy = copy_of(alloc, t.core().image())?;
    assert!(rt; t.is_shown_by(&copy));
    assert_eq!(rt; seen(&t, &mut copy), LOOKED_AT);
    Ok(())
}
