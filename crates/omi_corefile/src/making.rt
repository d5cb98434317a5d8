//! Making a core of the words of an image.

ghost use Rattle.std.specs.Prelude.{◌≡◌, ◌<◌, ◌≤◌, length, IsTrue, IfOk};
ghost use Rattle.omi_corefile.specs.Limits.{rises_from, are_words, are_segments};
ghost use Rattle.omi_corefile.specs.Spelling.{Core, HoldsImage, core_bytes, segments_of};
ghost use Rattle.omi_corefile.specs.declared.core_image.CoreImage.{CoreImage};

use crate::{CoreImage, MOST_CONTEXTS, OutOfMemory, SegList, Segment};
use omi_word::{FIRST_ADDRESS, Image, MOST_WORDS, Natives};
use std::alloc::Global;

/// The words of an image, as a list.
fn words_of(alloc: Global, image: &Image) -> Result<Natives, OutOfMemory>
    ensures value { IfOk result (λ words. words ≡ image.now) }
    ensures fit { IfOk result (λ words. IsTrue (are_words words)) }
    ensures few { length image.now ≤ MOST_WORDS }
{
    let mut words = Natives::new(alloc);
    for at in 0..image.len() {
        let word = image.get(FIRST_ADDRESS + 8 * at as u64).unwrap();
        words.push(word)?;
    }
    Ok(words)
}

/// The same list again.
fn same(alloc: Global, list: &Natives) -> Result<Natives, OutOfMemory>
    ensures value { IfOk result (λ copy. copy ≡ list.now) }
    ensures fit { IfOk result (λ copy. IsTrue (are_words copy)) }
{
    let mut copy = Natives::new(alloc);
    for at in 0..list.len() {
        let number = *list.get(at);
        copy.push(number)?;
    }
    Ok(copy)
}

/// Each word of an image fits in eight bytes, as reading it shows.
fn words_fit(image: &Image)
    ensures fit { IsTrue (are_words image.now) }
    ensures few { length image.now ≤ MOST_WORDS }
{
    for at in 0..image.len() {
        let _word = image.get(FIRST_ADDRESS + 8 * at as u64).unwrap();
    }
}

/// Each number of a list fits in eight bytes, as reading it shows.
fn numbers_fit(list: &Natives)
    ensures { IsTrue (are_words list.now) }
{
    for at in 0..list.len() {
        let _number = *list.get(at);
    }
}

/// The bytes of the core of an image that has a word are those of a core. It reads the words and the contexts, which shows it, and keeps nothing.
pub fn image_makes_a_core(image: &Image, contexts: &Natives)
    requires rising { IsTrue (rises_from 0 contexts.now) }
    requires count { length contexts.now ≤ MOST_CONTEXTS }
    ensures { 0 < length image.now → (c : CoreImage)
        × Core (core_bytes contexts.now image.now) c × HoldsImage contexts.now image.now c }
{
    words_fit(image);
    numbers_fit(contexts);
}

/// The segments of an image.
fn segments(alloc: Global, image: &Image) -> Result<SegList, OutOfMemory>
    ensures value { IfOk result (λ segments. segments ≡ segments_of image.now) }
    ensures limits { IfOk result (λ segments. IsTrue (are_segments segments)) }
{
    let words = words_of(alloc, image)?;
    let mut segments = SegList::new(alloc);
    if words.len() > 0 {
        let start = FIRST_ADDRESS;
        segments.push(Segment { start, words })?;
    }
    Ok(segments)
}

/// The core that holds an image and the native ids of threads as its contexts, in the order 0 or 1. An image without words gives no segment.
pub fn core_of(
    alloc: Global,
    image: &Image,
    contexts: &Natives,
    order: u8,
) -> Result<CoreImage, OutOfMemory>
    requires rising { IsTrue (rises_from 0 contexts.now) }
    requires count { length contexts.now ≤ MOST_CONTEXTS }
    requires known { order ≤ 1 }
    ensures order { IfOk result (λ c. c.order ≡ order) }
    ensures contexts { IfOk result (λ c. c.contexts ≡ contexts.now) }
    ensures segments { IfOk result (λ c. c.segments ≡ segments_of image.now) }
{
    let contexts = same(alloc, contexts)?;
    let segments = segments(alloc, image)?;
    Ok(CoreImage {
        order,
        contexts,
        segments,
    })
}
