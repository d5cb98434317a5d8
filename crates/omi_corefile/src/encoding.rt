//! Writing the bytes of a core.

ghost use Rattle.std.specs.Prelude.{◌≡◌, ◌+◌, ◌-◌, ◌≤◌, ◌<◌, ◌++◌, min, length, take, drop, IsTrue, OnOk, IfOk};
ghost use Rattle.omi_corefile.specs.Limits.{rises_from};
ghost use Rattle.omi_corefile.specs.Spelling.{Core, spelling, spelling_of, header, eight_bytes, numbers, words_in, segment_bytes, segments_of, core_bytes, HoldsImage};
ghost use Rattle.omi_corefile.specs.declared.core_image.CoreImage.{CoreImage};
ghost use Rattle.std.specs.List.{flat_map};

use crate::{CoreImage, MOST_CONTEXTS, OutOfMemory, SegList, Segment, core_of, word_bytes};
use omi_word::{FIRST_ADDRESS, Image, Natives};
use std::alloc::Global;

/// Adds eight bytes for each word, in this order.
fn put_words(out: &mut Vec<u8>, order: u8, list: &Natives) -> Result<(), OutOfMemory>
    ensures { OnOk result (out.new.items ≡ out.old.items ++ words_in order list.now) }
{
    for at in 0..list.len() {
        out.extend_from_slice(&word_bytes(order, *list.get(at)))?;
    }
    Ok(())
}

/// Adds eight bytes for each number.
fn put_numbers(out: &mut Vec<u8>, list: &Natives) -> Result<(), OutOfMemory>
    ensures { OnOk result (out.new.items ≡ out.old.items ++ numbers list.now) }
{
    put_words(out, 0, list)
}

/// Adds the bytes of a segment, its words in this order.
fn put_segment(out: &mut Vec<u8>, order: u8, segment: &Segment) -> Result<(), OutOfMemory>
    ensures { OnOk result (out.new.items ≡ out.old.items ++ segment_bytes order segment.now) }
{
    out.extend_from_slice(&segment.start.to_le_bytes())?;
    out.extend_from_slice(&(segment.words.len() as u64).to_le_bytes())?;
    put_words(out, order, &segment.words)?;
    Ok(())
}

/// Adds the bytes of each segment, its words in this order.
fn put_segments(out: &mut Vec<u8>, order: u8, list: &SegList) -> Result<(), OutOfMemory>
    ensures { OnOk result (out.new.items ≡ out.old.items
        ++ flat_map (segment_bytes order) list.now) }
{
    for at in 0..list.len() {
        put_segment(out, order, list.get(at))?;
    }
    Ok(())
}

/// Adds the header of a core with so many contexts and segments.
fn put_header(out: &mut Vec<u8>, order: u8, contexts: u16, segments: u32) -> Result<(), OutOfMemory>
    ensures { OnOk result (out.new.items ≡ out.old.items ++ header order contexts segments) }
{
    out.extend_from_slice(b"OMPDCOR1")?;
    out.push(1)?;
    out.push(order)?;
    out.extend_from_slice(&contexts.to_le_bytes())?;
    out.extend_from_slice(&segments.to_le_bytes())
}

/// Adds the fields before the words of the core of an image that has so many words, at least one: the header in the order 0, the contexts, the first address, and the number of words.
pub fn put_front(out: &mut Vec<u8>, contexts: &Natives, words: usize) -> Result<(), OutOfMemory>
    requires { length contexts.now ≤ MOST_CONTEXTS }
    ensures { OnOk result (out.new.items ≡ out.old.items ++ (header 0 (length contexts.now) 1
        ++ numbers contexts.now ++ eight_bytes FIRST_ADDRESS ++ eight_bytes words)) }
{
    put_header(out, 0, contexts.len() as u16, 1)?;
    put_numbers(out, contexts)?;
    out.extend_from_slice(&FIRST_ADDRESS.to_le_bytes())?;
    out.extend_from_slice(&(words as u64).to_le_bytes())?;
    Ok(())
}

/// Adds eight bytes for each word of an image from this place on, in the order 0, but for no more than so many words. It answers the place behind the last one.
pub fn put_image(
    out: &mut Vec<u8>,
    image: &Image,
    from: usize,
    most: usize,
) -> Result<usize, OutOfMemory>
    requires { from ≤ length image.now }
    ensures { IfOk result (λ end. (end ≡ from + min most (length image.now - from))
        × (out.new.items
        ≡ out.old.items ++ words_in 0 (take (end - from) (drop from image.now)))) }
{
    let end = from + most.min(image.len() - from);
    for at in from..end {
        let word = image.get(FIRST_ADDRESS + 8 * at as u64).unwrap();
        out.extend_from_slice(&word_bytes(0, word))?;
    }
    Ok(end)
}

/// The number of bytes of a core.
fn len_of(c: &CoreImage) -> usize
    ensures { result ≡ length (spelling c.now) }
{
    let mut len = 16 + 8 * c.contexts.len();
    for at in 0..c.segments.len() {
        len += 16 + 8 * c.segments.get(at).words.len();
    }
    len
}

/// The bytes of a core. Room for all of them is taken once.
pub fn encode(alloc: Global, c: &CoreImage) -> Result<Vec<u8>, OutOfMemory>
    ensures { IfOk result (λ bytes. Core bytes.items c.now) }
{
    let mut out = Vec::with_capacity(alloc, len_of(c))?;
    let contexts = c.contexts.len() as u16;
    let segments = c.segments.len() as u32;
    put_header(&mut out, c.order, contexts, segments)?;
    put_numbers(&mut out, &c.contexts)?;
    put_segments(&mut out, c.order, &c.segments)?;
    Ok(out)
}

/// The bytes of the core that holds an image and the native ids of threads as its contexts, in the order 0.
pub fn core_bytes_of(
    alloc: Global,
    image: &Image,
    contexts: &Natives,
) -> Result<Vec<u8>, OutOfMemory>
    requires rising { IsTrue (rises_from 0 contexts.now) }
    requires count { length contexts.now ≤ MOST_CONTEXTS }
    ensures spelled { IfOk result
        (λ bytes. bytes.items ≡ spelling_of 0 contexts.now (segments_of image.now)) }
    ensures value { 0 < length image.now
        → IfOk result (λ bytes. bytes.items ≡ core_bytes contexts.now image.now) }
    ensures core { 0 < length image.now
        → IfOk result (λ bytes. (c : CoreImage) × Core bytes.items c
        × HoldsImage contexts.now image.now c) }
{
    let core = core_of(alloc, image, contexts, 0)?;
    encode(alloc, &core)
}
