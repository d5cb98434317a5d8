//! Reading a core from its bytes.

ghost use Rattle.std.specs.Prelude.{◌≡◌, ◌≤◌, ◌<◌, ℕ, length, IfOk, IfErr, Ok, Err};
ghost use Rattle.omi_word.specs.declared.limits.TheConstants.{MEMORY_END};
ghost use Rattle.omi_corefile.specs.Refusals.{words_at, contexts_at, segment_at, segments_at, header_at, reading, CoreRefused};
ghost use Rattle.omi_corefile.specs.Outcomes.{Gives, UnlessMemory, IsFaultOf};
ghost use Rattle.omi_corefile.specs.Spelling.{Core};
ghost use Rattle.omi_corefile.specs.declared.core_image.CoreImage.{CoreImage};
ghost use Rattle.omi_corefile.specs.declared.fault.CoreFault.{CoreFault};

use crate::fault::{CoreError, CoreFault};
use crate::fields::{magic, place, word};
use crate::judging::{context_count, id, order, segment_count, start, version, word_count};
use crate::{CoreImage, MOST_SEGMENT_WORDS, SegList, Segment};
use omi_word::{FIRST_ADDRESS, Natives};
use std::alloc::Global;

/// What a header says: the order, and how many contexts and segments follow.
#[derive(Clone, Copy)]
pub struct Counts {
    pub order: u8,
    pub contexts: u16,
    pub segments: u32,
}

/// The header of a file of `len` bytes.
#[tactic(auto, unfolding(crate::specs::Refusals::header_at))]
pub fn header(len: usize, bytes: &[u8]) -> Result<(Counts, &[u8]), CoreError>
    ensures { Gives
        (λ x. (
          record {
            order = x.0.order;
            contexts = x.0.contexts;
            segments = x.0.segments;
          },
          x.1.now,
        ))
        result (header_at len bytes.now) }
{
    let rest = magic(len, bytes)?;
    let (_, rest) = version(len, rest)?;
    let (order, rest) = order(len, rest)?;
    let (contexts, rest) = context_count(len, rest)?;
    let (segments, rest) = segment_count(len, rest)?;
    let counts = Counts {
        order,
        contexts,
        segments,
    };
    Ok((counts, rest))
}

/// So many words in this order.
fn words(
    alloc: Global,
    len: usize,
    order: u8,
    count: u64,
    bytes: &[u8],
) -> Result<(Natives, &[u8]), CoreError>
    ensures read { Gives (λ x. (x.0, x.1.now)) result (words_at len order count bytes.now) }
    ensures count { IfOk result (λ x. length x.0 ≡ count) }
{
    let mut words = Natives::new(alloc);
    let mut rest = bytes;
    for _ in 0..count {
        let (word, after) = word(len, order, rest)?;
        words.push(word)?;
        rest = after;
    }
    Ok((words, rest))
}

/// So many native ids, each above the one before.
pub fn contexts(
    alloc: Global,
    len: usize,
    count: u16,
    bytes: &[u8],
) -> Result<(Natives, &[u8]), CoreError>
    ensures { Gives (λ x. (x.0, x.1.now)) result (contexts_at len count bytes.now) }
{
    let mut contexts = Natives::new(alloc);
    let mut before = None;
    let mut rest = bytes;
    for _ in 0..count {
        let (id, after) = id(len, before, rest)?;
        contexts.push(id)?;
        before = Some(id);
        rest = after;
    }
    Ok((contexts, rest))
}

/// A segment that starts at `least` or above and has at most `room` words, in this order.
#[tactic(auto, unfolding(crate::specs::Refusals::segment_at))]
fn segment(
    alloc: Global,
    len: usize,
    order: u8,
    least: u64,
    room: u64,
    bytes: &[u8],
) -> Result<(Segment, &[u8]), CoreError>
    ensures read { Gives (λ x. (x.0, x.1.now)) result (segment_at len order (least, room)
        bytes.now) }
    ensures low { IfOk result (λ x. x.0.start < MEMORY_END) }
    ensures few { IfOk result (λ x. length x.0.words ≤ room) }
{
    let (start, rest) = start(len, least, bytes)?;
    let (count, rest) = word_count(len, room, rest)?;
    let (words, rest) = words(alloc, len, order, count, rest)?;
    Ok((Segment { start, words }, rest))
}

/// So many segments, each above the end of the one before.
fn segments(
    alloc: Global,
    len: usize,
    order: u8,
    count: u32,
    bytes: &[u8],
) -> Result<(SegList, &[u8]), CoreError>
    ensures { Gives (λ x. (x.0, x.1.now)) result (segments_at len order count bytes.now) }
{
    let mut segments = SegList::new(alloc);
    let mut least = FIRST_ADDRESS;
    let mut room = MOST_SEGMENT_WORDS;
    let mut rest = bytes;
    for _ in 0..count {
        let (segment, after) = segment(alloc, len, order, least, room, rest)?;
        let words = segment.words.len() as u64;
        least = segment.start + 8 * words + 1;
        room -= words;
        segments.push(segment)?;
        rest = after;
    }
    Ok((segments, rest))
}

/// The order, the contexts and the segments of a file.
#[tactic(auto, unfolding(crate::specs::Refusals::parts_at, crate::specs::Refusals::reading))]
fn parts(alloc: Global, bytes: &[u8]) -> Result<(u8, Natives, SegList), CoreError>
    ensures { Gives (λ x. record { order = x.0; contexts = x.1; segments = x.2 }) result
        (reading bytes.now) }
{
    let len = bytes.len();
    let (counts, rest) = header(len, bytes)?;
    let (contexts, rest) = contexts(alloc, len, counts.contexts, rest)?;
    let (segments, rest) = segments(alloc, len, counts.order, counts.segments, rest)?;
    if !rest.is_empty() {
        let at = place(len, rest);
        let why = CoreFault::Trailing(at);
        return Err(CoreError::Fault { at, why });
    }
    Ok((counts.order, contexts, segments))
}

/// The core that a file spells. It reads the file once, from its front, and takes room for the words that it has read alone.
pub fn decode(alloc: Global, bytes: &[u8]) -> Result<CoreImage, CoreError>
    ensures core { IfOk result (λ c. Core bytes.now c) }
    ensures accepts { (c : CoreImage) → Core bytes.now c → UnlessMemory result (result ≡ Ok c) }

    ensures fault { IfErr result (IsFaultOf bytes.now) }
    ensures refuses { (at : ℕ) (why : CoreFault) → CoreRefused bytes.now at why
        → UnlessMemory result (result ≡ Err (CoreError.Fault at why)) }
{
    let (order, contexts, segments) = parts(alloc, bytes)?;
    Ok(CoreImage {
        order,
        contexts,
        segments,
    })
}
