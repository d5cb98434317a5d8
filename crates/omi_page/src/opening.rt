//! Reading what stands in a core file beside its words: the header, the contexts, and the bounds of each segment.

ghost use Rattle.std.specs.Prelude.{◌≡◌, ◌+◌, ◌*◌, ◌%◌, ◌≤◌, ◌<◌, List, ℕ, length, drop, IfOk, IsErrOf};
ghost use Rattle.omi_word.specs.declared.limits.TheConstants.{MEMORY_END};
ghost use Rattle.omi_outside.specs.Outside.{HasCause};
ghost use Rattle.omi_corefile.specs.Refusals.{header_at, contexts_at, segment_at, segments_at, reading};
ghost use Rattle.omi_corefile.specs.Outcomes.{Gives as ReadGives};
ghost use Rattle.omi_corefile.specs.declared.limits.TheConstants.{MOST_SEGMENT_WORDS, MOST_SEGMENTS, MOST_CONTEXTS};
ghost use Rattle.omi_page.specs.Outcomes.{Gives};
ghost use Rattle.omi_read.specs.Holding.{IsLength, Holds};
ghost use Rattle.omi_page.specs.Spans.{segment_there, segments_there};
ghost use Rattle.omi_page.specs.Bounds.{bounds_at, AreInOrder, EndWithin};

use crate::PageError;
use crate::contents::Contents;
use crate::limits::{CONTEXT_BYTES, HEADER_BYTES, SPAN_BYTES};
use crate::span::{Span, SpanList};
use omi_corefile::decoding::{Counts, contexts, header};
use omi_corefile::fields::short;
use omi_corefile::judging::{start, word_count};
use omi_corefile::{CoreError, CoreFault, MOST_SEGMENT_WORDS};
use omi_outside::Files;
use omi_read::front;
use omi_word::{FIRST_ADDRESS, Natives};
use std::alloc::Global;

/// The header of a file of `len` bytes.
pub fn read_header<F: Files>(files: &mut F, name: &str, len: u64) -> Result<Counts, PageError>
    requires len { IsLength (F.told files.old name.now) len }
    ensures read { (bytes : List ℕ) → Holds (F.told files.old name.now) bytes → Gives
        (λ x. (
          record {
            order = x.order;
            contexts = x.contexts;
            segments = x.segments;
          },
          drop HEADER_BYTES bytes,
        ))
        result (header_at len bytes) }
    ensures long { IfOk result (λ _. HEADER_BYTES ≤ len) }
    ensures few { IfOk result (λ counts. counts.contexts ≤ MOST_CONTEXTS) }
    ensures segments { IfOk result (λ counts. counts.segments ≤ MOST_SEGMENTS) }
    ensures order { IfOk result (λ counts. counts.order ≤ 1) }

    // No bytes change. A fault is counted as one of reading.
    ensures same { F.told files.new ≡ F.told files.old }
    ensures cause { HasCause (F.reads files.old) (F.reads files.new)
        (IsErrOf result PageError.Failed) }
    ensures writes { F.writes files.new ≡ F.writes files.old }
{
    let mut piece = [0u8; HEADER_BYTES];
    let count = front(files, name, len, 0, HEADER_BYTES, &mut piece)?;
    let (counts, _) = header(count, &piece[..count])?;
    Ok(counts)
}

/// The native ids of a file of `len` bytes that has so many.
pub fn read_contexts<F: Files>(
    alloc: Global,
    files: &mut F,
    name: &str,
    len: u64,
    count: u16,
) -> Result<Natives, PageError>
    requires len { IsLength (F.told files.old name.now) len }
    requires within { HEADER_BYTES ≤ len }
    requires few { count ≤ MOST_CONTEXTS }
    ensures read { (bytes : List ℕ) → Holds (F.told files.old name.now) bytes
        → Gives (λ ids. (ids, drop (HEADER_BYTES + 8 * count) bytes)) result
        (contexts_at len count (drop HEADER_BYTES bytes)) }
    ensures long { IfOk result (λ _. HEADER_BYTES + 8 * count ≤ len) }
    ensures few { IfOk result (λ ids. length ids ≤ MOST_CONTEXTS) }

    // No bytes change. A fault is counted as one of reading.
    ensures same { F.told files.new ≡ F.told files.old }
    ensures cause { HasCause (F.reads files.old) (F.reads files.new)
        (IsErrOf result PageError.Failed) }
    ensures writes { F.writes files.new ≡ F.writes files.old }
{
    let mut piece = [0u8; CONTEXT_BYTES];
    let wanted = 8 * count as usize;
    let read = front(files, name, len, HEADER_BYTES as u64, wanted, &mut piece)?;
    let (ids, _) = contexts(alloc, HEADER_BYTES + read, count, &piece[..read])?;
    Ok(ids)
}

/// The start address and the number of words of a segment, in a file of `len` bytes of which `bytes` are left.
fn bounds(len: usize, least: u64, room: u64, bytes: &[u8]) -> Result<(u64, u64), CoreError>
    ensures read { ReadGives (λ x. (x, drop SPAN_BYTES bytes.now)) result
        (bounds_at len (least, room) bytes.now) }
    ensures long { IfOk result (λ _. SPAN_BYTES ≤ length bytes.now) }
    ensures aligned { IfOk result (λ x. x.0 % 8 ≡ 0) }
    ensures from { IfOk result (λ x. least ≤ x.0) }
    ensures low { IfOk result (λ x. x.0 < MEMORY_END) }
    ensures few { IfOk result (λ x. x.1 ≤ room) }
{
    let (start, rest) = start(len, least, bytes)?;
    let (count, _) = word_count(len, room, rest)?;
    Ok((start, count))
}

/// The segment at place `at` of a file of `len` bytes, which starts at `least` or above and has at most `room` words. Its words are
/// there, and are not read; the order is what they are read by.
pub fn read_span<F: Files>(
    files: &mut F,
    name: &str,
    len: u64,
    order: u8,
    at: u64,
    least: u64,
    room: u64,
) -> Result<Span, PageError>
    requires len { IsLength (F.told files.old name.now) len }
    requires within { at ≤ len }
    requires room { room ≤ MOST_SEGMENT_WORDS }
    ensures read { (bytes : List ℕ) → Holds (F.told files.old name.now) bytes
        → Gives (λ s. (segment_there order bytes s, drop (s.place + 8 * s.count) bytes)) result
        (segment_at len order (least, room) (drop at bytes)) }
    ensures place { IfOk result (λ s. s.place ≡ at + SPAN_BYTES) }
    ensures end { IfOk result (λ s. s.place + 8 * s.count ≤ len) }
    ensures from { IfOk result (λ s. least ≤ s.start) }
    ensures few { IfOk result (λ s. s.count ≤ room) }

    // No bytes change. A fault is counted as one of reading.
    ensures same { F.told files.new ≡ F.told files.old }
    ensures cause { HasCause (F.reads files.old) (F.reads files.new)
        (IsErrOf result PageError.Failed) }
    ensures writes { F.writes files.new ≡ F.writes files.old }
{
    let mut piece = [0u8; SPAN_BYTES];
    let read = front(files, name, len, at, SPAN_BYTES, &mut piece)?;
    let (start, count) = bounds(at as usize + read, least, room, &piece[..read])?;
    let place = at + read as u64;
    if 8 * count > len - place {
        return Err(short(len as usize).into());
    }
    Ok(Span {
        start,
        count,
        place,
    })
}

/// So many segments from place `at` on of a file of `len` bytes, each above the end of the one before, and the place after the last.
pub fn read_spans<F: Files>(
    alloc: Global,
    files: &mut F,
    name: &str,
    len: u64,
    order: u8,
    first: u64,
    count: u32,
) -> Result<(SpanList, u64), PageError>
    requires len { IsLength (F.told files.old name.now) len }
    requires within { first ≤ len }
    ensures read { (bytes : List ℕ) → Holds (F.told files.old name.now) bytes
        → Gives (λ x. (segments_there order bytes x.0, drop x.1 bytes)) result
        (segments_at len order count (drop first bytes)) }
    ensures ends { IfOk result (λ x. EndWithin len x.0) }
    ensures ordered { IfOk result (λ x. AreInOrder x.0) }
    ensures few { IfOk result (λ x. length x.0 ≤ count) }
    ensures end { IfOk result (λ x. x.1 ≤ len) }

    // No bytes change. A fault is counted as one of reading.
    ensures same { F.told files.new ≡ F.told files.old }
    ensures cause { HasCause (F.reads files.old) (F.reads files.new)
        (IsErrOf result PageError.Failed) }
    ensures writes { F.writes files.new ≡ F.writes files.old }
{
    let mut spans = SpanList::new(alloc);
    let mut least = FIRST_ADDRESS;
    let mut room = MOST_SEGMENT_WORDS;
    let mut at = first;
    for _ in 0..count {
        let span = read_span(files, name, len, order, at, least, room)?;
        least = span.start + 8 * span.count + 1;
        room -= span.count;
        at = span.place + 8 * span.count;
        spans.push(span)?;
    }
    Ok((spans, at))
}

/// What stands in a core file of `len` bytes beside its words. No word is read.
pub fn read_core<F: Files>(
    alloc: Global,
    files: &mut F,
    name: &str,
    len: u64,
) -> Result<Contents, PageError>
    requires len { IsLength (F.told files.old name.now) len }
    ensures read { (bytes : List ℕ) → Holds (F.told files.old name.now) bytes → Gives
        (λ x. record {
          order = x.order;
          contexts = x.contexts;
          segments = segments_there x.order bytes x.spans;
        })
        result (reading bytes) }
    ensures len { IfOk result (λ x. IsLength (F.told files.old name.now) x.len) }
    ensures ends { IfOk result (λ x. EndWithin x.len x.spans) }

    // No bytes change. A fault is counted as one of reading.
    ensures same { F.told files.new ≡ F.told files.old }
    ensures cause { HasCause (F.reads files.old) (F.reads files.new)
        (IsErrOf result PageError.Failed) }
    ensures writes { F.writes files.new ≡ F.writes files.old }
{
    let counts = read_header(files, name, len)?;
    let contexts = read_contexts(alloc, files, name, len, counts.contexts)?;
    let first = HEADER_BYTES as u64 + 8 * counts.contexts as u64;
    let (spans, end) = read_spans(
        alloc,
        files,
        name,
        len,
        counts.order,
        first,
        counts.segments,
    )?;
    if end < len {
        let why = CoreFault::Trailing(end);
        return Err(PageError::Fault { at: end, why });
    }
    Ok(Contents {
        len,
        order: counts.order,
        contexts,
        spans,
    })
}
