//! Reading a page of a core file.

ghost use Rattle.std.specs.Prelude.{◌≡◌, ◌+◌, ◌*◌, ◌%◌, ◌^◌, ◌<◌, ◌≤◌, ℕ, List, length, slice_get, nat_lt, Some, None, IsTrue, OnOk, IsErr, Option};
ghost use Rattle.omi_page.specs.declared.span.Span.{Span};
ghost use Rattle.std.specs.Option.{is_some};
ghost use Rattle.omi_page.specs.declared.limits.TheConstants.{WORDS_END};
ghost use Rattle.omi_outside.specs.Outside.{HasCause, content_len};
ghost use Rattle.omi_read.specs.Holding.{IsLength, Holds};
ghost use Rattle.omi_page.specs.Spans.{eight_at, is_in, place_of, place_in};
ghost use Rattle.omi_page.specs.Bounds.{AreInOrder, EndWithin};
ghost use Rattle.omi_page.specs.Paging.{IsPage};

use crate::PAGE_BYTES;
use crate::span::{Span, SpanList};
use omi_outside::{Failed, Files};
use omi_read::fill;

/// Whether a word of a segment stands at an address.
fn stands_in(span: &Span, addr: u64) -> bool
    ensures { result ≡ is_in span.now addr }
{
    span.start <= addr && addr < span.start + 8 * span.count
}

/// How many segments start below an address, or there: the first ones. They are searched by halves.
fn started(spans: &SpanList, addr: u64) -> usize
    requires { AreInOrder spans.now }
    ensures few { result ≤ length spans.now }
    ensures before { (k : ℕ) (s : Span) → k < result → slice_get spans.now k ≡ Some s
        → s.start ≤ addr }
    ensures behind { (k : ℕ) (s : Span) → result ≤ k → slice_get spans.now k ≡ Some s
        → addr < s.start }
{
    spans.as_slice().partition_point(|span| span.start <= addr)
}

/// Whether a word stands at an address, which is aligned.
pub fn stands(spans: &SpanList, addr: u64) -> bool
    requires { AreInOrder spans.now }
    ensures stands { result ≡ is_some (place_in spans.now addr) }
    ensures low { IsTrue result → addr < WORDS_END }
{
    let count = started(spans, addr);
    count > 0 && stands_in(spans.get(count - 1), addr)
}

/// Whether a segment ends behind an address.
fn ends_behind(span: &Span, addr: u64) -> bool
    ensures { result ≡ nat_lt addr (span.now.start + 8 * span.now.count) }
{
    addr < span.start + 8 * span.count
}

/// Reads the words of one segment that stand in the page from address `base` on. The other words of the buffer stay.
fn load_part<F: Files>(
    files: &mut F,
    name: &str,
    span: &Span,
    base: u64,
    buffer: &mut [u8],
) -> Result<(), Failed>
    requires length { length buffer.old ≡ PAGE_BYTES }
    requires aligned { base % 8 ≡ 0 }
    requires low { base < WORDS_END }
    requires within { (content : Option (List ℕ)) → F.told files.old name.now ≡ Some content
        → span.now.place + 8 * span.now.count ≤ content_len content }
    ensures length { length buffer.new ≡ length buffer.old }
    ensures here { (bytes : List ℕ) → Holds (F.told files.old name.now) bytes → OnOk result
        ((offset at : ℕ) → offset % 8 ≡ 0 → offset < PAGE_BYTES
        → place_of span.now (base + offset) ≡ Some at
        → eight_at buffer.new offset ≡ eight_at bytes at) }
    ensures others { (offset : ℕ) → offset % 8 ≡ 0 → offset < PAGE_BYTES
        → place_of span.now (base + offset) ≡ None
        → eight_at buffer.new offset ≡ eight_at buffer.old offset }

    // No bytes change. A fault is counted as one of reading.
    ensures same { F.told files.new ≡ F.told files.old }
    ensures cause { HasCause (F.reads files.old) (F.reads files.new) (IsErr result) }
    ensures writes { F.writes files.new ≡ F.writes files.old }
{
    let low = span.start.max(base);
    let high = (span.start + 8 * span.count).min(base + PAGE_BYTES as u64);
    if low >= high {
        return Ok(());
    }
    let from = (low - base) as usize;
    let to = (high - base) as usize;
    fill(
        files,
        name,
        span.place + (low - span.start),
        &mut buffer[from..to],
    )
}

/// Reads a page into a buffer, segment by segment: those that start in front of its end and end behind its start.
pub fn load<F: Files>(
    files: &mut F,
    name: &str,
    len: u64,
    spans: &SpanList,
    page: u64,
    buffer: &mut [u8],
) -> Result<(), Failed>
    requires len { IsLength (F.told files.old name.now) len }
    requires ends { EndWithin len spans.now }
    requires ordered { AreInOrder spans.now }
    requires length { length buffer.old ≡ PAGE_BYTES }
    requires low { PAGE_BYTES * page < WORDS_END }
    ensures length { length buffer.new ≡ length buffer.old }
    ensures page { (bytes : List ℕ) → Holds (F.told files.old name.now) bytes
        → OnOk result (IsPage bytes spans.now page buffer.new) }

    // No bytes change. A fault is counted as one of reading.
    ensures same { F.told files.new ≡ F.told files.old }
    ensures cause { HasCause (F.reads files.old) (F.reads files.new) (IsErr result) }
    ensures writes { F.writes files.new ≡ F.writes files.old }
{
    let base = page * PAGE_BYTES as u64;
    let mut left = started(spans, base + (PAGE_BYTES as u64 - 1));
    while left > 0 && ends_behind(spans.get(left - 1), base) {
        left -= 1;
        load_part(files, name, spans.get(left), base, buffer)?;
    }
    Ok(())
}
