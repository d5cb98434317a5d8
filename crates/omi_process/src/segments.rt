//! The segments of memory: which of them have words, whether two have one word, and what the file has of them.

ghost use Rattle.std.specs.Prelude.{◌≡◌, ◌≤◌, ◌<◌, ◌%◌, ◌^◌, nat_lt, true, All, length, IfOk, OnOk, filter, IfSome, Option};
ghost use Rattle.std.specs.List.{list_any};
ghost use Rattle.omi_word.specs.declared.limits.TheConstants.{MEMORY_END};
ghost use Rattle.omi_elf.specs.Segments.{by_start};
ghost use Rattle.omi_process.specs.Words.{words_from, words_to, is_looked_at, place_of, first_overlap};
ghost use Rattle.omi_process.specs.Reading.{part_in, parts_in, Fits};

use omi_elf::{LOAD_SEGMENT, ProgramHeader, sort_by_start};
use omi_word::{FIRST_ADDRESS, MEMORY_END};
use std::alloc::{AllocError, Global};

/// The address of the first word of a segment.
fn words_from(h: &ProgramHeader) -> u64
    requires { h.now.p_vaddr < MEMORY_END }
    ensures value { result ≡ words_from h.now }
    ensures low { result ≤ MEMORY_END }
    ensures aligned { result % 8 ≡ 0 }
{
    8 * ((h.p_vaddr + 7) / 8)
}

/// Whether the word at an address, if it lies in a segment or behind one, ends within that segment.
fn is_before_end(h: &ProgramHeader, address: u64) -> bool
    requires low { address ≤ MEMORY_END }
    requires aligned { address % 8 ≡ 0 }
    ensures { result ≡ nat_lt address (words_to h.now) }
{
    address + 8 <= h.p_vaddr.saturating_add(h.p_filesz)
}

/// The segment starts at an address of a program and has a word.
fn is_looked_at(h: &ProgramHeader) -> bool
    ensures { result ≡ is_looked_at h.now }
{
    h.p_type == LOAD_SEGMENT
        && FIRST_ADDRESS <= h.p_vaddr
        && h.p_vaddr < MEMORY_END
        && is_before_end(h, words_from(h))
}

/// The segments that are looked at, in order of start.
pub fn looked_at(alloc: Global, headers: &[ProgramHeader]) -> Result<Vec<ProgramHeader>, AllocError>
    ensures segments { IfOk result (λ hs. hs.items ≡ by_start (filter is_looked_at headers.now)) }
    ensures looked { IfOk result (λ hs. All (λ h. is_looked_at h ≡ true) hs.items) }
    ensures few { IfOk result (λ hs. length hs.items ≤ length headers.now) }
{
    let mut kept: Vec<ProgramHeader> = headers
        .iter()
        .copied()
        .filter(|h| is_looked_at(h))
        .collect(alloc)?;
    sort_by_start(&mut kept)?;
    Ok(kept)
}

/// The first segment that has a word of the one before.
pub fn overlapping(segments: &[ProgramHeader]) -> Option<ProgramHeader>
    requires { All (λ h. is_looked_at h ≡ true) segments.now }
    ensures { result ≡ first_overlap segments.now }
{
    let Some((first, others)) = segments.split_first() else {
        return None;
    };
    let mut before = *first;
    for h in others {
        if is_before_end(&before, words_from(h)) {
            return Some(*h);
        }
        before = *h;
    }
    None
}

/// The file of `len` bytes ends in front of the last word of a segment.
fn lacks_words(len: u64, h: &ProgramHeader) -> bool
    requires low { len < 2 ^ 63 }
    requires looked { is_looked_at h.now ≡ true }
    ensures { result ≡ nat_lt len (place_of h.now (words_to h.now)) }
{
    let skipped = words_from(h) - h.p_vaddr;
    let size = skipped + (h.p_filesz - skipped) / 8 * 8;
    len < h.p_offset.saturating_add(size)
}

/// The file of `len` bytes ends in front of the last word of some segment.
pub fn is_cut_off(len: u64, segments: &[ProgramHeader]) -> bool
    requires low { len < 2 ^ 63 }
    requires looked { All (λ h. is_looked_at h ≡ true) segments.now }
    ensures { result ≡ list_any (λ h. nat_lt len (place_of h (words_to h))) segments.now }
{
    for h in segments {
        if lacks_words(len, h) {
            return true;
        }
    }
    false
}

/// The words of a segment that a file of `len` bytes has. None where it has none.
fn part_in(len: u64, h: &ProgramHeader) -> Option<ProgramHeader>
    requires low { len < 2 ^ 63 }
    requires looked { is_looked_at h.now ≡ true }
    ensures part { result ≡ part_in len h.now }
    ensures fits { IfSome result (Fits len) }
{
    let first = words_from(h);
    let skipped = first - h.p_vaddr;
    let place = h.p_offset.saturating_add(skipped);
    if len < 8 || len - 8 < place {
        return None;
    }
    let size = (h.p_filesz - skipped).min(len - place);
    Some(ProgramHeader {
        start_place: h.start_place,
        p_type: h.p_type,
        p_offset: place,
        p_vaddr: first,
        p_filesz: size / 8 * 8,
    })
}

/// What a file of `len` bytes has of segments.
pub fn parts_in(
    alloc: Global,
    len: u64,
    segments: &[ProgramHeader],
) -> Result<Vec<ProgramHeader>, AllocError>
    requires low { len < 2 ^ 63 }
    requires looked { All (λ h. is_looked_at h ≡ true) segments.now }
    ensures parts { IfOk result (λ hs. hs.items ≡ parts_in len segments.now) }
    ensures fit { IfOk result (λ hs. All (Fits len) hs.items) }
    ensures few { IfOk result (λ hs. length hs.items ≤ length segments.now) }
{
    let mut parts = Vec::new(alloc);
    for h in segments {
        if let Some(part) = part_in(len, h) {
            parts.push(part)?;
        }
    }
    Ok(parts)
}
