//! The rows of the table that judge the kept segments.

ghost use Rattle.std.specs.Prelude.{◌≡◌, ◌≤◌, ◌<◌, ◌%◌, List, length, filter, find, not, nat_lt, All, OnOk, IfOk, IsPermutation};
ghost use Rattle.std.specs.List.{list_all};
ghost use Rattle.omi_elf.specs.Header.{is_kept, segment_end, word_count};
ghost use Rattle.omi_elf.specs.Segments.{by_start as in_order, first_overlap, count_apart};
ghost use Rattle.omi_elf.specs.Table.{fault_of, fault_if, short_if, is_unaligned, words_of_all, lies_within as within};
ghost use Rattle.omi_elf.specs.declared.program_header.ProgramHeader.{ProgramHeader};
ghost use Rattle.omi_elf.specs.Found.{IsReadable, IsBounded};
ghost use Rattle.omi_elf.specs.Outcomes.{Judges};

use crate::fault::{ElfError, ElfFault};
use crate::header::short;
use crate::{MOST_ELF_BYTES, ProgramHeader};
use omi_corefile::{MOST_SEGMENT_WORDS, MOST_SEGMENTS};
use std::alloc::{AllocError, Global};

/// The kept segments, in header order.
pub fn kept(alloc: Global, headers: &[ProgramHeader]) -> Result<Vec<ProgramHeader>, AllocError>
    ensures { IfOk result (λ kept. kept.items ≡ filter is_kept headers.now) }
{
    headers
        .iter()
        .copied()
        .filter(|h| h.is_kept())
        .collect(alloc)
}

/// All bytes of a segment stand in a file of `len` bytes.
fn lies_within(len: u64, h: &ProgramHeader) -> bool
    ensures { result ≡ within len h.now }
{
    h.p_offset <= len && 8 * h.word_count() <= len - h.p_offset
}

/// All bytes of all segments stand in a file of `len` bytes.
fn all_within(len: u64, kept: &[ProgramHeader]) -> bool
    ensures { result ≡ list_all (within len) kept.now }
{
    kept.iter().all(|h| lies_within(len, h))
}

/// The bytes of the kept segments stand in a file of `len` bytes.
pub fn judge_segments(len: u64, kept: &[ProgramHeader]) -> Result<(), ElfError>
    requires kept { (headers : List ProgramHeader) × (kept.now ≡ filter is_kept headers) }
    requires short { len ≤ MOST_ELF_BYTES }
    ensures row { Judges result (short_if len (not (list_all (within len) kept.now))) }
    ensures readable { OnOk result (All (IsReadable len) kept.now) }
    ensures bounded { OnOk result (All IsBounded kept.now) }
{
    if !all_within(len, kept) {
        return Err(short(len));
    }
    Ok(())
}

/// The fault of a segment, at its start address.
fn fault_at(h: ProgramHeader, why: ElfFault) -> ElfError
    ensures { result ≡ ElfError.Fault h.start_place why }
{
    let at = h.start_place;
    ElfError::Fault { at, why }
}

/// Each kept segment starts at a multiple of 8.
pub fn judge_starts(kept: &[ProgramHeader]) -> Result<(), ElfError>
    ensures row { Judges result (fault_of ElfFault.Unaligned (find is_unaligned kept.now)) }
    ensures aligned { OnOk result (All (λ h. h.p_vaddr % 8 ≡ 0) kept.now) }
{
    for h in kept {
        if h.p_vaddr % 8 != 0 {
            let why = ElfFault::Unaligned(h.p_vaddr);
            return Err(fault_at(*h, why));
        }
    }
    Ok(())
}

/// The words of the kept segments, added up, are few enough.
pub fn judge_words(kept: &[ProgramHeader]) -> Result<(), ElfError>
    requires few { length kept.now < 65536 }
    requires bounded { All IsBounded kept.now }
    ensures row { Judges result
        (fault_if (nat_lt MOST_SEGMENT_WORDS (words_of_all kept.now)) 0
        (ElfFault.TooLarge (words_of_all kept.now))) }
    ensures few { OnOk result (All (λ h. word_count h ≤ MOST_SEGMENT_WORDS) kept.now) }
{
    let mut words = 0;
    for h in kept {
        words += h.word_count();
    }
    if MOST_SEGMENT_WORDS < words {
        let why = ElfFault::TooLarge(words);
        return Err(ElfError::Fault { at: 0, why });
    }
    Ok(())
}

/// Puts segments in order of start, and where two starts are equal in header order.
pub fn sort_by_start(kept: &mut Vec<ProgramHeader>) -> Result<(), AllocError>
    ensures ordered { OnOk result (kept.new.items ≡ in_order kept.old.items) }
    ensures same { IsPermutation kept.old.items kept.new.items }
{
    kept.sort_by_key(|h| h.p_vaddr)?;
    Ok(())
}

/// The address behind the last word of a segment.
fn end_of(h: ProgramHeader) -> u64
    requires { IsBounded h }
    ensures { result ≡ segment_end h }
{
    h.p_vaddr + 8 * h.word_count()
}

/// No segment begins below the end of the one before.
pub fn judge_overlap(sorted: &[ProgramHeader]) -> Result<(), ElfError>
    requires { All IsBounded sorted.now }
    ensures { Judges result (fault_of ElfFault.Overlap (first_overlap sorted.now)) }
{
    let Some((first, others)) = sorted.split_first() else {
        return Ok(());
    };
    let mut before = *first;
    for h in others {
        let end = end_of(before);
        if h.p_vaddr < end {
            let why = ElfFault::Overlap(h.p_vaddr);
            return Err(fault_at(*h, why));
        }
        before = *h;
    }
    Ok(())
}

/// The number of segments, those that touch counted as one.
fn count_apart(sorted: &[ProgramHeader]) -> u64
    requires { All IsBounded sorted.now }
    ensures { result ≡ count_apart sorted.now }
{
    let Some((first, others)) = sorted.split_first() else {
        return 0;
    };
    let mut before = *first;
    let mut count = 1;
    for h in others {
        if end_of(before) != h.p_vaddr {
            count += 1;
        }
        before = *h;
    }
    count
}

/// The segments are few enough.
pub fn judge_count(sorted: &[ProgramHeader]) -> Result<(), ElfError>
    requires { All IsBounded sorted.now }
    ensures { Judges result
        (fault_if (nat_lt MOST_SEGMENTS (count_apart sorted.now)) 0
        (ElfFault.TooMany (count_apart sorted.now))) }
{
    let count = count_apart(sorted);
    if u64::from(MOST_SEGMENTS) < count {
        let why = ElfFault::TooMany(count);
        return Err(ElfError::Fault { at: 0, why });
    }
    Ok(())
}
