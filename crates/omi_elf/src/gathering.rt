//! The native ids and the words of a file that no row of the table refuses.

ghost use Rattle.std.specs.Prelude.{◌≡◌, ◌≤◌, ◌<◌, ◌+◌, ◌*◌, ◌/◌, ◌^◌, ◌++◌, List, ℕ, length, IfOk, IsErrOf, OnOk, Some, All};
ghost use Rattle.omi_outside.specs.Outside.{HasCause};
ghost use Rattle.omi_read.specs.Holding.{Holds, IsLength};
ghost use Rattle.omi_corefile.specs.Limits.{rises_from};
ghost use Rattle.omi_corefile.specs.declared.limits.TheConstants.{MOST_CONTEXTS};
ghost use Rattle.omi_elf.specs.Header.{numbers_from, order_of};
ghost use Rattle.omi_elf.specs.Notes.{ids_of as ids_at, ids_found};
ghost use Rattle.omi_elf.specs.Found.{IsReadable, IsBounded, IsDescribed, IsDescribedIfAny, EndsWithin, EndsWithinIfAny, place_found};
ghost use Rattle.omi_elf.specs.Gathered.{segment_of as segment_at, gathered as all_of};
ghost use Rattle.omi_elf.specs.Table.{judged_note};
ghost use Rattle.omi_elf.specs.Outcomes.{ReadJudges};

use crate::fault::{ElfFault, ElfReadError};
use crate::limits::MOST_ID_BYTES;
use crate::notes::Note;
use crate::numbers::number64;
use crate::{OutOfMemory, ProgramHeader};
use omi_corefile::{SegList, Segment};
use omi_outside::Files;
use omi_read::front;
use omi_word::Natives;
use std::alloc::Global;
use std::mem::replace;

/// Adds so many words, which stand one behind the other from a place of the file on.
fn put_words(
    words: &mut Natives,
    order: u8,
    bytes: &[u8],
    at: usize,
    count: u64,
) -> Result<(), OutOfMemory>
    requires { at + 8 * count ≤ length bytes.now }
    ensures { OnOk result (words.new ≡ words.old ++ numbers_from order bytes.now at count) }
{
    for index in 0..count {
        words.push(number64(order, bytes, at + 8 * index as usize))?;
    }
    Ok(())
}

/// The ids rise strictly.
fn rise(ids: &Natives) -> bool
    ensures { result ≡ rises_from 0 ids.now }
{
    let mut before = None;
    for id in ids.as_slice() {
        let rises = match before {
            None => true,
            Some(other) => other < *id,
        };
        if !rises {
            return false;
        }
        before = Some(*id);
    }
    true
}

/// The native ids of which these are the bytes.
fn ids_in(alloc: Global, order: u8, listed: &[u8]) -> Result<Natives, OutOfMemory>
    ensures { IfOk result (λ ids. ids ≡ numbers_from order listed.now 0 (length listed.now / 8)) }
{
    let mut ids = Natives::new(alloc);
    put_words(&mut ids, order, listed, 0, listed.len() as u64 / 8)?;
    Ok(ids)
}

/// The native ids that the description of a note lists.
pub fn ids_of<F: Files>(
    alloc: Global,
    files: &mut F,
    name: &str,
    len: u64,
    order: u8,
    note: Note,
) -> Result<Natives, ElfReadError>
    requires len { IsLength (F.told files.old name.now) len }
    requires low { len < 2 ^ 63 }
    requires within { EndsWithin len note }
    ensures row { (bytes : List ℕ) → Holds (F.told files.old name.now) bytes
        → order ≡ order_of bytes → IsDescribed order bytes note
        → ReadJudges result (judged_note bytes (Some (Some note.at))) }
    ensures ids { (bytes : List ℕ) → Holds (F.told files.old name.now) bytes
        → IsDescribed order bytes note
        → IfOk result (λ ids. ids ≡ ids_at order bytes note.at) }
    ensures few { IfOk result (λ ids. length ids ≤ MOST_CONTEXTS) }

    // No bytes change. A fault is counted as one of reading.
    ensures same { F.told files.new ≡ F.told files.old }
    ensures cause { HasCause (F.reads files.old) (F.reads files.new)
        (IsErrOf result ElfReadError.Failed) }
    ensures writes { F.writes files.new ≡ F.writes files.old }
{
    let at = note.description;
    let size = note.size as usize;
    let why = ElfFault::BadContext(at);
    if size % 8 != 0 || size > MOST_ID_BYTES {
        return Err(ElfReadError::Fault { at, why });
    }
    let mut piece = [0u8; MOST_ID_BYTES];
    let count = front(files, name, len, at, size, &mut piece)?;
    let ids = ids_in(alloc, order, &piece[..count])?;
    if !rise(&ids) {
        return Err(ElfReadError::Fault { at, why });
    }
    Ok(ids)
}

/// The contexts of a file of `len` bytes in which the search for native ids ended at this note.
pub fn contexts<F: Files>(
    alloc: Global,
    files: &mut F,
    name: &str,
    len: u64,
    order: u8,
    note: Option<Note>,
) -> Result<Natives, ElfReadError>
    requires len { IsLength (F.told files.old name.now) len }
    requires low { len < 2 ^ 63 }
    requires within { EndsWithinIfAny len note }
    ensures row { (bytes : List ℕ) → Holds (F.told files.old name.now) bytes
        → order ≡ order_of bytes → IsDescribedIfAny order bytes note
        → ReadJudges result (judged_note bytes (place_found note)) }
    ensures ids { (bytes : List ℕ) → Holds (F.told files.old name.now) bytes
        → IsDescribedIfAny order bytes note
        → IfOk result (λ ids. ids ≡ ids_found order bytes (place_found note)) }
    ensures few { IfOk result (λ ids. length ids ≤ MOST_CONTEXTS) }

    // No bytes change. A fault is counted as one of reading.
    ensures same { F.told files.new ≡ F.told files.old }
    ensures cause { HasCause (F.reads files.old) (F.reads files.new)
        (IsErrOf result ElfReadError.Failed) }
    ensures writes { F.writes files.new ≡ F.writes files.old }
{
    match note {
        None => {
            let why = ElfFault::NoContexts;
            Err(ElfReadError::Fault { at: 0, why })
        }
        Some(note) => ids_of(alloc, files, name, len, order, note),
    }
}

/// The words of a segment.
fn segment_of(
    alloc: Global,
    order: u8,
    bytes: &[u8],
    h: ProgramHeader,
) -> Result<Segment, OutOfMemory>
    requires { IsReadable (length bytes.now) h }
    ensures { IfOk result (λ s. s ≡ segment_at order bytes.now h) }
{
    let start = h.p_vaddr;
    let mut words = Natives::new(alloc);
    put_words(
        &mut words,
        order,
        bytes,
        h.p_offset as usize,
        h.word_count(),
    )?;
    Ok(Segment { start, words })
}

/// The words of segments in order of start. Those that touch are joined.
pub fn gathered(
    alloc: Global,
    order: u8,
    bytes: &[u8],
    sorted: &[ProgramHeader],
) -> Result<SegList, OutOfMemory>
    requires readable { All (IsReadable (length bytes.now)) sorted.now }
    requires bounded { All IsBounded sorted.now }
    ensures { IfOk result (λ segments. segments ≡ all_of order bytes.now sorted.now) }
{
    let mut segments = SegList::new(alloc);
    let Some((first, others)) = sorted.split_first() else {
        return Ok(segments);
    };
    let mut open = segment_of(alloc, order, bytes, *first)?;
    for h in others {
        if open.start + 8 * open.words.len() as u64 == h.p_vaddr {
            put_words(
                &mut open.words,
                order,
                bytes,
                h.p_offset as usize,
                h.word_count(),
            )?;
        } else {
            let next = segment_of(alloc, order, bytes, *h)?;
            segments.push(replace(&mut open, next))?;
        }
    }
    segments.push(open)?;
    Ok(segments)
}
