//! Reading what stands in the core of a process beside its words.

ghost use Rattle.std.specs.Prelude.{◌≡◌, ◌↔◌, ◌≤◌, ◌<◌, ◌^◌, List, ℕ, length, All, Option, None, IfOk, OnOk, IsErrOf};
ghost use Rattle.omi_outside.specs.Outside.{HasCause};
ghost use Rattle.omi_read.specs.Holding.{Holds, IsLength};
ghost use Rattle.omi_elf.specs.Header.{order_of, program_headers};
ghost use Rattle.omi_elf.specs.Notes.{note_found};
ghost use Rattle.omi_elf.specs.Found.{IsDescribedIfAny, EndsWithinIfAny, place_found};
ghost use Rattle.omi_elf.specs.Segments.{first_overlap};
ghost use Rattle.omi_process.specs.Ids.{listed};
ghost use Rattle.omi_process.specs.Words.{HasWord, is_cut_off as cut_off};
ghost use Rattle.omi_process.specs.Table.{ids as ids_row, first_of, rows, whole_notes, overlap};
ghost use Rattle.omi_process.specs.Reading.{Fits, IsSpelledIn};
ghost use Rattle.omi_process.specs.Outcomes.{Judges};
ghost use Rattle.std.specs.Prelude.{[], ◌∷◌};

use crate::limits::MANY_HEADERS_PLACE;
use crate::segments::{is_cut_off, looked_at, overlapping, parts_in};
use crate::threads::add_threads;
use crate::{Listed, MANY_HEADERS, MOST_BYTES, ProcessError, ProcessFault};
use omi_elf::{ElfFault, Note, ProgramHeader, first_note, ids_of, read_header, read_headers};
use omi_outside::Files;
use omi_word::Natives;
use std::alloc::Global;

/// The native ids that a file lists, in which the search for ours ended at this note.
fn listed<F: Files>(
    alloc: Global,
    files: &mut F,
    name: &str,
    len: u64,
    order: u8,
    headers: &[ProgramHeader],
    note: Option<Note>,
) -> Result<Listed, ProcessError>
    requires len { IsLength (F.told files.old name.now) len }
    requires low { len < 2 ^ 63 }
    requires within { EndsWithinIfAny len note }
    requires order { (bytes : List ℕ) → Holds (F.told files.old name.now) bytes
        → order ≡ order_of bytes }
    requires headers { (bytes : List ℕ) → Holds (F.told files.old name.now) bytes
        → headers.now ≡ program_headers bytes }
    requires note { (bytes : List ℕ) → Holds (F.told files.old name.now) bytes
        → note_found bytes ≡ place_found note }
    requires described { (bytes : List ℕ) → Holds (F.told files.old name.now) bytes
        → IsDescribedIfAny order bytes note }
    ensures row { (bytes : List ℕ) → Holds (F.told files.old name.now) bytes
        → Judges result (ids_row bytes) }
    ensures ids { (bytes : List ℕ) → Holds (F.told files.old name.now) bytes
        → IfOk result (λ ids. ids ≡ listed bytes) }

    // No bytes change. A fault is counted as one of reading.
    ensures same { F.told files.new ≡ F.told files.old }
    ensures cause { HasCause (F.reads files.old) (F.reads files.new)
        (IsErrOf result ProcessError.Failed) }
    ensures writes { F.writes files.new ≡ F.writes files.old }
{
    if let Some(note) = note {
        let ids = ids_of(alloc, files, name, len, order, note)?;
        return Ok(Listed::Contexts(ids));
    }
    let mut ids = Natives::new(alloc);
    add_threads(files, name, len, order, headers, &mut ids)?;
    if ids.len() == 0 {
        return Err(ProcessError::Fault {
            at: 0,
            why: ProcessFault::NoThreads,
        });
    }
    Ok(Listed::Threads(ids))
}

/// What stands in the core of a process beside its words.
#[derive(Drop)]
pub struct ProcessContents {
    /// The order of the file's numbers, and of its words.
    pub order: u8,
    /// The native ids that it lists.
    pub ids: Listed,
    /// The words that the file has, as segments in order of start of whole words.
    pub segments: Vec<ProgramHeader>,
    /// The file ends in front of the last word of some segment.
    pub cut_off: bool,
}

/// What stands beside its words in a file with these program headers.
fn contents<F: Files>(
    alloc: Global,
    files: &mut F,
    name: &str,
    len: u64,
    order: u8,
    headers: &[ProgramHeader],
) -> Result<ProcessContents, ProcessError>
    requires len { IsLength (F.told files.old name.now) len }
    requires low { len < 2 ^ 63 }
    requires known { order ≤ 1 }
    requires order { (bytes : List ℕ) → Holds (F.told files.old name.now) bytes
        → order ≡ order_of bytes }
    requires headers { (bytes : List ℕ) → Holds (F.told files.old name.now) bytes
        → headers.now ≡ program_headers bytes }
    requires few { length headers.now < 65536 }
    ensures rows { (bytes : List ℕ) → Holds (F.told files.old name.now) bytes → Judges result
        (first_of (whole_notes bytes ∷ overlap bytes ∷ ids_row bytes ∷ [])) }
    ensures order { IfOk result (λ x. x.order ≡ order) }
    ensures words { (bytes : List ℕ) → Holds (F.told files.old name.now) bytes
        → IfOk result (λ x. (address word : ℕ)
        → IsSpelledIn bytes x.segments.items address word ↔ HasWord bytes address word) }
    ensures fit { IfOk result (λ x. All (Fits len) x.segments.items) }
    ensures apart { IfOk result (λ x. first_overlap x.segments.items ≡ None) }
    ensures few { IfOk result (λ x. length x.segments.items < 65536) }
    ensures ids { (bytes : List ℕ) → Holds (F.told files.old name.now) bytes
        → IfOk result (λ x. x.ids ≡ listed bytes) }
    ensures end { (bytes : List ℕ) → Holds (F.told files.old name.now) bytes
        → IfOk result (λ x. x.cut_off ≡ cut_off bytes) }

    // No bytes change. A fault is counted as one of reading.
    ensures same { F.told files.new ≡ F.told files.old }
    ensures cause { HasCause (F.reads files.old) (F.reads files.new)
        (IsErrOf result ProcessError.Failed) }
    ensures writes { F.writes files.new ≡ F.writes files.old }
{
    let note = first_note(files, name, len, order, headers)?;
    let whole = looked_at(alloc, headers)?;
    if let Some(h) = overlapping(&whole) {
        return Err(ProcessError::Fault {
            at: h.start_place,
            why: ProcessFault::Elf(ElfFault::Overlap(h.p_vaddr)),
        });
    }
    let ids = listed(alloc, files, name, len, order, headers, note)?;
    let segments = parts_in(alloc, len, &whole)?;
    Ok(ProcessContents {
        order,
        ids,
        segments,
        cut_off: is_cut_off(len, &whole),
    })
}

/// What stands in the core of a process, a file of `len` bytes, beside its words. The header, the program headers and the notes are read,
/// and no word.
pub fn read_process<F: Files>(
    alloc: Global,
    files: &mut F,
    name: &str,
    len: u64,
) -> Result<ProcessContents, ProcessError>
    requires len { IsLength (F.told files.old name.now) len }
    ensures rows { (bytes : List ℕ) → Holds (F.told files.old name.now) bytes
        → Judges result (first_of (rows bytes)) }
    ensures order { (bytes : List ℕ) → Holds (F.told files.old name.now) bytes
        → IfOk result (λ x. x.order ≡ order_of bytes) }
    ensures known { IfOk result (λ x. x.order ≤ 1) }
    ensures words { (bytes : List ℕ) → Holds (F.told files.old name.now) bytes
        → IfOk result (λ x. (address word : ℕ)
        → IsSpelledIn bytes x.segments.items address word ↔ HasWord bytes address word) }
    ensures fit { IfOk result (λ x. All (Fits len) x.segments.items) }
    ensures apart { IfOk result (λ x. first_overlap x.segments.items ≡ None) }
    ensures few { IfOk result (λ x. length x.segments.items < 65536) }
    ensures small { OnOk result (len ≤ MOST_BYTES) }
    ensures ids { (bytes : List ℕ) → Holds (F.told files.old name.now) bytes
        → IfOk result (λ x. x.ids ≡ listed bytes) }
    ensures end { (bytes : List ℕ) → Holds (F.told files.old name.now) bytes
        → IfOk result (λ x. x.cut_off ≡ cut_off bytes) }

    // No bytes change. A fault is counted as one of reading.
    ensures same { F.told files.new ≡ F.told files.old }
    ensures cause { HasCause (F.reads files.old) (F.reads files.new)
        (IsErrOf result ProcessError.Failed) }
    ensures writes { F.writes files.new ≡ F.writes files.old }
{
    let header = read_header(files, name, len, MOST_BYTES)?;
    if header.phnum == MANY_HEADERS {
        return Err(ProcessError::Fault {
            at: MANY_HEADERS_PLACE,
            why: ProcessFault::ManyHeaders,
        });
    }
    let order = header.order;
    let headers = read_headers(alloc, files, name, len, header)?;
    contents(alloc, files, name, len, order, &headers)
}
