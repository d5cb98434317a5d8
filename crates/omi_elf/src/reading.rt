//! The program headers of a file.

ghost use Rattle.std.specs.Prelude.{◌≡◌, ◌≤◌, ◌+◌, ◌*◌, ◌<◌, ◌^◌, List, ℕ, length, IfOk, OnOk, IsErrOf};
ghost use Rattle.omi_outside.specs.Outside.{HasCause};
ghost use Rattle.omi_read.specs.Holding.{Holds, IsLength};
ghost use Rattle.omi_elf.specs.Header.{program_header as header_at, headers_from, program_headers};
ghost use Rattle.omi_elf.specs.Found.{IsHeaderOf, IsPieceOf};
ghost use Rattle.omi_elf.specs.Table.{program_headers_row, header_rows};
ghost use Rattle.omi_elf.specs.Outcomes.{ReadJudges};

use crate::fault::ElfReadError;
use crate::header::{Header, header_of, short};
use crate::numbers::{number32, number64};
use crate::{HEADER_BYTES, PROGRAM_HEADER_BYTES, ProgramHeader};
use omi_outside::Files;
use omi_read::{fill, front};
use std::alloc::{AllocError, Global};

/// What the header of a file of `len` bytes, at most `most`, says.
pub fn read_header<F: Files>(
    files: &mut F,
    name: &str,
    len: u64,
    most: u64,
) -> Result<Header, ElfReadError>
    requires len { IsLength (F.told files.old name.now) len }
    ensures rows { (bytes : List ℕ) → Holds (F.told files.old name.now) bytes
        → ReadJudges result (header_rows most bytes (length bytes)) }
    ensures says { (bytes : List ℕ) → Holds (F.told files.old name.now) bytes
        → IfOk result (IsHeaderOf bytes) }
    ensures known { IfOk result (λ h. h.order ≤ 1) }
    ensures small { OnOk result (len ≤ most) }

    // No bytes change. A fault is counted as one of reading.
    ensures same { F.told files.new ≡ F.told files.old }
    ensures cause { HasCause (F.reads files.old) (F.reads files.new)
        (IsErrOf result ElfReadError.Failed) }
    ensures writes { F.writes files.new ≡ F.writes files.old }
{
    let mut piece = [0u8; HEADER_BYTES as usize];
    let count = front(files, name, len, 0, HEADER_BYTES as usize, &mut piece)?;
    let header = header_of(&piece[..count], len, most)?;
    Ok(header)
}

/// The program header at a place. `entry` is what stands there.
fn program_header(order: u8, at: u64, entry: &[u8]) -> ProgramHeader
    requires room { PROGRAM_HEADER_BYTES ≤ length entry.now }
    requires low { at < 2 ^ 63 }
    ensures { (bytes : List ℕ) → IsPieceOf bytes at entry.now → result ≡ header_at order bytes at }
{
    ProgramHeader {
        start_place: at + 16,
        p_type: number32(order, entry, 0),
        p_offset: number64(order, entry, 8),
        p_vaddr: number64(order, entry, 16),
        p_filesz: number64(order, entry, 32),
    }
}

/// The program headers of a table that stands at a place.
fn headers_in(
    alloc: Global,
    order: u8,
    at: u64,
    table: &[u8],
    count: u16,
) -> Result<Vec<ProgramHeader>, AllocError>
    requires room { length table.now ≡ PROGRAM_HEADER_BYTES * count }
    requires low { at + PROGRAM_HEADER_BYTES * count < 2 ^ 63 }
    ensures headers { (bytes : List ℕ) → IsPieceOf bytes at table.now
        → IfOk result (λ headers. headers.items ≡ headers_from order bytes at count) }
    ensures count { IfOk result (λ headers. length headers.items ≡ count) }
{
    let mut headers = Vec::new(alloc);
    for index in 0..count {
        let place = PROGRAM_HEADER_BYTES as usize * index as usize;
        let entry = &table[place..];
        headers.push(program_header(order, at + place as u64, entry))?;
    }
    Ok(headers)
}

/// The program headers of a file of `len` bytes whose header says this. The table is read at once.
pub fn read_headers<F: Files>(
    alloc: Global,
    files: &mut F,
    name: &str,
    len: u64,
    header: Header,
) -> Result<Vec<ProgramHeader>, ElfReadError>
    requires len { IsLength (F.told files.old name.now) len }
    requires low { len < 2 ^ 63 }
    ensures row { (bytes : List ℕ) → Holds (F.told files.old name.now) bytes
        → IsHeaderOf bytes header → ReadJudges result (program_headers_row bytes) }
    ensures headers { (bytes : List ℕ) → Holds (F.told files.old name.now) bytes
        → IsHeaderOf bytes header
        → IfOk result (λ headers. headers.items ≡ program_headers bytes) }
    ensures few { IfOk result (λ headers. length headers.items < 65536) }

    // No bytes change. A fault is counted as one of reading.
    ensures same { F.told files.new ≡ F.told files.old }
    ensures cause { HasCause (F.reads files.old) (F.reads files.new)
        (IsErrOf result ElfReadError.Failed) }
    ensures writes { F.writes files.new ≡ F.writes files.old }
{
    if header.phnum == 0 {
        return Ok(Vec::new(alloc));
    }
    let size = PROGRAM_HEADER_BYTES * u64::from(header.phnum);
    if len < header.phoff || len - header.phoff < size {
        return Err(short(len).into());
    }
    let mut table = vec![in alloc; 0u8; size as usize]?;
    fill(files, name, header.phoff, &mut table)?;
    let headers = headers_in(alloc, header.order, header.phoff, &table, header.phnum)?;
    Ok(headers)
}
