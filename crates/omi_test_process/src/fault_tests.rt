//! Each fault of the core of a process at each of its turns, and which of two is told.

use crate::processes::{BODY, WHOLE, fails_at, read, small};
use omi_elf::ElfFault;
use omi_fixture_elf::{file, patched, put_note, put_status};
use omi_process::{ProcessError, ProcessFault};
use std::alloc::Global;
use std::test::Fail;

/// Whether a file is refused with this fault at this place.
fn is_refused(alloc: Global, bytes: &[u8], at: u64, why: ProcessFault) -> bool {
    match read(alloc, bytes) {
        Ok(_) => false,
        Err(error) => error == ProcessError::Fault { at, why },
    }
}

/// What is changed in the small file: these bytes at this place, and so many bytes of it are left. Then the fault and its place.
type Row = (usize, &'static [u8], usize, u64, ProcessFault);

/// Whether each row of a table is refused as it says.
fn are_refused(alloc: Global, rows: &[Row]) -> Result<bool, Fail> {
    let whole = small(alloc, 0)?;
    let mut refused = true;
    for (place, with, left, at, why) in rows {
        let bytes = patched(alloc, &whole, *place, with, *left)?;
        refused = refused && is_refused(alloc, &bytes, *at, *why);
    }
    Ok(refused)
}

/// The header's rows are those of an ELF core, and one more.
#[test]
fn header(rt: HostRuntime) -> Result<(), Fail> {
    let rows: [Row; 10] = [
        (0, b"\x7e", WHOLE, 0, ProcessFault::Elf(ElfFault::NotElf)),
        (4, b"\x01", WHOLE, 4, ProcessFault::Elf(ElfFault::Class(1))),
        (5, b"\x03", WHOLE, 5, ProcessFault::Elf(ElfFault::Order(3))),
        (
            16,
            b"\x02",
            WHOLE,
            16,
            ProcessFault::Elf(ElfFault::NotCore(2)),
        ),
        (
            54,
            b"\x37\x00\xff\xff",
            WHOLE,
            54,
            ProcessFault::Elf(ElfFault::HeaderSize(55)),
        ),
        (0, b"", 63, 63, ProcessFault::Elf(ElfFault::Short(63))),
        (
            56,
            b"\xff\xff",
            63,
            63,
            ProcessFault::Elf(ElfFault::Short(63)),
        ),
        (56, b"\xff\xff", WHOLE, 56, ProcessFault::ManyHeaders),
        (
            56,
            b"\xfe\xff",
            WHOLE,
            416,
            ProcessFault::Elf(ElfFault::Short(416)),
        ),
        (0, b"", 231, 231, ProcessFault::Elf(ElfFault::Short(231))),
    ];
    assert!(rt; are_refused(rt.alloc(), &rows)?);
    Ok(())
}

/// A file that ends inside a note, two segments of one word, and notes of threads that tell none.
#[test]
fn notes_and_segments(rt: HostRuntime) -> Result<(), Fail> {
    let first = BODY + 20;
    let second = BODY + 80;
    let rows: [Row; 8] = [
        // inside the first note, and inside the second one, where two segments overlap too
        (0, b"", 240, 240, ProcessFault::Elf(ElfFault::Short(240))),
        (
            136,
            b"\x18\x00\x01",
            300,
            300,
            ProcessFault::Elf(ElfFault::Short(300)),
        ),
        (
            136,
            b"\x18\x00\x01",
            WHOLE,
            136,
            ProcessFault::Elf(ElfFault::Overlap(0x10018)),
        ),
        // an id of 0, one below it, a description of 32 bytes
        (284, b"\x00", WHOLE, first, ProcessFault::BadThread(first)),
        (
            284,
            b"\x00\x00\x00\x80",
            WHOLE,
            first,
            ProcessFault::BadThread(first),
        ),
        (344, b"\x00", WHOLE, second, ProcessFault::BadThread(second)),
        (236, b"\x20", WHOLE, first, ProcessFault::BadThread(first)),
        // no segment of notes
        (64, b"\x05", WHOLE, 0, ProcessFault::NoThreads),
    ];
    assert!(rt; are_refused(rt.alloc(), &rows)?);
    Ok(())
}

/// The note of ours is judged where it stands, and those of threads aren't.
#[test]
fn ours(rt: HostRuntime) -> Result<(), Fail> {
    let mut body = Vec::new(rt.alloc());
    put_status(&mut body, 0, 0)?;
    put_note(&mut body, 0, b"OMPD\0", &[9, 5])?;
    let size = body.len() as u64;
    let bytes = file(rt.alloc(), 0, &[(4, 120, 0, size)], &body)?;
    let why = ProcessFault::Elf(ElfFault::BadContext(200));
    assert!(rt; is_refused(rt.alloc(), &bytes, 200, why));
    Ok(())
}

/// A read that fails is told as one. There are eight: the header, the program headers, the beginnings of two notes, and of both again with
/// an id each.
#[test]
fn failing_reads(rt: HostRuntime) -> Result<(), Fail> {
    let bytes = small(rt.alloc(), 0)?;
    for number in 1..9 {
        assert!(rt; fails_at(rt.alloc(), &bytes, number)?);
    }
    assert!(rt; !fails_at(rt.alloc(), &bytes, 9)?);
    Ok(())
}
