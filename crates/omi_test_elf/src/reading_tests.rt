//! Files of which pieces are read: what stands in them beside their words, how many reads that takes, and reads that fail.

use omi_elf::{ElfReadError, read_elf};
use omi_fixture_elf::{odd, small};
use omi_outside::{Call, Files, MemFiles, Refused};
use omi_read::{ReadOnly, front};
use std::alloc::Global;
use std::test::Fail;

/// Whether the segments that are read of a file have these starts, or reading fails where none are wanted. The read of this number fails.
fn is_read(alloc: Global, bytes: &[u8], failing: u64, wanted: &[u64]) -> Result<bool, Fail> {
    let mut calls = Vec::new(alloc);
    calls.push((Call::ReadAt, failing))?;
    let mut files = MemFiles::new(alloc, calls);
    files.put("c", bytes)?;
    let mut starts = Vec::new(alloc);
    match read_elf(alloc, &mut files, "c", bytes.len() as u64) {
        Ok(contents) => {
            for segment in &contents.segments {
                starts.push(segment.p_vaddr)?;
            }
            Ok(starts.len() > 0 && starts.as_slice() == wanted)
        }
        Err(error) => Ok(error == ElfReadError::Failed && wanted.is_empty()),
    }
}

/// The header, the program headers, the note and its ids are one read each, and no word is read.
#[test]
fn four_reads(rt: HostRuntime) -> Result<(), Fail> {
    let bytes = small(rt.alloc())?;
    for failing in 1..5 {
        assert!(rt; is_read(rt.alloc(), &bytes, failing, &[])?);
    }
    assert!(rt; is_read(rt.alloc(), &bytes, 5, &[0x10000, 0x10020])?);
    Ok(())
}

/// The segments come in order of start, those that touch too.
#[test]
fn order_of_start(rt: HostRuntime) -> Result<(), Fail> {
    let bytes = odd(rt.alloc())?;
    assert!(rt; is_read(rt.alloc(), &bytes, 0, &[0x10000, 0x10010])?);
    Ok(())
}

/// Four bytes from a place on of a file in memory, or as many as it has, and how many.
fn front_of(bytes: &[u8], name: &str, at: u64) -> Option<(usize, [u8; 4])> {
    let len = bytes.len() as u64;
    if at > len {
        return None;
    }
    let mut file = ReadOnly::over(bytes);
    let mut piece = [0u8; 4];
    match front(&mut file, name, len, at, 4, &mut piece) {
        Ok(count) => Some((count, piece)),
        Err(_) => None,
    }
}

/// Each name holds the bytes, and a front ends where they end.
#[test]
fn bytes_in_memory(rt: HostRuntime) {
    let bytes = b"abcdefg";
    assert_eq!(rt; front_of(bytes, "any", 2), Some((4, *b"cdef")));
    assert_eq!(rt; front_of(bytes, "other", 5), Some((2, *b"fg\0\0")));
    assert_eq!(rt; front_of(bytes, "any", 7), Some((0, [0; 4])));
}

/// A write is refused, and changes nothing.
#[test]
fn writes_to_memory(rt: HostRuntime) {
    let mut file = ReadOnly::over(b"abcdefg");
    assert!(rt; matches!(file.create("any"), Err(Refused::Failed)));
    assert!(rt; matches!(file.append("any", b"h"), Err(Refused::Failed)));
    assert!(rt; matches!(file.size("any"), Ok(Some(7))));
}
