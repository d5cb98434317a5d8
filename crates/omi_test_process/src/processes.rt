//! Cores of processes written by hand, and what is read of them.

use omi_fixture_elf::{Header, file, put_status, put_words};
use omi_outside::MemFiles;
use omi_process::{ProcessContents, ProcessError, read_process};
use omi_read::ReadOnly;
use std::alloc::{AllocError, Global};

/// What stands in a file.
pub fn read(alloc: Global, bytes: &[u8]) -> Result<ProcessContents, ProcessError> {
    let mut file = ReadOnly::over(bytes);
    read_process(alloc, &mut file, "p", bytes.len() as u64)
}

/// The word at an address of a file of which this was read.
pub fn word_at(bytes: &[u8], contents: &ProcessContents, address: u64) -> Option<u64> {
    for segment in &contents.segments {
        if segment.p_vaddr <= address && address - segment.p_vaddr < segment.p_filesz {
            let at = segment.p_offset.saturating_add(address - segment.p_vaddr) as usize;
            let found = bytes.get(at..at.saturating_add(8))?;
            let mut eight = [0u8; 8];
            if found.len() != 8 {
                return None;
            }
            eight.copy_from_slice(found);
            return Some(if contents.order == 0 {
                u64::from_le_bytes(eight)
            } else {
                u64::from_be_bytes(eight)
            });
        }
    }
    None
}

/// Where the body of `small` stands, and how many bytes that file has.
pub const BODY: u64 = 64 + 56 * 3;

pub const WHOLE: usize = 416;

/// A file with the threads 71 and 70 in its notes, and the words 1 to 4 from 0x10000 on and 5 to 8 from 0x20000 on.
pub fn small(alloc: Global, order: u8) -> Result<Vec<u8>, AllocError> {
    let mut body = Vec::new(alloc);
    put_status(&mut body, order, 71)?;
    put_status(&mut body, order, 70)?;
    put_words(&mut body, order, &[5, 6, 7, 8, 1, 2, 3, 4])?;
    let headers: [Header; 3] = [
        (4, BODY, 0, 120),
        (1, BODY + 120, 0x20000, 32),
        (1, BODY + 152, 0x10000, 32),
    ];
    file(alloc, order, &headers, &body)
}

/// Whether reading fails where the read of this number does.
pub fn fails_at(alloc: Global, bytes: &[u8], number: u64) -> Result<bool, AllocError> {
    let mut calls = Vec::new(alloc);
    calls.push((omi_outside::Call::ReadAt, number))?;
    let mut files = MemFiles::new(alloc, calls);
    files.put("p", bytes)?;
    let read = read_process(alloc, &mut files, "p", bytes.len() as u64);
    Ok(matches!(read, Err(ProcessError::Failed)))
}
