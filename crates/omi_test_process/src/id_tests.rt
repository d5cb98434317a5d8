//! The native ids of cores of processes.

use crate::processes::{read, small};
use omi_fixture_elf::{file, put_note, put_status, small as elf_core};
use omi_process::Listed;
use std::alloc::Global;
use std::test::Fail;

/// Whether the ids of a file are these: those of the note of ours, or those of threads.
fn are_listed(alloc: Global, bytes: &[u8], ours: bool, wanted: &[u64]) -> bool {
    match read(alloc, bytes) {
        Ok(contents) => match &contents.ids {
            Listed::Contexts(ids) => ours && ids.as_slice() == wanted,
            Listed::Threads(ids) => !ours && ids.as_slice() == wanted,
        },
        Err(_) => false,
    }
}

/// In the file's order, in both byte orders.
#[test]
fn threads(rt: HostRuntime) -> Result<(), Fail> {
    for order in 0..2 {
        let bytes = small(rt.alloc(), order)?;
        assert!(rt; are_listed(rt.alloc(), &bytes, false, &[71, 70]));
    }
    Ok(())
}

/// Among notes of other names and types, in two segments, one id twice.
#[test]
fn among_other_notes(rt: HostRuntime) -> Result<(), Fail> {
    let mut body = Vec::new(rt.alloc());
    put_note(&mut body, 0, b"LINUX\0", &[1, 2, 3, 4, 5])?;
    put_status(&mut body, 0, 0x7fff_ffff)?;
    let split = body.len() as u64;
    put_status(&mut body, 0, 1)?;
    put_note(&mut body, 0, b"COREX", &[])?;
    put_status(&mut body, 0, 1)?;
    let rest = (body.len() as u64).saturating_sub(split);
    let headers = [(4, 232, 0, split), (7, 0, 0, 9), (4, 232 + split, 0, rest)];
    let bytes = file(rt.alloc(), 0, &headers, &body)?;
    assert!(rt; are_listed(rt.alloc(), &bytes, false, &[0x7fff_ffff, 1, 1]));
    Ok(())
}

/// Where a note of ours stands, its ids are the contexts, whatever the notes of threads say.
#[test]
fn ours(rt: HostRuntime) -> Result<(), Fail> {
    let bytes = elf_core(rt.alloc())?;
    assert!(rt; are_listed(rt.alloc(), &bytes, true, &[1000, 1001]));
    let mut body = Vec::new(rt.alloc());
    put_status(&mut body, 0, 0)?;
    put_note(&mut body, 0, b"OMPD\0", &[5, 9])?;
    put_status(&mut body, 0, 8)?;
    let size = body.len() as u64;
    let bytes = file(rt.alloc(), 0, &[(4, 120, 0, size)], &body)?;
    assert!(rt; are_listed(rt.alloc(), &bytes, true, &[5, 9]));
    Ok(())
}
