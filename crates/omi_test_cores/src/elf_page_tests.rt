//! ELF core files that are read page by page: words and symbols, against those of the core in memory, each fault at its turn, reads that
//! fail, and how much of a file is read.

use crate::cores::{SEGMENTS, three_segments_in};
use crate::page_tests::alike;
use crate::sparing::Sparing;
use omi_calls::{Callbacks, Got, MemCalls, Place};
use omi_corefile::decode;
use omi_elf::{ElfFault, decode_elf, encode_elf};
use omi_page::{PageError, Pages};
use std::alloc::Global;
use std::test::Fail;

/// The ELF file of the core of three segments, in this order.
fn elf_of(alloc: Global, order: u8) -> Result<Vec<u8>, Fail> {
    let core = decode(alloc, &three_segments_in(alloc, order)?)?;
    Ok(encode_elf(alloc, &core)?)
}

/// What opening answers of a file that isn't opened.
fn refusal(alloc: Global, bytes: &[u8], failing: &[u64]) -> Result<Option<PageError>, Fail> {
    let mut files = Sparing::with(alloc, bytes, 4096, failing)?;
    match Pages::over(alloc, &mut files, "c") {
        Ok(_) => Ok(None),
        Err(error) => Ok(Some(error)),
    }
}

#[test]
fn the_words_of_an_elf_file(rt: HostRuntime) -> Result<(), Fail> {
    for order in [0, 1] {
        let bytes = elf_of(rt.alloc(), order)?;
        let core = decode_elf(rt.alloc(), &bytes)?;
        let mut calls = MemCalls::over(core, Vec::new(rt.alloc()));
        let mut files = Sparing::with(rt.alloc(), &bytes, 4096, &[])?;
        let mut pages = Pages::over(rt.alloc(), &mut files, "c")?;
        assert!(rt; pages.contexts().as_slice() == [5, 9].as_slice());
        assert_eq!(rt; pages.order(), order);
        for (start, count) in SEGMENTS {
            let from = start.wrapping_sub(16);
            assert!(rt; alike(&mut pages, &mut calls, from, count.wrapping_add(4)));
        }
        assert_eq!(rt; pages.symbol_addr_lookup("omi_layout"), Place::At(0x10158));
        assert_eq!(rt; pages.symbol_addr_lookup("omi_layou"), Place::NoSuch);
    }
    Ok(())
}

/// Opening reads what stands beside the words, and a word its page alone.
#[test]
fn a_page_of_an_elf_file(rt: HostRuntime) -> Result<(), Fail> {
    let bytes = elf_of(rt.alloc(), 0)?;
    let mut files = Sparing::with(rt.alloc(), &bytes, 4096, &[])?;
    let mut pages = Pages::over(rt.alloc(), &mut files, "c")?;
    let mut word = [0u8; 8];
    assert_eq!(rt; pages.read_memory(0x20ff8, &mut word), Got::Bytes);
    assert_eq!(rt; word, [0xe8, 0x2f, 6, 0, 0, 0, 0, 0]);
    drop(pages);
    assert!(rt; files.given < 5000);
    assert!(rt; files.given < bytes.len() as u64);
    Ok(())
}

/// The four bytes, the header, the program headers, the note and its ids are one read each.
#[test]
fn reads_of_an_elf_file(rt: HostRuntime) -> Result<(), Fail> {
    let bytes = elf_of(rt.alloc(), 1)?;
    for failing in 1..6 {
        let error = refusal(rt.alloc(), &bytes, &[failing])?;
        assert_eq!(rt; error, Some(PageError::Failed));
    }
    assert_eq!(rt; refusal(rt.alloc(), &bytes, &[6])?, None);
    Ok(())
}

/// What is changed in a file of each order: the place, and the bytes for order 0 and for order 1; then the fault and its place.
type Row = (usize, [u8; 2], [u8; 2], u64, ElfFault);

#[test]
fn faults_of_an_elf_file(rt: HostRuntime) -> Result<(), Fail> {
    let rows: [Row; 4] = [
        (4, [1, 1], [1, 2], 4, ElfFault::Class(1)),
        (5, [3, 1], [3, 1], 5, ElfFault::Order(3)),
        (16, [2, 0], [0, 2], 16, ElfFault::NotCore(2)),
        (54, [55, 0], [0, 55], 54, ElfFault::HeaderSize(55)),
    ];
    for order in [0, 1] {
        let whole = elf_of(rt.alloc(), order)?;
        for (place, little, big, at, why) in &rows {
            let mut bytes = Vec::from_slice(rt.alloc(), &whole)?;
            let with = if order == 0 { little } else { big };
            assert!(rt; *place <= 54 && bytes.len() >= 56);
            bytes[*place..*place + 2].copy_from_slice(with);
            let error = refusal(rt.alloc(), &bytes, &[])?;
            assert_eq!(rt; error, Some(PageError::Elf { at: *at, why: *why }));
        }
        assert!(rt; whole.len() >= 1);
        let short = whole.len() as u64 - 1;
        let error = refusal(rt.alloc(), &whole[..whole.len() - 1], &[])?;
        let why = ElfFault::Short(short);
        assert_eq!(rt; error, Some(PageError::Elf { at: short, why }));
    }
    Ok(())
}
