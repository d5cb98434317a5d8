//! Each fault of an ELF core file at each of its turns, and which of two is told.

use crate::file_tests::is_core;
use omi_elf::{ElfError, ElfFault, decode_elf, encode_elf};
use omi_fixture_elf::{Header, file, patched, put_note, put_words, small};
use std::alloc::{AllocError, Global};
use std::test::Fail;

/// Whether a file is refused with this fault at this place.
pub fn is_refused(alloc: Global, bytes: &[u8], at: u64, why: ElfFault) -> bool {
    match decode_elf(alloc, bytes) {
        Ok(_) => false,
        Err(error) => error == ElfError::Fault { at, why },
    }
}

/// What is changed in the small file: these bytes at this place, and so many bytes of it are left. Then the fault and its place.
type Row = (usize, &'static [u8], usize, u64, ElfFault);

/// Whether each row of a table is refused as it says.
fn are_refused(alloc: Global, rows: &[Row]) -> Result<bool, AllocError> {
    let whole = small(alloc)?;
    let mut refused = true;
    for (place, with, left, at, why) in rows {
        let bytes = patched(alloc, &whole, *place, with, *left)?;
        refused = refused && is_refused(alloc, &bytes, *at, *why);
    }
    Ok(refused)
}

const WHOLE: usize = 292;

/// The most program headers of a file, and the place behind them.
const MOST_HEADERS: u64 = 65_535;

const BEHIND_MOST: u64 = 64 + 56 * MOST_HEADERS;

/// The header's rows, in its order: each field is judged once it is there.
#[test]
fn header_fields(rt: HostRuntime) -> Result<(), Fail> {
    let rows: [Row; 20] = [
        (0, b"\x7e", WHOLE, 0, ElfFault::NotElf),
        (3, b"f", WHOLE, 0, ElfFault::NotElf),
        (0, b"", 0, 0, ElfFault::NotElf),
        (0, b"", 3, 0, ElfFault::NotElf),
        (0, b"", 4, 4, ElfFault::Short(4)),
        (4, b"\x01", 5, 4, ElfFault::Class(1)),
        (4, b"\x01\x03", WHOLE, 4, ElfFault::Class(1)),
        (0, b"", 5, 5, ElfFault::Short(5)),
        (5, b"\x00", 6, 5, ElfFault::Order(0)),
        (5, b"\x03", WHOLE, 5, ElfFault::Order(3)),
        (0, b"", 6, 6, ElfFault::Short(6)),
        (16, b"\x02", 17, 17, ElfFault::Short(17)),
        (16, b"\x02", 18, 16, ElfFault::NotCore(2)),
        (16, b"\x04\x01", WHOLE, 16, ElfFault::NotCore(260)),
        (5, b"\x02", WHOLE, 16, ElfFault::NotCore(1024)),
        (54, b"\x37", 55, 55, ElfFault::Short(55)),
        (54, b"\x37", 56, 54, ElfFault::HeaderSize(55)),
        (0, b"", 56, 56, ElfFault::Short(56)),
        (0, b"", 63, 63, ElfFault::Short(63)),
        (0, b"", 64, 64, ElfFault::Short(64)),
    ];
    assert!(rt; are_refused(rt.alloc(), &rows)?);
    Ok(())
}

/// A file that ends inside what has to be read, and the faults that stand behind it.
#[test]
fn segments(rt: HostRuntime) -> Result<(), Fail> {
    let rows: [Row; 16] = [
        (0, b"", 231, 231, ElfFault::Short(231)),
        (0, b"", 243, 243, ElfFault::Short(243)),
        (0, b"", 267, 267, ElfFault::Short(267)),
        (0, b"", 283, 283, ElfFault::Short(283)),
        (0, b"", 291, 291, ElfFault::Short(291)),
        (136, b"\x01", 291, 291, ElfFault::Short(291)),
        (136, b"\x01", WHOLE, 136, ElfFault::Unaligned(0x10001)),
        (192, b"\x24", WHOLE, 192, ElfFault::Unaligned(0x10024)),
        (192, b"\x08", WHOLE, 192, ElfFault::Overlap(0x10008)),
        (192, b"\x00", WHOLE, 192, ElfFault::Overlap(0x10000)),
        (136, b"\x18", WHOLE, 192, ElfFault::Overlap(0x10020)),
        (240, b"\x02", WHOLE, 0, ElfFault::NoContexts),
        (244, b"o", WHOLE, 0, ElfFault::NoContexts),
        (236, b"\x0c", WHOLE, 252, ElfFault::BadContext(252)),
        (252, b"\xe9\x03", WHOLE, 252, ElfFault::BadContext(252)),
        (252, b"\xea\x03", WHOLE, 252, ElfFault::BadContext(252)),
    ];
    assert!(rt; are_refused(rt.alloc(), &rows)?);
    Ok(())
}

/// A note inside which the file ends, and segments of notes that end before one: the first is short, the others hold none.
#[test]
fn notes_at_the_end(rt: HostRuntime) -> Result<(), Fail> {
    let mut note = Vec::new(rt.alloc());
    put_note(&mut note, 0, b"OMPD\0", &[5])?;
    let rows: [(u64, usize, ElfFault, u64); 6] = [
        (28, 27, ElfFault::Short(147), 147),
        (28, 11, ElfFault::Short(131), 131),
        (12, 11, ElfFault::Short(131), 131),
        (11, 28, ElfFault::NoContexts, 0),
        (27, 28, ElfFault::NoContexts, 0),
        (0, 28, ElfFault::NoContexts, 0),
    ];
    for (size, left, why, at) in rows {
        let bytes = file(rt.alloc(), 0, &[(4, 120, 0, size)], &note)?;
        let cut = patched(rt.alloc(), &bytes, 0, b"", 120 + left)?;
        assert!(rt; is_refused(rt.alloc(), &cut, at, why));
    }
    Ok(())
}

/// 64 segments of one word with gaps, and one more.
#[test]
fn most_segments(rt: HostRuntime) -> Result<(), Fail> {
    let mut note = Vec::new(rt.alloc());
    put_note(&mut note, 0, b"OMPD\0", &[5])?;
    note.extend_from_slice(&[0; 8])?;

    let mut headers: Vec<Header> = Vec::new(rt.alloc());
    headers.push((4, 64 + 56 * 65, 0, 28))?;
    for at in 0..64u64 {
        headers.push((1, 64 + 56 * 65 + 28, 0x10000 + 16 * at, 8))?;
    }
    let most = decode_elf(rt.alloc(), &file(rt.alloc(), 0, &headers, &note)?)?;
    assert_eq!(rt;
        encode_elf(rt.alloc(), &most)?.len(),
        64 + 56 * 65 + 28 + 8 * 64
    );
    let mut more: Vec<Header> = Vec::new(rt.alloc());
    more.push((4, 64 + 56 * 66, 0, 28))?;
    for at in 0..65u64 {
        more.push((1, 64 + 56 * 66 + 28, 0x10000 + 16 * at, 8))?;
    }
    let many = file(rt.alloc(), 0, &more, &note)?;
    assert!(rt; is_refused(rt.alloc(), &many, 0, ElfFault::TooMany(65)));
    Ok(())
}

/// As many program headers as a file can have: of a note, and of segments of one word, the last of which lies first. They touch.
#[test]
fn most_program_headers(rt: HostRuntime) -> Result<(), Fail> {
    let mut body = Vec::new(rt.alloc());
    put_note(&mut body, 0, b"OMPD\0", &[5])?;
    let mut words = Vec::new(rt.alloc());
    let mut headers: Vec<Header> = Vec::new(rt.alloc());
    headers.push((4, BEHIND_MOST, 0, 28))?;
    for at in 0..MOST_HEADERS - 1 {
        headers.push((
            1,
            BEHIND_MOST + 28 + 8 * at,
            0x10000 + 8 * (MOST_HEADERS - 2 - at),
            8,
        ))?;
        put_words(&mut body, 0, &[MOST_HEADERS - 2 - at])?;
        words.push(at)?;
    }
    let core = decode_elf(rt.alloc(), &file(rt.alloc(), 0, &headers, &body)?)?;
    assert!(rt; is_core(&core, 0, &[5], &[(0x10000, words.as_slice())]));
    Ok(())
}

/// The most ids of a note, and one more.
#[test]
fn most_contexts(rt: HostRuntime) -> Result<(), Fail> {
    for count in 63..66u64 {
        let mut ids = Vec::new(rt.alloc());
        for id in 0..count {
            ids.push(id)?;
        }
        let mut note = Vec::new(rt.alloc());
        put_note(&mut note, 0, b"OMPD\0", &ids)?;
        let bytes = file(rt.alloc(), 0, &[(4, 120, 0, 20 + 8 * count)], &note)?;
        if count < 65 {
            let core = decode_elf(rt.alloc(), &bytes)?;
            assert_eq!(rt; encode_elf(rt.alloc(), &core)?.len(), bytes.len());
        } else {
            assert!(rt; is_refused(rt.alloc(), &bytes, 140, ElfFault::BadContext(140)));
        }
    }
    Ok(())
}

/// The most words, once as one segment, and once with one word more.
#[test]
fn most_words(rt: HostRuntime) -> Result<(), Fail> {
    let mut note = Vec::new(rt.alloc());
    put_note(&mut note, 0, b"OMPD\0", &[5])?;
    note.extend_from_slice(&[0; 8])?;
    let whole = [
        (4, 232, 0, 28),
        (1, 268, 0x10000, 8_388_608),
        (1, 260, 0x8, 8),
    ];
    let mut full = file(rt.alloc(), 0, &whole, &note)?;
    full.resize(268 + 8_388_608, 0)?;
    let core = decode_elf(rt.alloc(), &full)?;
    assert_eq!(rt; encode_elf(rt.alloc(), &core)?.len(), 204 + 8_388_608);
    let past = [
        (4, 232, 0, 28),
        (1, 268, 0x10000, 8_388_608),
        (1, 260, 0x10000, 8),
    ];
    let mut over = file(rt.alloc(), 0, &past, &note)?;
    over.resize(268 + 8_388_608, 0)?;
    assert!(rt; is_refused(rt.alloc(), &over, 0, ElfFault::TooLarge(1_048_577)));
    Ok(())
}

/// A file that is an ELF file has at most 16,777,216 bytes; another file is none, however long.
#[test]
fn longest_file(rt: HostRuntime) -> Result<(), Fail> {
    let mut bytes = small(rt.alloc())?;
    bytes.resize(16_777_216, 0)?;
    assert!(rt; decode_elf(rt.alloc(), &bytes).is_ok());
    bytes.push(0)?;
    assert!(rt; is_refused(rt.alloc(), &bytes, 0, ElfFault::TooLarge(16_777_217)));
    if let Some(first) = bytes.get_mut(0) {
        *first = b'x';
    }
    assert!(rt; is_refused(rt.alloc(), &bytes, 0, ElfFault::NotElf));
    Ok(())
}
