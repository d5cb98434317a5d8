//! Words and symbols, against those of the core in memory, and how much of the file is read.

ghost use Rattle.std.specs.Prelude.{◌≡◌, ◌≤◌, ◌⊎◌, Ok, Err};
ghost use Rattle.omi_outside.specs.Outside.{HasCause};

use crate::cores::{SEGMENTS, three_segments, three_segments_in};
use crate::sparing::Sparing;
use omi_calls::{Callbacks, Got, MemCalls, Place};
use omi_corefile::decode;
use omi_outside::{Call, Files, MemFiles};
use omi_page::{PageError, Pages, open};
use std::alloc::{AllocError, Global};
use std::test::Fail;

/// Whether two targets answer the same of each eighth address from one to another, and of one that is unaligned.
pub fn alike<A: Callbacks, B: Callbacks>(a: &mut A, b: &mut B, from: u64, count: u64) -> bool {
    let mut same = true;
    for k in 0..count {
        let addr = from.wrapping_add(k.wrapping_mul(8));
        let mut first = [0u8; 8];
        let mut second = [0u8; 8];
        let one = a.read_memory(addr, &mut first);
        let other = b.read_memory(addr, &mut second);
        same = same && one == other && first == second;
    }
    let mut left = [0u8; 8];
    let unaligned = a.read_memory(from.wrapping_add(12), &mut left);
    same && unaligned == Got::NotMapped
}

/// Whether pages over a file, read so many bytes at a time, tell the words and symbols of the core in memory.
fn pages_alike(alloc: Global, bytes: &[u8], most: usize) -> bool {
    let Ok(core) = decode(alloc, bytes) else {
        return false;
    };
    let mut calls = MemCalls::over(core, Vec::new(alloc));
    let Ok(mut files) = Sparing::with(alloc, bytes, most, &[]) else {
        return false;
    };
    let Ok(mut pages) = Pages::over(alloc, &mut files, "c") else {
        return false;
    };
    let mut same = pages.contexts().as_slice() == [5, 9].as_slice();
    same = same && bytes.get(9) == Some(&pages.order());
    for (start, count) in SEGMENTS {
        same = same
            && alike(
                &mut pages,
                &mut calls,
                start.wrapping_sub(16),
                count.wrapping_add(4),
            );
    }
    let layout = pages.symbol_addr_lookup("omi_layout");
    let other = pages.symbol_addr_lookup("omi_layou");
    same && layout == Place::At(0x10158) && other == Place::NoSuch
}

#[test]
fn the_words_of_a_core_in_memory(rt: HostRuntime) -> Result<(), Fail> {
    for order in [0, 1] {
        let bytes = three_segments_in(rt.alloc(), order)?;
        assert!(rt; pages_alike(rt.alloc(), &bytes, 4096));
    }
    Ok(())
}

#[test]
fn a_word_of_each_order(rt: HostRuntime) -> Result<(), Fail> {
    for (order, wanted) in [
        (0, [0xe8, 0x2f, 6, 0, 0, 0, 0, 0]),
        (1, [0, 0, 0, 0, 0, 6, 0x2f, 0xe8]),
    ] {
        let bytes = three_segments_in(rt.alloc(), order)?;
        let mut files = Sparing::with(rt.alloc(), &bytes, 4096, &[])?;
        let mut word = [0u8; 8];
        let got = read_word(rt.alloc(), &mut files, "c", 0x20ff8, &mut word);
        assert_eq!(rt; (got, word), (Ok(Got::Bytes), wanted));
    }
    Ok(())
}

#[test]
fn short_reads(rt: HostRuntime) -> Result<(), Fail> {
    let bytes = three_segments(rt.alloc())?;
    assert!(rt; pages_alike(rt.alloc(), &bytes, 1));
    assert!(rt; pages_alike(rt.alloc(), &bytes, 7));
    Ok(())
}

/// Reads a word of a core file. It shows what a caller knows of the files once the pages have let
/// them go.
fn read_word<F: Files>(
    alloc: Global,
    files: &mut F,
    name: &str,
    addr: u64,
    word: &mut [u8; 8],
) -> Result<Got, PageError>
    ensures same { F.told files.new ≡ F.told files.old }
    ensures cause { HasCause (F.reads files.old) (F.reads files.new)
        ((result ≡ Err PageError.Failed) ⊎ (result ≡ Ok Got.Failed)) }
    ensures writes { F.writes files.new ≡ F.writes files.old }
{
    let opened = open(alloc, files, name)?;
    let mut pages = Pages::of(files, name, opened);
    let got = pages.read_memory(addr, word);
    let _ = pages.into_files();
    Ok(got)
}

#[test]
fn files_are_let_go(rt: HostRuntime) -> Result<(), Fail> {
    let bytes = three_segments(rt.alloc())?;
    let mut files = Sparing::with(rt.alloc(), &bytes, 4096, &[])?;
    let mut word = [0u8; 8];
    let got = read_word(rt.alloc(), &mut files, "c", 0x20ff8, &mut word);
    assert_eq!(rt; got, Ok(Got::Bytes));
    assert_eq!(rt; u64::from_le_bytes(word), 0x62fe8);
    assert_eq!(rt; files.given, 92);
    Ok(())
}

/// How many bytes are read where the file is opened, and then a word of its last page is read twice.
fn bytes_read(alloc: Global, bytes: &[u8]) -> Option<(u64, bool)> {
    let Ok(mut files) = Sparing::with(alloc, bytes, 4096, &[]) else {
        return None;
    };
    let mut word = [0u8; 8];
    let twice = match Pages::over(alloc, &mut files, "c") {
        Ok(mut pages) => {
            let first = pages.read_memory(0x21000, &mut word);
            let second = pages.read_memory(0x21000, &mut word);
            first == Got::Bytes && second == Got::Bytes
        }
        Err(_) => false,
    };
    Some((files.given, twice && word == 0x63000u64.to_le_bytes()))
}

#[test]
fn fewer_bytes_than_the_file_has(rt: HostRuntime) -> Result<(), Fail> {
    let bytes = three_segments(rt.alloc())?;
    assert_eq!(rt; bytes.len(), 4984);
    // The first four bytes, the header, two contexts, the bounds of three segments, and one word.
    assert_eq!(rt; bytes_read(rt.alloc(), &bytes), Some((92, true)));
    Ok(())
}

/// What two reads of a word answer, and how the opening ends, where the reads of these numbers fail.
fn failing(alloc: Global, bytes: &[u8], numbers: &[u64]) -> Option<Result<(Got, Got), PageError>> {
    let Ok(mut files) = Sparing::with(alloc, bytes, 4096, numbers) else {
        return None;
    };
    let mut word = [0u8; 8];
    Some(match Pages::over(alloc, &mut files, "c") {
        Ok(mut pages) => {
            let first = pages.read_memory(0x10800, &mut word);
            Ok((first, pages.read_memory(0x10800, &mut word)))
        }
        Err(error) => Err(error),
    })
}

#[test]
fn a_read_that_fails(rt: HostRuntime) -> Result<(), Fail> {
    let bytes = three_segments(rt.alloc())?;
    for number in 1..7 {
        let answer = failing(rt.alloc(), &bytes, &[number]);
        assert_eq!(rt; answer, Some(Err(PageError::Failed)));
    }
    let second_part = failing(rt.alloc(), &bytes, &[8]);
    assert_eq!(rt; second_part, Some(Ok((Got::Failed, Got::Bytes))));
    let never = failing(rt.alloc(), &bytes, &[9]);
    assert_eq!(rt; never, Some(Ok((Got::Bytes, Got::Bytes))));
    Ok(())
}

/// Whether there are no pages over a name, with this error, where the call of `size` of this number fails.
fn is_not_opened(alloc: Global, number: u64, wanted: PageError) -> bool {
    let mut failing = Vec::new(alloc);
    if failing.push((Call::Size, number)).is_err() {
        return false;
    }
    let mut files = MemFiles::new(alloc, failing);
    match Pages::over(alloc, &mut files, "c") {
        Ok(_) => false,
        Err(error) => error == wanted,
    }
}

#[test]
fn no_file(rt: HostRuntime) {
    assert!(rt; is_not_opened(rt.alloc(), 1, PageError::Failed));
    assert!(rt; is_not_opened(rt.alloc(), 2, PageError::NoFile));
}

/// A core of so many pages.
fn pages_of(alloc: Global, pages: u64) -> Result<Vec<u8>, AllocError>
    requires { pages ≤ 64 }
{
    let mut bytes = Vec::from_slice(alloc, b"OMPDCOR1\x01\x00\x00\x00\x01\x00\x00\x00")?;
    bytes.extend_from_slice(&0x10000u64.to_le_bytes())?;
    bytes.extend_from_slice(&(512 * pages).to_le_bytes())?;
    bytes.resize(32 + 4096 * pages as usize, 0)?;
    Ok(bytes)
}

/// How many bytes are read where a word of each of these pages is read, one after the other.
fn read_of_pages(alloc: Global, bytes: &[u8], pages_read: &[u64]) -> u64 {
    let Ok(mut files) = Sparing::with(alloc, bytes, 4096, &[]) else {
        return 0;
    };
    if let Ok(mut pages) = Pages::over(alloc, &mut files, "c") {
        let mut word = [0u8; 8];
        for page in pages_read {
            pages.read_memory(page.wrapping_mul(4096).wrapping_add(0x10000), &mut word);
        }
    }
    files.given
}

/// Sixteen pages are kept, and of seventeen the one that was read longest ago is let go: the first one where the others were read behind it, and the
/// second one where the first was read again.
#[test]
fn sixteen_pages_are_kept(rt: HostRuntime) -> Result<(), Fail> {
    let bytes = pages_of(rt.alloc(), 17)?;
    let sixteen = [0, 1, 2, 3, 4, 5, 6, 7, 8, 9, 10, 11, 12, 13, 14, 15, 0];
    assert_eq!(rt; read_of_pages(rt.alloc(), &bytes, &sixteen), 65572);
    let all = [0, 1, 2, 3, 4, 5, 6, 7, 8, 9, 10, 11, 12, 13, 14, 15, 16, 0];
    assert_eq!(rt; read_of_pages(rt.alloc(), &bytes, &all), 73764);
    let first_again = [
        0, 1, 2, 3, 4, 5, 6, 7, 8, 9, 10, 11, 12, 13, 14, 15, 0, 16, 0,
    ];
    assert_eq!(rt; read_of_pages(rt.alloc(), &bytes, &first_again), 69668);
    let second_gone = [
        0, 1, 2, 3, 4, 5, 6, 7, 8, 9, 10, 11, 12, 13, 14, 15, 0, 16, 1,
    ];
    assert_eq!(rt; read_of_pages(rt.alloc(), &bytes, &second_gone), 73764);
    Ok(())
}

/// A core of so many segments, each of one word, in a page of its own: the word is its address.
fn segments_of(alloc: Global, segments: u8) -> Result<Vec<u8>, AllocError> {
    let mut bytes = Vec::from_slice(alloc, b"OMPDCOR1\x01\x00\x00\x00")?;
    bytes.extend_from_slice(&(segments as u32).to_le_bytes())?;
    for k in 0..segments {
        let start = 0x10000 + 8192 * k as u64;
        bytes.extend_from_slice(&start.to_le_bytes())?;
        bytes.extend_from_slice(&1u64.to_le_bytes())?;
        bytes.extend_from_slice(&start.to_le_bytes())?;
    }
    Ok(bytes)
}

/// Whether the word of each segment is read, and none behind it.
fn has_each_segment(alloc: Global, bytes: &[u8], segments: u8) -> bool {
    let Ok(mut files) = Sparing::with(alloc, bytes, 4096, &[]) else {
        return false;
    };
    let Ok(mut pages) = Pages::over(alloc, &mut files, "c") else {
        return false;
    };
    let mut same = true;
    for k in 0..segments {
        let start = 0x10000 + 8192 * k as u64;
        let mut word = [0u8; 8];
        same = same && pages.read_memory(start, &mut word) == Got::Bytes;
        same = same && u64::from_le_bytes(word) == start;
        same = same && pages.read_memory(start + 8, &mut word) == Got::NotMapped;
    }
    same
}

/// The most segments that a core has, and some below.
#[test]
fn each_of_many_segments(rt: HostRuntime) -> Result<(), Fail> {
    for segments in [1, 8, 9, 63, 64] {
        let bytes = segments_of(rt.alloc(), segments)?;
        assert!(rt;
            has_each_segment(rt.alloc(), &bytes, segments),
            "{segments}"
        );
    }
    Ok(())
}
