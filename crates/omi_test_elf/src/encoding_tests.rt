//! The files that are written of cores.

use crate::fault_tests::is_refused;
use crate::file_tests::is_core;
use omi_corefile::{CoreImage, core_of};
use omi_elf::{ElfFault, decode_elf, encode_elf};
use omi_fixture_elf::{file, odd, patched, put_note, put_words, small};
use omi_word::{Image, Natives, Op};
use std::alloc::{AllocError, Global};
use std::test::Fail;

/// As many words as the empty run's core has.
const WORDS: u64 = 8502;

/// The header of a file with two program headers, in order 0.
const HEADER: &[u8; 64] =
    b"\x7fELF\x02\x01\x01\0\0\0\0\0\0\0\0\0\x04\0\0\0\x01\0\0\0\0\0\0\0\0\0\0\0\x40\0\0\0\0\0\0\0\0\0\0\0\0\0\0\0\0\0\0\0\x40\0\x38\0\x02\0\0\0\0\0\0\0";

/// The program header of the note: 28 bytes at 176.
const NOTE_HEADER: &[u8; 56] =
    b"\x04\0\0\0\0\0\0\0\xb0\0\0\0\0\0\0\0\0\0\0\0\0\0\0\0\0\0\0\0\0\0\0\0\x1c\0\0\0\0\0\0\0\x1c\0\0\0\0\0\0\0\0\0\0\0\0\0\0\0";

/// The program header of the segment: 68,016 bytes at 204, which start at 0x10000 in memory.
const SEGMENT_HEADER: &[u8; 56] =
    b"\x01\0\0\0\0\0\0\0\xcc\0\0\0\0\0\0\0\0\0\x01\0\0\0\0\0\0\0\0\0\0\0\0\0\xb0\x09\x01\0\0\0\0\0\xb0\x09\x01\0\0\0\0\0\0\0\0\0\0\0\0\0";

/// The note, with the id 1000.
const NOTE: &[u8; 28] = b"\x05\0\0\0\x08\0\0\0\x01\0\0\0OMPD\0\0\0\0\xe8\x03\0\0\0\0\0\0";

/// Words that differ, with bytes in both halves.
fn words(alloc: Global) -> Result<Vec<u64>, AllocError> {
    let mut words = Vec::new(alloc);
    for k in 0..WORDS {
        words.push(k * 0x1_0000_0001)?;
    }
    Ok(words)
}

/// The image that has these words.
fn image_of(alloc: Global, words: &[u64]) -> Result<Image, Fail> {
    let mut image = Image::zeroed(alloc, WORDS as usize)?;
    for (k, word) in words.iter().enumerate() {
        let at = 0x10000 + 8 * (k as u64 % WORDS);
        if image.get(at).is_some() {
            image.apply(Op::Store { at, new: *word });
        }
    }
    Ok(image)
}

/// The file that has to be written of these words.
fn expected(alloc: Global, words: &[u64]) -> Result<Vec<u8>, AllocError> {
    let mut out = Vec::from_slice(alloc, HEADER)?;
    out.extend_from_slice(NOTE_HEADER)?;
    out.extend_from_slice(SEGMENT_HEADER)?;
    out.extend_from_slice(NOTE)?;
    put_words(&mut out, 0, words)?;
    Ok(out)
}

/// A core of the empty run's size: 68,220 bytes, each as the format says, and the same core again.
#[test]
fn one_segment(rt: HostRuntime) -> Result<(), Fail> {
    let words = words(rt.alloc())?;
    let image = image_of(rt.alloc(), &words)?;
    let mut contexts = Natives::new(rt.alloc());
    contexts.push(1000)?;
    let core = core_of(rt.alloc(), &image, &contexts, 0)?;
    let bytes = encode_elf(rt.alloc(), &core)?;
    assert_eq!(rt; bytes.len(), 68_220);
    assert!(rt; bytes.as_slice() == expected(rt.alloc(), &words)?.as_slice());
    let again = decode_elf(rt.alloc(), &bytes)?;
    assert!(rt; is_core(&again, 0, &[1000], &[(0x10000, words.as_slice())]));
    let other = patched(rt.alloc(), &bytes, 16, b"\x02", 68_220)?;
    assert!(rt; is_refused(rt.alloc(), &other, 16, ElfFault::NotCore(2)));
    let cut = patched(rt.alloc(), &bytes, 0, b"", 68_219)?;
    assert!(rt; is_refused(rt.alloc(), &cut, 68_219, ElfFault::Short(68_219)));
    Ok(())
}

/// The core that is read of what is written of a core, and how many bytes were written.
fn again(alloc: Global, core: &CoreImage) -> Result<(usize, CoreImage), Fail> {
    let bytes = encode_elf(alloc, core)?;
    Ok((bytes.len(), decode_elf(alloc, &bytes)?))
}

/// Two segments in order 0, and one in order 1, of which the file had two.
#[test]
fn both_orders(rt: HostRuntime) -> Result<(), Fail> {
    let core = decode_elf(rt.alloc(), &small(rt.alloc())?)?;
    let (len, low) = again(rt.alloc(), &core)?;
    assert_eq!(rt; len, 292);
    let two: [(u64, &[u64]); 2] = [(0x10000, &[7, 8]), (0x10020, &[9])];
    assert!(rt; is_core(&low, 0, &[1000, 1001], &two));
    let core = decode_elf(rt.alloc(), &odd(rt.alloc())?)?;
    let (len, high) = again(rt.alloc(), &core)?;
    assert_eq!(rt; len, 64 + 2 * 56 + 28 + 32);
    let one: [(u64, &[u64]); 1] = [(0x10000, &[1, 2, 3, 4])];
    assert!(rt; is_core(&high, 1, &[1000], &one));
    Ok(())
}

/// No segments and no contexts: the headers and the front of the note alone.
#[test]
fn least_core(rt: HostRuntime) -> Result<(), Fail> {
    let mut note = Vec::new(rt.alloc());
    put_note(&mut note, 0, b"OMPD\0", &[])?;
    let core = decode_elf(rt.alloc(), &file(rt.alloc(), 0, &[(4, 120, 0, 20)], &note)?)?;
    let (len, least) = again(rt.alloc(), &core)?;
    assert_eq!(rt; len, 140);
    assert!(rt; is_core(&least, 0, &[], &[]));
    Ok(())
}
