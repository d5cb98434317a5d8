//! ELF core files written by hand for the tests of the top call.

use std::alloc::{AllocError, Global};

/// Bytes with others at a place.
pub fn with_bytes(
    alloc: Global,
    bytes: &[u8],
    at: usize,
    others: &[u8],
) -> Result<Vec<u8>, AllocError> {
    let mut changed = bytes.to_vec(alloc)?;
    for (k, other) in others.iter().enumerate() {
        if let Some(byte) = changed.get_mut(at.wrapping_add(k)) {
            *byte = *other;
        }
    }
    Ok(changed)
}

/// The file's header, up to the number of program headers, in big-endian numbers.
const HEADER: &[u8; 64] =
    b"\x7fELF\x02\x02\x01\0\0\0\0\0\0\0\0\0\0\x04\0\x15\0\0\0\x01\0\0\0\0\0\0\0\0\0\0\0\0\0\0\0\x40\0\0\0\0\0\0\0\0\0\0\0\0\0\x40\0\x38\0\x05\0\0\0\0\0\0";

/// A note of another name and type with a description of eight bytes, and ours with the id 1000.
const NOTES: &[u8; 56] =
    b"\0\0\0\x05\0\0\0\x08\0\0\0\x03CORE\0\0\0\0\xff\xff\xff\xff\xff\xff\xff\xff\0\0\0\x05\0\0\0\x08\0\0\0\x01OMPD\0\0\0\0\0\0\0\0\0\0\x03\xe8";

/// The place of the notes, behind five program headers, and that of the words.
const NOTES_AT: u64 = 64 + 5 * 56;

const WORDS_AT: u64 = NOTES_AT + 56;

/// The bytes of the words in the second of the two segments that touch.
const SECOND: usize = 4096;

/// Adds a program header with flags, a memory size and an alignment that no reader looks at.
fn put_header(
    out: &mut Vec<u8>,
    kind: u32,
    offset: u64,
    address: u64,
    size: u64,
) -> Result<(), AllocError> {
    out.extend_from_slice(&kind.to_be_bytes())?;
    out.extend_from_slice(&6u32.to_be_bytes())?;
    for number in [offset, address, 7, size, size.wrapping_mul(2), 4096] {
        out.extend_from_slice(&number.to_be_bytes())?;
    }
    Ok(())
}

/// Adds words, of which each has its bytes turned.
fn put_turned(out: &mut Vec<u8>, words: &[u8]) -> Result<(), AllocError> {
    for at in 0..words.len() / 8 {
        for k in 0..8 {
            out.push(words[8 * at + 7 - k])?;
        }
    }
    Ok(())
}

/// A file with these words, the lowest byte of each first, from 0x10000 on, as no program of this project writes one.
pub fn hand_made(alloc: Global, words: &[u8]) -> Result<Vec<u8>, AllocError> {
    let second = words.len().min(SECOND);
    let (first, last) = words.split_at(second);
    let mut out = Vec::from_slice(alloc, HEADER)?;
    put_header(
        &mut out,
        1,
        WORDS_AT,
        0x10000u64.wrapping_add(second as u64),
        last.len() as u64,
    )?;
    put_header(&mut out, 4, NOTES_AT, 0, 56)?;
    put_header(&mut out, 1, 0, 0xffff_ffff_ff60_0000, 4096)?;
    put_header(
        &mut out,
        1,
        WORDS_AT.wrapping_add(last.len() as u64),
        0x10000,
        first.len() as u64,
    )?;
    put_header(&mut out, 1, 1 << 40, 0x4000_0000, 0)?;
    out.extend_from_slice(NOTES)?;
    put_turned(&mut out, last)?;
    put_turned(&mut out, first)?;
    Ok(out)
}
