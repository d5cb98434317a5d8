//! The core file that the tests read.

use std::alloc::{AllocError, Global};

/// The start addresses of the segments, and their numbers of words. The second one ends in another page than it starts in, and
/// shares its first page with the first one, and the third one has a word in each of two pages.
pub const SEGMENTS: [(u64, u64); 3] = [(0x10000, 11), (0x10060, 600), (0x20ff8, 2)];

/// The first segment: a symbol table, which has `omi_layout` twice.
const TABLE: [u64; 11] = [
    2,
    0x6f79_616c_5f69_6d6f,
    0x7475,
    0,
    0,
    0x10158,
    0x6f79_616c_5f69_6d6f,
    0x7475,
    0,
    0,
    0x20000,
];

/// The word at an address: that of the symbol table, or three times the address.
fn word_at(addr: u64) -> u64 {
    match TABLE.get((addr.wrapping_sub(0x10000) / 8) as usize) {
        Some(word) => *word,
        None => addr.wrapping_mul(3),
    }
}

/// A core file with the contexts 5 and 9 and three segments, in order 0.
pub fn three_segments(alloc: Global) -> Result<Vec<u8>, AllocError> {
    three_segments_in(alloc, 0)
}

/// The same in either order.
pub fn three_segments_in(alloc: Global, order: u8) -> Result<Vec<u8>, AllocError> {
    let mut bytes = Vec::from_slice(alloc, b"OMPDCOR1\x01")?;
    bytes.push(order)?;
    bytes.extend_from_slice(b"\x02\x00\x03\x00\x00\x00")?;
    bytes.extend_from_slice(&5u64.to_le_bytes())?;
    bytes.extend_from_slice(&9u64.to_le_bytes())?;
    for (start, count) in SEGMENTS {
        bytes.extend_from_slice(&start.to_le_bytes())?;
        bytes.extend_from_slice(&count.to_le_bytes())?;
        for k in 0..count {
            let word = word_at(start.wrapping_add(k.wrapping_mul(8)));
            let eight = if order == 0 {
                word.to_le_bytes()
            } else {
                word.to_be_bytes()
            };
            bytes.extend_from_slice(&eight)?;
        }
    }
    Ok(bytes)
}
