//! ELF files written out by hand, field by field.
#![tactic(auto)]

use std::alloc::{AllocError, Global};

/// What a program header says: p_type, p_offset, p_vaddr and p_filesz.
pub type Header = (u32, u64, u64, u64);

/// Adds a number of so many bytes, in this order.
fn put(out: &mut Vec<u8>, order: u8, number: u64, count: usize) -> Result<(), AllocError> {
    if order == 0 {
        out.extend_from_slice(&number.to_le_bytes()[..count.min(8)])
    } else {
        out.extend_from_slice(&number.to_be_bytes()[8 - count.min(8)..])
    }
}

/// Adds the file's header, with so many program headers behind it.
fn put_header(out: &mut Vec<u8>, order: u8, count: usize) -> Result<(), AllocError> {
    out.extend_from_slice(b"\x7fELF\x02")?;
    out.extend_from_slice(&[if order == 0 { 1 } else { 2 }, 1])?;
    out.extend_from_slice(&[0; 9])?;
    put(out, order, 4, 2)?;
    put(out, order, 0, 2)?;
    put(out, order, 1, 4)?;
    put(out, order, 0, 8)?;
    put(out, order, 64, 8)?;
    put(out, order, 0, 8)?;
    put(out, order, 0, 4)?;
    put(out, order, 64, 2)?;
    put(out, order, 56, 2)?;
    put(out, order, count as u64, 2)?;
    out.extend_from_slice(&[0; 6])
}

/// Adds a program header. Its memory size is 0, as no reader looks at it.
fn put_program_header(out: &mut Vec<u8>, order: u8, header: Header) -> Result<(), AllocError> {
    let (kind, offset, address, size) = header;
    put(out, order, u64::from(kind), 4)?;
    put(out, order, 0, 4)?;
    put(out, order, offset, 8)?;
    put(out, order, address, 8)?;
    put(out, order, 0, 8)?;
    put(out, order, size, 8)?;
    put(out, order, 0, 8)?;
    put(out, order, 0, 8)
}

/// A note of type 1 with this name and these numbers, both padded.
pub fn put_note(
    out: &mut Vec<u8>,
    order: u8,
    name: &[u8],
    numbers: &[u64],
) -> Result<(), AllocError> {
    put(out, order, name.len() as u64, 4)?;
    put(out, order, 8 * (numbers.len() as u64 % 1024), 4)?;
    put(out, order, 1, 4)?;
    out.extend_from_slice(name)?;
    out.extend_from_slice(&[0; 3][..(4 - name.len() % 4) % 4])?;
    for number in numbers {
        put(out, order, *number, 8)?;
    }
    Ok(())
}

/// The note of a thread of this native id: NT_PRSTATUS, of which all else is 0.
pub fn put_status(out: &mut Vec<u8>, order: u8, id: u32) -> Result<(), AllocError> {
    let id = u64::from(id);
    let last = if order == 0 { id } else { id << 32 };
    put_note(out, order, b"CORE\0", &[0, 0, 0, 0, last])
}

/// A file with these program headers, and this behind them.
pub fn file(
    alloc: Global,
    order: u8,
    headers: &[Header],
    body: &[u8],
) -> Result<Vec<u8>, AllocError> {
    let mut out = Vec::new(alloc);
    put_header(&mut out, order, headers.len())?;
    for header in headers {
        put_program_header(&mut out, order, *header)?;
    }
    out.extend_from_slice(body)?;
    Ok(out)
}

/// Words, eight bytes each.
pub fn put_words(out: &mut Vec<u8>, order: u8, words: &[u64]) -> Result<(), AllocError> {
    for word in words {
        put(out, order, *word, 8)?;
    }
    Ok(())
}

/// The file of the fault tests: a note with the ids 1000 and 1001 at 232, two words at 0x10000 from 268 on, and one at
/// 0x10020 from 284 on. It has 292 bytes.
pub fn small(alloc: Global) -> Result<Vec<u8>, AllocError> {
    let mut body = Vec::new(alloc);
    put_note(&mut body, 0, b"OMPD\0", &[1000, 1001])?;
    put_words(&mut body, 0, &[7, 8, 9])?;
    let headers = [(4, 232, 0, 36), (1, 268, 0x10000, 16), (1, 284, 0x10020, 8)];
    file(alloc, 0, &headers, &body)
}

/// A big-endian file: a note of another name before ours, two touching segments in falling order, a segment above every
/// program's memory, and one without bytes in the file. It stands for the words 1 to 4 at 0x10000, with the id 1000.
pub fn odd(alloc: Global) -> Result<Vec<u8>, AllocError> {
    let mut body = Vec::new(alloc);
    put_note(&mut body, 1, b"CORE\0", &[1, 2, 3])?;
    put_note(&mut body, 1, b"OMPD\0", &[1000])?;
    put_words(&mut body, 1, &[3, 4, 1, 2])?;
    let headers: [Header; 5] = [
        (1, 416, 0x10010, 16),
        (4, 344, 0, 72),
        (1, 432, 0x10000, 16),
        (1, 0, 0xffff_ffff_ff60_0000, 4096),
        (1, 1 << 40, 0x20000, 0),
    ];
    file(alloc, 1, &headers, &body)
}

/// A file with other bytes at a place, of which so many bytes are left.
pub fn patched(
    alloc: Global,
    bytes: &[u8],
    place: usize,
    with: &[u8],
    left: usize,
) -> Result<Vec<u8>, AllocError> {
    let place = place.min(bytes.len());
    let mut out = Vec::from_slice(alloc, &bytes[..place])?;
    out.extend_from_slice(with)?;
    let rest = bytes.len().min(place.saturating_add(with.len()));
    out.extend_from_slice(&bytes[rest..])?;
    out.truncate(left);
    Ok(out)
}
