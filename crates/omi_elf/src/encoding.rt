//! Writing a core as an ELF core file.

ghost use Rattle.std.specs.Prelude.{◌≡◌, ◌≤◌, ◌<◌, ◌^◌, ◌+◌, ◌*◌, ◌++◌, length, OnOk, IfOk};
ghost use Rattle.std.specs.List.{flat_map};
ghost use Rattle.std.specs.Int.{w16, w32, w64};
ghost use Rattle.omi_corefile.specs.Limits.{total_words};
ghost use Rattle.omi_corefile.specs.Spelling.{words_in};
ghost use Rattle.omi_elf.specs.Spelling.{bytes_of, e_ident as ident, header_front, header_rest, elf_header, header_bytes, segment_headers, note_bytes, note_size as size_of_note, elf_bytes};
ghost use Rattle.omi_elf.specs.ElfCore.{ElfCore};

use crate::{
    CORE_TYPE, ELF_MAGIC, HEADER_BYTES, LOAD_SEGMENT, NOTE_FRONT_BYTES, NOTE_NAME, NOTE_SEGMENT,
    NOTE_TYPE, OutOfMemory, PROGRAM_HEADER_BYTES,
};
use omi_corefile::{CoreImage, SegList, word_bytes};
use omi_word::Natives;
use std::alloc::Global;

/// Adds a number of two bytes.
fn put16(out: &mut Vec<u8>, order: u8, n: u16) -> Result<(), OutOfMemory>
    ensures { OnOk result (out.new.items ≡ out.old.items ++ bytes_of w16 order n) }
{
    if order == 0 {
        out.extend_from_slice(&n.to_le_bytes())
    } else {
        out.extend_from_slice(&n.to_be_bytes())
    }
}

/// Adds a number of four bytes.
fn put32(out: &mut Vec<u8>, order: u8, n: u32) -> Result<(), OutOfMemory>
    ensures { OnOk result (out.new.items ≡ out.old.items ++ bytes_of w32 order n) }
{
    if order == 0 {
        out.extend_from_slice(&n.to_le_bytes())
    } else {
        out.extend_from_slice(&n.to_be_bytes())
    }
}

/// Adds a number of eight bytes.
fn put64(out: &mut Vec<u8>, order: u8, n: u64) -> Result<(), OutOfMemory>
    ensures { OnOk result (out.new.items ≡ out.old.items ++ bytes_of w64 order n) }
{
    out.extend_from_slice(&word_bytes(order, n))
}

/// Adds e_ident.
fn put_ident(out: &mut Vec<u8>, order: u8) -> Result<(), OutOfMemory>
    requires { order ≤ 1 }
    ensures { OnOk result (out.new.items ≡ out.old.items ++ ident order) }
{
    out.extend_from_slice(&ELF_MAGIC)?;
    out.extend_from_slice(&[2, order + 1, 1, 0, 0, 0, 0, 0, 0, 0, 0, 0])
}

/// Adds the front of a header, up to the place of the program headers.
#[tactic(auto, unfolding(crate::specs::Spelling::header_front))]
fn put_header_front(out: &mut Vec<u8>, order: u8) -> Result<(), OutOfMemory>
    requires { order ≤ 1 }
    ensures { OnOk result (out.new.items ≡ out.old.items ++ header_front order) }
{
    put_ident(out, order)?;
    put16(out, order, CORE_TYPE)?;
    put16(out, order, 0)?;
    put32(out, order, 1)?;
    put64(out, order, 0)?;
    put64(out, order, HEADER_BYTES)
}

/// Adds the rest of the header of a file with so many program headers.
#[tactic(auto, unfolding(crate::specs::Spelling::header_rest))]
fn put_header_rest(out: &mut Vec<u8>, order: u8, count: u16) -> Result<(), OutOfMemory>
    ensures { OnOk result (out.new.items ≡ out.old.items ++ header_rest order count) }
{
    put64(out, order, 0)?;
    put32(out, order, 0)?;
    put16(out, order, HEADER_BYTES as u16)?;
    put16(out, order, PROGRAM_HEADER_BYTES as u16)?;
    put16(out, order, count)?;
    put16(out, order, 0)?;
    put16(out, order, 0)?;
    put16(out, order, 0)
}

/// Adds the header of a file with so many program headers.
fn put_header(out: &mut Vec<u8>, order: u8, count: u16) -> Result<(), OutOfMemory>
    requires { order ≤ 1 }
    ensures { OnOk result (out.new.items ≡ out.old.items ++ elf_header order count) }
{
    put_header_front(out, order)?;
    put_header_rest(out, order, count)
}

/// Adds the program header of a segment.
#[tactic(auto, unfolding(crate::specs::Spelling::header_bytes))]
fn put_program_header(
    out: &mut Vec<u8>,
    order: u8,
    kind: u32,
    offset: u64,
    address: u64,
    size: u64,
) -> Result<(), OutOfMemory>
    ensures { OnOk result (out.new.items
        ≡ out.old.items ++ header_bytes order kind offset address size) }
{
    put32(out, order, kind)?;
    put32(out, order, 0)?;
    put64(out, order, offset)?;
    put64(out, order, address)?;
    put64(out, order, 0)?;
    put64(out, order, size)?;
    put64(out, order, size)?;
    put64(out, order, 0)
}

/// Adds the program headers of segments whose words stand one behind the other from an offset on.
fn put_segment_headers(
    out: &mut Vec<u8>,
    order: u8,
    offset: u64,
    segments: &SegList,
) -> Result<(), OutOfMemory>
    requires { offset + 8 * total_words segments.now < 2 ^ 64 }
    ensures { OnOk result (out.new.items
        ≡ out.old.items ++ segment_headers order offset segments.now) }
{
    let mut place = offset;
    for at in 0..segments.len() {
        let segment = segments.get(at);
        let size = 8 * segment.words.len() as u64;
        put_program_header(out, order, LOAD_SEGMENT, place, segment.start, size)?;
        place += size;
    }
    Ok(())
}

/// Adds eight bytes for each word.
fn put_words(out: &mut Vec<u8>, order: u8, words: &Natives) -> Result<(), OutOfMemory>
    ensures { OnOk result (out.new.items ≡ out.old.items ++ words_in order words.now) }
{
    for at in 0..words.len() {
        put64(out, order, *words.get(at))?;
    }
    Ok(())
}

/// Adds the note that lists native ids.
#[tactic(auto, unfolding(crate::specs::Spelling::note_bytes))]
fn put_note(out: &mut Vec<u8>, order: u8, ids: &Natives) -> Result<(), OutOfMemory>
    requires { length ids.now ≤ 64 }
    ensures { OnOk result (out.new.items ≡ out.old.items ++ note_bytes order ids.now) }
{
    put32(out, order, NOTE_NAME.len() as u32)?;
    put32(out, order, 8 * ids.len() as u32)?;
    put32(out, order, NOTE_TYPE)?;
    out.extend_from_slice(&NOTE_NAME)?;
    out.extend_from_slice(&[0, 0, 0])?;
    put_words(out, order, ids)
}

/// Adds the words of each segment.
fn put_segments(out: &mut Vec<u8>, order: u8, segments: &SegList) -> Result<(), OutOfMemory>
    ensures { OnOk result (out.new.items
        ≡ out.old.items ++ flat_map (λ s. words_in order s.words) segments.now) }
{
    for at in 0..segments.len() {
        put_words(out, order, &segments.get(at).words)?;
    }
    Ok(())
}

/// The bytes of the note of so many ids.
fn note_size(ids: &Natives) -> u64
    requires { length ids.now ≤ 64 }
    ensures { result ≡ size_of_note (length ids.now) }
{
    NOTE_FRONT_BYTES + 8 + 8 * ids.len() as u64
}

/// The ELF core file that is written of a core. It stands for that core, so `decode_elf` reads the core again.
pub fn encode_elf(alloc: Global, c: &CoreImage) -> Result<Vec<u8>, OutOfMemory>
    ensures spelled { IfOk result (λ bytes. bytes.items ≡ elf_bytes c.now) }
    ensures core { IfOk result (λ bytes. ElfCore bytes.items c.now) }
{
    let mut out = Vec::new(alloc);
    let count = c.segments.len() as u16 + 1;
    let note = HEADER_BYTES + PROGRAM_HEADER_BYTES * u64::from(count);
    let size = note_size(&c.contexts);
    put_header(&mut out, c.order, count)?;
    put_program_header(&mut out, c.order, NOTE_SEGMENT, note, 0, size)?;
    put_segment_headers(&mut out, c.order, note + size, &c.segments)?;
    put_note(&mut out, c.order, &c.contexts)?;
    put_segments(&mut out, c.order, &c.segments)?;
    Ok(out)
}
