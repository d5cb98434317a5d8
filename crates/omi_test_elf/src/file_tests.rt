//! Files written by hand that stand for a core.

use omi_corefile::CoreImage;
use omi_elf::decode_elf;
use omi_fixture_elf::{Header, file, odd, put_note, put_words, small};
use std::test::Fail;

/// Whether a core has this order, these contexts, and these segments.
pub fn is_core(core: &CoreImage, order: u8, contexts: &[u64], segments: &[(u64, &[u64])]) -> bool {
    let mut same = core.order == order
        && core.contexts.as_slice() == contexts
        && core.segments.len() == segments.len();
    for (segment, (start, words)) in core.segments.as_slice().iter().zip(segments) {
        same = same && segment.start == *start && segment.words.as_slice() == *words;
    }
    same
}

#[test]
fn small_file(rt: HostRuntime) -> Result<(), Fail> {
    let core = decode_elf(rt.alloc(), &small(rt.alloc())?)?;
    let segments: [(u64, &[u64]); 2] = [(0x10000, &[7, 8]), (0x10020, &[9])];
    assert!(rt; is_core(&core, 0, &[1000, 1001], &segments));
    Ok(())
}

/// A note of another name before ours, segments that touch in falling order, one above every program's memory, and one
/// without bytes in the file.
#[test]
fn odd_orders(rt: HostRuntime) -> Result<(), Fail> {
    let core = decode_elf(rt.alloc(), &odd(rt.alloc())?)?;
    let segments: [(u64, &[u64]); 1] = [(0x10000, &[1, 2, 3, 4])];
    assert!(rt; is_core(&core, 1, &[1000], &segments));
    Ok(())
}

/// A segment of 23 bytes has two words; one of 7 bytes and one below 0x10000 are passed over. No note is read behind ours.
#[test]
fn rounded_sizes(rt: HostRuntime) -> Result<(), Fail> {
    let mut body = Vec::new(rt.alloc());
    put_note(&mut body, 0, b"OMPD\0", &[])?;
    put_words(&mut body, 0, &[5, 6])?;
    let headers: [Header; 5] = [
        (4, 344, 0, 20),
        (1, 364, 0x7fff_ffff_fff8, 16 + 7),
        (1, 1 << 50, 0x10000, 7),
        (1, 1 << 50, 0xfff8, 64),
        (4, 1 << 50, 0, 64),
    ];
    let core = decode_elf(rt.alloc(), &file(rt.alloc(), 0, &headers, &body)?)?;
    let segments: [(u64, &[u64]); 1] = [(0x7fff_ffff_fff8, &[5, 6])];
    assert!(rt; is_core(&core, 0, &[], &segments));
    Ok(())
}
