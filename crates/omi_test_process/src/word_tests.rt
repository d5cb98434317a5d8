//! The words of cores of processes.

use crate::processes::{BODY, read, small, word_at};
use omi_elf::{ElfError, ElfFault, decode_elf};
use omi_fixture_elf::{Header, file, odd, put_status, put_words};
use std::alloc::Global;
use std::test::Fail;

/// Whether the file has these words, or none where none is given, and is cut off or not.
fn has(alloc: Global, bytes: &[u8], cut_off: bool, words: &[(u64, Option<u64>)]) -> bool {
    let Ok(contents) = read(alloc, bytes) else {
        return false;
    };
    let mut same = contents.cut_off == cut_off;
    for (address, word) in words {
        same = same && word_at(bytes, &contents, *address) == *word;
    }
    same
}

/// Words in both byte orders, and none beside them.
#[test]
fn both_orders(rt: HostRuntime) -> Result<(), Fail> {
    for order in 0..2 {
        let bytes = small(rt.alloc(), order)?;
        let words = [
            (0xfff8, None),
            (0x10000, Some(1)),
            (0x10018, Some(4)),
            (0x10020, None),
            (0x20000, Some(5)),
            (0x20018, Some(8)),
            (0x20020, None),
        ];
        assert!(rt; has(rt.alloc(), &bytes, false, &words));
    }
    Ok(())
}

/// A file of one thread and one segment of this start and size, whose bytes are the words 1, 2 and 3.
fn one_segment(alloc: Global, start: u64, size: u64) -> Result<Vec<u8>, Fail> {
    let mut body = Vec::new(alloc);
    put_status(&mut body, 0, 7)?;
    put_words(&mut body, 0, &[1, 2, 3])?;
    let headers: [Header; 2] = [(4, 176, 0, 60), (1, 236, start, size)];
    Ok(file(alloc, 0, &headers, &body)?)
}

/// A segment has the words whose eight bytes it has, wherever it begins.
#[test]
fn parts_of_words(rt: HostRuntime) -> Result<(), Fail> {
    let whole = one_segment(rt.alloc(), 0x10000, 24)?;
    assert!(rt;
        has(
            rt.alloc(),
            &whole,
            false,
            &[(0x10000, Some(1)), (0x10010, Some(3)), (0x10018, None)]
        )
    );
    let short = one_segment(rt.alloc(), 0x10000, 23)?;
    assert!(rt;
        has(
            rt.alloc(),
            &short,
            false,
            &[(0x10008, Some(2)), (0x10010, None)]
        )
    );
    let odd = one_segment(rt.alloc(), 0x10001, 24)?;
    assert!(rt;
        has(
            rt.alloc(),
            &odd,
            false,
            &[
                (0x10000, None),
                (0x10008, Some(2 << 8)),
                (0x10010, Some(3 << 8)),
                (0x10018, None)
            ]
        )
    );
    let seven = one_segment(rt.alloc(), 0x10001, 14)?;
    assert!(rt;
        has(
            rt.alloc(),
            &seven,
            false,
            &[(0x10000, None), (0x10008, None)]
        )
    );
    Ok(())
}

/// A file that ends inside a segment has the words in front of its end.
#[test]
fn cut_off(rt: HostRuntime) -> Result<(), Fail> {
    let mut bytes = one_segment(rt.alloc(), 0x10000, 24)?;
    bytes.truncate(236 + 23);
    assert!(rt;
        has(
            rt.alloc(),
            &bytes,
            true,
            &[(0x10008, Some(2)), (0x10010, None)]
        )
    );
    bytes.truncate(236 + 7);
    assert!(rt; has(rt.alloc(), &bytes, true, &[(0x10000, None)]));
    bytes.truncate(236);
    assert!(rt; has(rt.alloc(), &bytes, true, &[(0x10000, None)]));
    let far = one_segment(rt.alloc(), 0x10000, 0xffff_ffff_ffff_ffff)?;
    assert!(rt;
        has(
            rt.alloc(),
            &far,
            true,
            &[(0x10010, Some(3)), (0x10018, None)]
        )
    );
    Ok(())
}

/// Segments below a program's memory and above it are passed over.
#[test]
fn passed_over(rt: HostRuntime) -> Result<(), Fail> {
    let low = one_segment(rt.alloc(), 0xfff9, 24)?;
    assert!(rt; has(rt.alloc(), &low, false, &[(0x10000, None)]));
    let high = one_segment(rt.alloc(), 1 << 47, 24)?;
    assert!(rt; has(rt.alloc(), &high, false, &[(1 << 47, None)]));
    let last = one_segment(rt.alloc(), (1 << 47) - 8, 16)?;
    assert!(rt;
        has(
            rt.alloc(),
            &last,
            false,
            &[((1 << 47) - 8, Some(1)), (1 << 47, Some(2))]
        )
    );
    Ok(())
}

/// An ELF core has the words and the ids of the core for which it stands.
#[test]
fn elf_core(rt: HostRuntime) -> Result<(), Fail> {
    let bytes = odd(rt.alloc())?;
    let words = [
        (0x10000, Some(1)),
        (0x10008, Some(2)),
        (0x10010, Some(3)),
        (0x10018, Some(4)),
        (0x10020, None),
    ];
    assert!(rt; has(rt.alloc(), &bytes, false, &words));
    Ok(())
}

/// A file may be longer than an ELF core.
#[test]
fn long_file(rt: HostRuntime) -> Result<(), Fail> {
    let mut bytes = small(rt.alloc(), 0)?;
    let zeros = vec![in rt.alloc(); 0u8; 0x100_0000]?;
    bytes.extend_from_slice(&zeros)?;
    assert!(rt; has(rt.alloc(), &bytes, false, &[(0x10000, Some(1))]));
    let len = BODY + 184 + 0x100_0000;
    let why = ElfFault::TooLarge(len);
    let refused = match decode_elf(rt.alloc(), &bytes) {
        Ok(_) => false,
        Err(error) => error == ElfError::Fault { at: 0, why },
    };
    assert!(rt; refused);
    Ok(())
}
