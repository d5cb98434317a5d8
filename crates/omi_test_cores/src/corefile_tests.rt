//! Worked files: each field at its limits, each fault at its place, and the greatest core.

use crate::headers::HEADERS;
use omi_corefile::{CoreError, CoreFault, CoreImage, core_bytes_of, core_of, decode, encode};
use omi_word::{FIRST_ADDRESS, Image, Natives, Op};
use std::alloc::{AllocError, Global};
use std::process::Abort;
use std::test::*;

/// The core of the words 1, 2^63 and 0x0102030405060708, and of the context 1000, written out by hand.
const THREE_WORDS: [u8; 64] = [
    79, 77, 80, 68, 67, 79, 82, 49, 1, 0, 1, 0, 1, 0, 0, 0, 0xe8, 3, 0, 0, 0, 0, 0, 0, 0, 0, 1, 0,
    0, 0, 0, 0, 3, 0, 0, 0, 0, 0, 0, 0, 1, 0, 0, 0, 0, 0, 0, 0, 0, 0, 0, 0, 0, 0, 0, 0x80, 8, 7, 6,
    5, 4, 3, 2, 1,
];

/// The same in order 1, written out by hand: only byte 9 and the words differ.
const THREE_BIG_WORDS: [u8; 64] = [
    79, 77, 80, 68, 67, 79, 82, 49, 1, 1, 1, 0, 1, 0, 0, 0, 0xe8, 3, 0, 0, 0, 0, 0, 0, 0, 0, 1, 0,
    0, 0, 0, 0, 3, 0, 0, 0, 0, 0, 0, 0, 0, 0, 0, 0, 0, 0, 0, 1, 0x80, 0, 0, 0, 0, 0, 0, 0, 1, 2, 3,
    4, 5, 6, 7, 8,
];

/// The core of no words and no contexts.
const NOTHING: [u8; 16] = [79, 77, 80, 68, 67, 79, 82, 49, 1, 0, 0, 0, 0, 0, 0, 0];

/// The image of the words 1, 2^63 and 0x0102030405060708.
fn three(alloc: Global) -> Result<Image, AllocError> {
    let mut image = Image::zeroed(alloc, 3)?;
    image.apply(Op::Store {
        at: FIRST_ADDRESS,
        new: 1,
    });
    image.apply(Op::Store {
        at: 0x10008,
        new: 1 << 63,
    });
    image.apply(Op::Store {
        at: 0x10010,
        new: 0x0102030405060708,
    });
    Ok(image)
}

#[test]
fn three_words(rt: HostRuntime) -> Result<(), Fail> {
    let image = three(rt.alloc())?;
    let mut contexts = Natives::new(rt.alloc());
    contexts.push(1000)?;
    let core = core_of(rt.alloc(), &image, &contexts, 0)?;
    assert_eq!(rt; core.segments.len(), 1);
    let bytes = encode(rt.alloc(), &core)?;
    assert_eq!(rt; bytes.as_slice(), THREE_WORDS.as_slice());
    let at_once = core_bytes_of(rt.alloc(), &image, &contexts)?;
    assert_eq!(rt; at_once.as_slice(), THREE_WORDS.as_slice());
    let big = core_of(rt.alloc(), &image, &contexts, 1)?;
    let bytes = encode(rt.alloc(), &big)?;
    assert_eq!(rt; bytes.as_slice(), THREE_BIG_WORDS.as_slice());
    Ok(())
}

#[test]
fn another_order(rt: HostRuntime) -> Result<(), Fail> {
    let alloc = rt.alloc();
    let big = decode(alloc, &THREE_WORDS)?.with_order(1);
    let bytes = encode(alloc, &big)?;
    assert_eq!(rt; bytes.as_slice(), THREE_BIG_WORDS.as_slice());
    let little = decode(alloc, &THREE_BIG_WORDS)?.with_order(0);
    let bytes = encode(alloc, &little)?;
    assert_eq!(rt; bytes.as_slice(), THREE_WORDS.as_slice());
    Ok(())
}

#[test]
fn no_words(rt: HostRuntime) -> Result<(), Fail> {
    let image = Image::zeroed(rt.alloc(), 0)?;
    let contexts = Natives::new(rt.alloc());
    let bytes = core_bytes_of(rt.alloc(), &image, &contexts)?;
    assert_eq!(rt; bytes.as_slice(), NOTHING.as_slice());
    Ok(())
}

#[test]
fn read_again(rt: HostRuntime) -> Result<(), Fail> {
    let little = decode(rt.alloc(), &THREE_WORDS)?;
    expect_three(&rt, &little, 0);
    let big = decode(rt.alloc(), &THREE_BIG_WORDS)?;
    expect_three(&rt, &big, 1);
    Ok(())
}

/// The core has this order, the context 1000 and the three words.
fn expect_three(rt: &impl Abort, core: &CoreImage, order: u8) {
    assert_eq!(rt; core.order, order);
    assert_eq!(rt; core.contexts.as_slice(), [1000u64].as_slice());
    assert_eq!(rt; core.segments.len(), 1);
    let segment = core.segments.get(0);
    assert_eq!(rt; segment.start, FIRST_ADDRESS);
    let words = [1u64, 1 << 63, 0x0102030405060708];
    assert_eq!(rt; segment.words.as_slice(), words.as_slice());
}

/// The file is refused with this fault at this place.
fn is_refused(alloc: Global, bytes: &[u8], place: u64, fault: CoreFault) -> bool {
    match decode(alloc, bytes) {
        Err(CoreError::Fault { at, why }) => at == place && why == fault,
        _ => false,
    }
}

#[test]
fn truncated(rt: HostRuntime) {
    for missing in 1..10 {
        let len = 64 - missing;
        let at = len as u64;
        assert!(rt; is_refused(rt.alloc(), &THREE_WORDS[..len], at, CoreFault::Short(at)));
    }
    assert!(rt; is_refused(rt.alloc(), b"", 0, CoreFault::Short(0)));
}

#[test]
fn one_byte_more(rt: HostRuntime) -> Result<(), Fail> {
    let mut bytes = Vec::from_slice(rt.alloc(), &THREE_WORDS)?;
    bytes.push(0)?;
    assert!(rt; is_refused(rt.alloc(), &bytes, 64, CoreFault::Trailing(64)));
    Ok(())
}

/// Each file is refused with its fault at its place.
fn refuse_all(rt: &impl Abort, alloc: Global, rows: &[(&[u8], u64, CoreFault)]) {
    for (bytes, at, why) in rows {
        assert!(rt; is_refused(alloc, bytes, *at, *why), "{why:?}");
    }
}

#[test]
fn headers(rt: HostRuntime) {
    refuse_all(&rt, rt.alloc(), &HEADERS);
}

/// A file with these counts, and these numbers after its header.
fn file(alloc: Global, contexts: u8, segments: u8, numbers: &[u64]) -> Result<Vec<u8>, AllocError> {
    let mut bytes = Vec::from_slice(alloc, b"OMPDCOR1\x01\x00")?;
    bytes.extend_from_slice(&[contexts, 0, segments, 0, 0, 0])?;
    for number in numbers {
        bytes.extend_from_slice(&number.to_le_bytes())?;
    }
    Ok(bytes)
}

const MAX: u64 = u64::MAX;

const LAST: u64 = (1 << 47) - 8;

/// Files that are cores: the counts of contexts and segments, and the numbers after the header.
const GOOD: [(u8, u8, &[u64]); 5] = [
    (2, 0, &[5, 6]),
    (2, 0, &[0, MAX]),
    (0, 1, &[FIRST_ADDRESS, 1, 7]),
    (0, 1, &[LAST, 1, 7]),
    (0, 2, &[FIRST_ADDRESS, 1, 7, 0x10010, 1, 8]),
];

/// Files with a fault after the header, and the fault's place.
const BAD: [(u8, u8, &[u64], u64, CoreFault); 21] = [
    (2, 0, &[5, 5], 24, CoreFault::BadContext(24)),
    (3, 0, &[5, 6, 2], 32, CoreFault::BadContext(32)),
    (2, 0, &[MAX, 0], 24, CoreFault::BadContext(24)),
    (2, 0, &[MAX, MAX], 24, CoreFault::BadContext(24)),
    (2, 0, &[7], 24, CoreFault::Short(24)),
    (0, 1, &[0xfff8, 1, 7], 16, CoreFault::SegmentOrder(16)),
    (0, 1, &[0x10004, 1, 7], 16, CoreFault::SegmentOrder(16)),
    (0, 1, &[1 << 47, 1, 7], 16, CoreFault::SegmentOrder(16)),
    (0, 1, &[MAX - 7], 16, CoreFault::SegmentOrder(16)),
    (
        0,
        2,
        &[FIRST_ADDRESS, 1, 7, 0x10008, 1, 8],
        40,
        CoreFault::SegmentOrder(40),
    ),
    (
        0,
        2,
        &[FIRST_ADDRESS, 1, 7, FIRST_ADDRESS, 1, 8],
        40,
        CoreFault::SegmentOrder(40),
    ),
    (
        0,
        2,
        &[FIRST_ADDRESS, 2, 7, 7, 0x10010, 1, 8],
        48,
        CoreFault::SegmentOrder(48),
    ),
    (
        0,
        2,
        &[LAST, 1, 7, LAST + 16],
        40,
        CoreFault::SegmentOrder(40),
    ),
    (0, 1, &[FIRST_ADDRESS, 0], 24, CoreFault::SegmentOrder(24)),
    (0, 1, &[FIRST_ADDRESS, 1048576], 32, CoreFault::Short(32)),
    (
        0,
        1,
        &[FIRST_ADDRESS, 1048577],
        24,
        CoreFault::TooLarge(1048577),
    ),
    (0, 1, &[FIRST_ADDRESS, MAX], 24, CoreFault::TooLarge(MAX)),
    (
        0,
        2,
        &[FIRST_ADDRESS, 2, 7, 7, 0x20000, 1048574],
        64,
        CoreFault::Short(64),
    ),
    (
        0,
        2,
        &[FIRST_ADDRESS, 2, 7, 7, 0x20000, 1048575],
        56,
        CoreFault::TooLarge(1048575),
    ),
    (0, 1, &[FIRST_ADDRESS, 1, 7, 9], 40, CoreFault::Trailing(40)),
    (0, 0, &[9], 16, CoreFault::Trailing(16)),
];

/// Each file is a core.
fn read_files(rt: &impl Abort, alloc: Global, rows: &[(u8, u8, &[u64])]) -> Result<(), AllocError> {
    for (contexts, segments, numbers) in rows {
        let bytes = file(alloc, *contexts, *segments, numbers)?;
        assert!(rt; decode(alloc, &bytes).is_ok(), "{numbers:?}");
    }
    Ok(())
}

/// Each file is refused with its fault at its place.
fn refuse_files(
    rt: &impl Abort,
    alloc: Global,
    rows: &[(u8, u8, &[u64], u64, CoreFault)],
) -> Result<(), AllocError> {
    for (contexts, segments, numbers, at, why) in rows {
        let bytes = file(alloc, *contexts, *segments, numbers)?;
        assert!(rt; is_refused(alloc, &bytes, *at, *why), "{numbers:?}");
    }
    Ok(())
}

#[test]
fn numbers(rt: HostRuntime) -> Result<(), Fail> {
    read_files(&rt, rt.alloc(), &GOOD)?;
    refuse_files(&rt, rt.alloc(), &BAD)?;
    Ok(())
}

#[test]
fn most_contexts(rt: HostRuntime) -> Result<(), Fail> {
    let mut ids = Vec::new(rt.alloc());
    for at in 0..64u64 {
        ids.push(3 * at)?;
    }
    let bytes = file(rt.alloc(), 64, 0, &ids)?;
    let core = decode(rt.alloc(), &bytes)?;
    assert_eq!(rt; core.contexts.as_slice(), ids.as_slice());
    Ok(())
}

#[test]
fn most_segments(rt: HostRuntime) -> Result<(), Fail> {
    let mut numbers = Vec::new(rt.alloc());
    for at in 0..64u64 {
        numbers.extend_from_slice(&[FIRST_ADDRESS + 16 * at, 1, at])?;
    }
    let bytes = file(rt.alloc(), 0, 64, &numbers)?;
    let core = decode(rt.alloc(), &bytes)?;
    assert_eq!(rt; core.segments.len(), 64);
    assert_eq!(rt; core.segments.get(63).start, 0x103f0);
    let again = encode(rt.alloc(), &core)?;
    assert_eq!(rt; again.as_slice(), bytes.as_slice());
    Ok(())
}

#[test]
fn most_words(rt: HostRuntime) -> Result<(), Fail> {
    let numbers = vec![in rt.alloc(); 9u64; 1048576]?;
    let mut bytes = file(rt.alloc(), 0, 1, &[FIRST_ADDRESS, 1048576])?;
    for number in &numbers {
        bytes.extend_from_slice(&number.to_le_bytes())?;
    }
    let core = decode(rt.alloc(), &bytes)?;
    assert_eq!(rt; core.segments.len(), 1);
    assert_eq!(rt; core.segments.get(0).words.len(), 1048576);
    Ok(())
}

/// The faults with their numbers and names.
const NAMES: [(CoreFault, u8, &str); 8] = [
    (CoreFault::BadMagic, 1, "BadMagic"),
    (CoreFault::Version(2), 2, "Version"),
    (CoreFault::Order(2), 3, "Order"),
    (CoreFault::Short(3), 4, "Short"),
    (CoreFault::TooLarge(3), 5, "TooLarge"),
    (CoreFault::SegmentOrder(3), 6, "SegmentOrder"),
    (CoreFault::BadContext(3), 7, "BadContext"),
    (CoreFault::Trailing(3), 8, "Trailing"),
];

/// Each fault has its number and its name.
fn expect_names(rt: &impl Abort, rows: &[(CoreFault, u8, &str)]) {
    for (fault, number, name) in rows {
        assert_eq!(rt; (fault.number(), fault.text()), (*number, *name));
    }
}

#[test]
fn names(rt: HostRuntime) -> Result<(), Fail> {
    expect_names(&rt, &NAMES);
    let error = CoreError::Fault {
        at: 3,
        why: CoreFault::Short(3),
    };
    let text = format!(in rt.alloc(); "{error}")?;
    assert_eq!(rt; text.as_str(), "no core: Short(3) at 3");
    Ok(())
}
