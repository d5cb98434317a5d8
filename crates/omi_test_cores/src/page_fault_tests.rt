//! Each fault of a core file, at its place: files written out by hand, and those that end inside a core.

use crate::cores::three_segments;
use crate::headers::HEADERS;
use crate::sparing::Sparing;
use omi_corefile::{CoreFault, MOST_SEGMENT_WORDS};
use omi_page::{PageError, Pages};
use std::alloc::{AllocError, Global};
use std::test::Fail;

/// Whether a file is refused with this fault at this place, however few bytes a read gives.
fn is_refused(alloc: Global, bytes: &[u8], place: u64, fault: CoreFault) -> bool {
    let wanted = PageError::Fault {
        at: place,
        why: fault,
    };
    let mut refused = true;
    for most in [1, 5, 4096] {
        refused = refused
            && match Sparing::with(alloc, bytes, most, &[]) {
                Ok(mut files) => match Pages::over(alloc, &mut files, "c") {
                    Ok(_) => false,
                    Err(error) => error == wanted,
                },
                Err(_) => false,
            };
    }
    refused
}

/// A file with so many contexts and segments by its header, and these numbers behind it.
fn file(alloc: Global, contexts: u8, segments: u8, numbers: &[u64]) -> Result<Vec<u8>, AllocError> {
    let mut bytes = Vec::from_slice(alloc, b"OMPDCOR1\x01\x00")?;
    bytes.extend_from_slice(&[contexts, 0, segments, 0, 0, 0])?;
    for number in numbers {
        bytes.extend_from_slice(&number.to_le_bytes())?;
    }
    Ok(bytes)
}

#[test]
fn headers(rt: HostRuntime) {
    assert!(rt; is_refused(rt.alloc(), b"", 0, CoreFault::Short(0)));
    for (bytes, place, fault) in HEADERS {
        assert!(rt; is_refused(rt.alloc(), bytes, place, fault));
    }
}

#[test]
fn numbers(rt: HostRuntime) -> Result<(), Fail> {
    let greatest = MOST_SEGMENT_WORDS;
    let rows: [(u8, u8, &[u64], u64, CoreFault); 10] = [
        (2, 0, &[7], 24, CoreFault::Short(24)),
        (2, 0, &[7, 7], 24, CoreFault::BadContext(24)),
        (0, 1, &[0x10004], 16, CoreFault::SegmentOrder(16)),
        (0, 1, &[0xfff8], 16, CoreFault::SegmentOrder(16)),
        (0, 1, &[1 << 47], 16, CoreFault::SegmentOrder(16)),
        (0, 1, &[0x10000, 0], 24, CoreFault::SegmentOrder(24)),
        (
            0,
            1,
            &[0x10000, greatest + 1],
            24,
            CoreFault::TooLarge(greatest + 1),
        ),
        (
            0,
            2,
            &[0x10000, 1, 7, 0x10008, 1, 7],
            40,
            CoreFault::SegmentOrder(40),
        ),
        (
            0,
            2,
            &[0x10000, 1, 7, 0x20000, greatest],
            48,
            CoreFault::TooLarge(greatest),
        ),
        (0, 1, &[0x10000, 1, 7, 8], 40, CoreFault::Trailing(40)),
    ];
    for (contexts, segments, numbers, place, fault) in rows {
        let bytes = file(rt.alloc(), contexts, segments, numbers)?;
        assert!(rt; is_refused(rt.alloc(), &bytes, place, fault));
    }
    Ok(())
}

#[test]
fn truncated(rt: HostRuntime) -> Result<(), Fail> {
    let mut bytes = three_segments(rt.alloc())?;
    bytes.push(0)?;
    let len = bytes.len() as u64;
    let last = len.saturating_sub(1);
    assert!(rt; is_refused(rt.alloc(), &bytes, last, CoreFault::Trailing(last)));
    let mut left = len;
    for _ in 0..10 {
        bytes.pop();
        left = left.saturating_sub(1);
        if left < last {
            assert!(rt; is_refused(rt.alloc(), &bytes, left, CoreFault::Short(left)));
        }
    }
    Ok(())
}
