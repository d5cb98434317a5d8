//! Files that end in their headers, for both readers of cores.

use omi_corefile::CoreFault;

/// Files that end in their headers, each with its fault and the fault's place.
pub const HEADERS: [(&[u8], u64, CoreFault); 17] = [
    (b"OMPDCOR2", 0, CoreFault::BadMagic),
    (b"XMPDCOR", 7, CoreFault::Short(7)),
    (b"OMPDCOR1", 8, CoreFault::Short(8)),
    (b"OMPDCOR1\x00", 8, CoreFault::Version(0)),
    (b"OMPDCOR1\x02\x01", 8, CoreFault::Version(2)),
    (b"OMPDCOR1\x01", 9, CoreFault::Short(9)),
    (b"OMPDCOR1\x01\x01", 10, CoreFault::Short(10)),
    (b"OMPDCOR1\x01\x02", 9, CoreFault::Order(2)),
    (b"OMPDCOR1\x01\xff\x00", 9, CoreFault::Order(255)),
    (b"OMPDCOR1\x01\x00\x41", 11, CoreFault::Short(11)),
    (b"OMPDCOR1\x01\x00\x41\x00", 10, CoreFault::BadContext(10)),
    (b"OMPDCOR1\x01\x00\x00\x01", 10, CoreFault::BadContext(10)),
    (
        b"OMPDCOR1\x01\x00\x40\x00\x41\x00\x00",
        15,
        CoreFault::Short(15),
    ),
    (
        b"OMPDCOR1\x01\x00\x40\x00\x41\x00\x00\x00",
        12,
        CoreFault::SegmentOrder(12),
    ),
    (
        b"OMPDCOR1\x01\x00\x40\x00\x00\x00\x00\x01",
        12,
        CoreFault::SegmentOrder(12),
    ),
    (
        b"OMPDCOR1\x01\x00\x40\x00\x40\x00\x00\x00",
        16,
        CoreFault::Short(16),
    ),
    (
        b"OMPDCOR1\x01\x00\x00\x00\x40\x00\x00\x00",
        16,
        CoreFault::Short(16),
    ),
];
