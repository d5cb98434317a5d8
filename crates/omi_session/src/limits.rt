//! The limit of the handles that a session makes, far below the number of their serials.

/// A session in which handles are still made has made fewer than this, 2^40, before.
pub const HANDLES_BEFORE: u64 = 0x100_0000_0000;
