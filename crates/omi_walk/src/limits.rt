//! A limit of the handles that a session makes, far below the number of their serials.

/// In a walk a session has made fewer handles than this, 2^57.
pub const HANDLES_WITHIN: u64 = 0x200_0000_0000_0000;
