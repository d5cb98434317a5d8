// The limits of this crate. Each stands here alone: specs, code and tests name it.

/// The greatest number of bytes that are read, written or put at a time.
pub const PIECE: usize = 4096;
