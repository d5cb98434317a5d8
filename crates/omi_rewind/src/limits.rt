//! The limits of a rewind.

/// A copy of the words is kept behind each step whose number is a multiple of this, and of the opening words.
pub const COPY_EVERY: u64 = 65_536;

/// The last step that is made.
pub const LAST_STEP: u64 = 1_000_000;
