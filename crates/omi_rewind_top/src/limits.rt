//! The limits of the commands.

/// The most steps that one command goes to.
pub const MOST_JUMPS: usize = 16;

/// The greatest number that a thread's number may be.
pub const MOST_NUMBER: u64 = u64::MAX;
