//! The limit of an option that several programs have. It stands here alone: definitions, code and proofs name it.

/// The greatest number of a family of layouts.
pub const MOST_LAYOUT: u64 = 15;
