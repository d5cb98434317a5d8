//! The limits of the machine, which definitions, code and proofs name.

use omi_script::limits::MAX_SIZE;

/// The most members of a team, the greatest size that is asked for: a team is kept in so many places.
pub const MOST_MEMBERS: usize = MAX_SIZE as usize;

/// A run has fewer events than this, 2^57: no memory holds a list of so many.
pub const MOST_EVENTS: u64 = 0x200_0000_0000_0000;
