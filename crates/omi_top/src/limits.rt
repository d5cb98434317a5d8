//! The limits of commands. Each stands here alone: definitions, code and proofs name it.

use omi_corefile::MOST_BYTES;

/// The most steps of a run.
pub const MOST_STEPS: u64 = 1_000_000;

/// The greatest seed of pseudo-random numbers.
pub const MOST_SEED: u64 = u64::MAX;

/// The greatest number of the event at which a run stops, among those of its kind.
pub const MOST_COUNT: u64 = 1_000_000;

/// The most times that a workload of `make` repeats its pair of tasks.
pub const MOST_NODES: u64 = 1_000;

/// The most bytes that are read of a core that is read whole: one more than a core may have.
pub const CORE_FRONT: u64 = MOST_BYTES + 1;
