//! The limit of runs of threads.

/// The most steps of each thread.
pub const MOST_BUDGET: u64 = 50_000;
