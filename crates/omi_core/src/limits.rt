//! The limit of runs.

/// The most steps of a run: no count of arrivals wraps below it.
pub const MOST_STEPS: u64 = 1 << 56;
