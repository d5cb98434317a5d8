//! The limits of stops, and the numbers that acknowledgement words are made of.

/// The most stops of a run.
pub const MOST_STOPS: u8 = 8;

/// The number under which the inspector passes the gate. The threads have the numbers below it.
pub const INSPECTOR: u8 = 64;

/// The epoch behind the last stop: each stop has an odd one, and an even one behind it.
pub const LAST_EPOCH: u64 = 16;

/// The upper half of a word begins here: an acknowledgement holds an epoch in its upper half, and a number of steps in its lower one.
pub const HALF: u64 = 4_294_967_296;

/// The top bit of a word, which the acknowledgement of a worker has that has left.
pub const LEFT: u64 = 9_223_372_036_854_775_808;

/// The bit below it, which the acknowledgement of a worker has that runs.
pub const RUNS: u64 = 4_611_686_018_427_387_904;

/// Before its first step, and behind each so many, a worker says that it runs.
pub const STEPS_UNTOLD: u64 = 100;

/// So often the inspector looks at most for one more step, before it calls a stop.
pub const MOST_LOOKS: u64 = 1_000_000;

/// So often a worker for which a stop is due looks at most for its call. The other workers have to come there first.
pub const MOST_LOOKS_FOR_CALL: u64 = 10_000_000;
