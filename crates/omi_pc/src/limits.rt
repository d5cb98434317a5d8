//! The limits of a thread's actor. Each stands here alone: definitions, code and the crates above name it.

/// The bodies for which a control stack has room.
pub const STACK_ROOM: usize = 4_096;

/// The most bodies that are open at one time: 64 + 63 + .. + 1.
pub const MOST_BODIES: usize = 2_080;

/// The words of a data environment: dyn-var, the elements of nthreads-var, run-sched-var, default-device-var, and
/// four elements.
pub const VARIABLE_WORDS: usize = 8;

/// The words that are stored into the record of a region, beside its life word and its team.
pub const REGION_WORDS: u8 = 10;

/// The words that are stored into the record of a task, beside its life word.
pub const TASK_WORDS: u8 = 31;

/// The words that are stored into the record of a deferred task when it starts.
pub const START_WORDS: u8 = 5;
