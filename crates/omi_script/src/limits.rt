//! The limits of the workload language. Each stands here alone, for definitions, code and tests.

/// The most bytes of a script.
pub const MAX_BYTES: usize = 65_536;

/// The most bytes of a name.
pub const MAX_NAME: usize = 32;

/// The most functions of a script.
pub const MAX_FUNCTIONS: usize = 64;

/// The most statements of a script.
pub const MAX_STATEMENTS: usize = 4_096;

/// The most parallel regions, one inside another.
pub const MAX_DEPTH: usize = 15;

/// The most threads of a program, at most `MAX_SIZE`.
pub const MAX_THREADS: u8 = 64;

/// The greatest size of a team, as it is asked for.
pub const MAX_SIZE: u8 = 64;

/// The most elements of nthreads-var.
pub const MAX_SIZES: usize = 4;

/// The greatest value of max-active-levels-var.
pub const MAX_LEVELS: u8 = 255;

/// The greatest number of a device.
pub const MAX_DEVICE: u8 = 255;

/// The greatest chunk of a schedule.
pub const MAX_CHUNK: u16 = 65_535;

/// The most processors.
pub const MAX_PROCS: u16 = 65_535;

/// The greatest number of a lock.
pub const MAX_LOCK: u8 = 7;

/// The greatest number of a thread in its team.
pub const MAX_MEMBER: u8 = 63;

/// The most calls of a `repeat`.
pub const MAX_REPEATS: u16 = 1_000;
