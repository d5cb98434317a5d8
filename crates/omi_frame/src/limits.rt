//! The limits of what every program reads and prints. Each stands here alone: definitions, code and proofs name it.

use omi_script::limits::MAX_BYTES;

/// The most bytes that are read of a script: one more than a script may have.
pub const SCRIPT_FRONT: u64 = MAX_BYTES as u64 + 1;

/// The most bytes of a refusal's line besides the name of a file.
pub const LINE_ROOM: usize = 128;
