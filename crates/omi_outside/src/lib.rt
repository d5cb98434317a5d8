//! The outside of a program: named files and a sink, what they tell of their bytes, and counts of
//! their faults.
#![tactic(auto)]

mod contents;
mod disk;
mod fault;
mod files;
mod gate;
mod limits;
mod memory_files;
mod memory_sink;
mod never;
mod output;
mod sink;
mod status;
mod whole;

pub use disk::DiskFiles;
pub use fault::{Fault, Place};
pub use files::{Failed, Files, Refused};
pub use gate::{FreeGate, Gate};
pub use limits::PIECE;
pub use memory_files::{Call, MemFiles};
pub use memory_sink::MemSink;
pub use never::{NeverFiles, NeverSink};
pub use output::{StdSink, hold_standard};
pub use sink::Sink;
pub use status::Status;
pub use whole::{ReadError, put_whole, read_whole, write_whole};

/// Memory ran out.
pub type OutOfMemory = std::alloc::AllocError;
