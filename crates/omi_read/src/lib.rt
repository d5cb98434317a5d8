//! Pieces of files: reads that are as long as is wanted, and bytes in memory as a file that can be read so.
#![tactic(auto)]

mod pieces;
mod read_only;

pub use pieces::{fill, front};
pub use read_only::ReadOnly;
