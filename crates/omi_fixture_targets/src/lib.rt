//! Stopped runs as targets of a debugger: their words, changed or not, behind callbacks that count. For tests of the library.
#![tactic(auto)]

mod long;
mod stopped;
mod target;
mod words;

pub use long::{LONG_REGIONS, LONG_TASKS, long_chains};
pub use stopped::{Opened, Stopped, Wrong, after, at_fork, core_at, library, open, two_stops};
pub use target::{Asked, BIG, ByteOrder, LITTLE, Target};
pub use words::{Change, Words};
