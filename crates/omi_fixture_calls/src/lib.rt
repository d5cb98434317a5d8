//! Calls of the top call over files in memory, and the cores that they leave. For tests of programs.
#![tactic(auto)]

mod calls;
mod older;

pub use calls::{CHANGED, EMPTY, call, call_over, core_of, core_with, run, with_word};
pub use older::opening_core_v1;
