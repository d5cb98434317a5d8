//! All that the program `ompdat` does: it goes to steps of a run and prints the report there, and finds the first step of a state.
#![tactic(auto)]

mod at;
mod command;
pub mod limits;
mod lines;
mod steps_word;
mod top;
mod turns;
mod usage;
mod when;

pub use top::rewind_top;
pub use usage::{rewind_complaint, rewind_forms};
