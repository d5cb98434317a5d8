//! The words of a line, and what a call of a program leaves over files in memory. For tests of programs.
#![tactic(auto)]

mod done;
mod line;

pub use done::Done;
pub use line::{split, words};
