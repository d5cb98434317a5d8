//! Command lines: how a list of words is split into positional words and options, and how a text is
//! a number.
#![tactic(auto)]

mod line;
mod numbers;
mod text;

pub use line::{Line, LineError, split};
pub use numbers::{number, number_of};
pub use omi_list::OutOfMemory;
pub use text::{Text, TextList};
