//! The steps of work, calls, internal control variables, the tool word, critical regions and the end of the program.
#![tactic(auto)]

mod laws;
mod moves;
mod operations;
mod outcomes;
mod statements;
mod steps;

pub use laws::{plain_steps_fit, variables_are_set_as_rows_say};
pub use steps::{plain_move, plain_next, plain_outcome};
