//! What seats at a table of words know of the threads of a program, and the run behind the words of the table.
#![tactic(auto)]

mod ends;
mod image;
mod known;
mod limits;
mod operation;
mod split_join;
mod start_gate;
mod step_log;
mod worker;
mod workers;

pub use ends::{ends_at, stops_at};
pub use image::{image_of, words_of};
pub use known::Known;
pub use limits::MOST_BUDGET;
pub use operation::apply;
pub use split_join::{First, Together};
pub use start_gate::{MOST_TURNS, StartGate};
pub use step_log::{Kept, StepLog};
pub use worker::Worker;
pub use workers::{Runner, all_joined, workers_at};
