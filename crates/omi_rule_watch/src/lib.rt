//! The watch of a thread: how many quiet steps it makes in a row, the look at the slots before it waits, and the order in which it
//! searches for a free record.
#![tactic(auto)]

mod laws;

pub use laws::{openings_give_watch, quiet_steps_are_few, steps_keep_watch, words_are_one};
