//! The view of a state: what a report says of it, found by walking from the current tasks of its threads.
#![tactic(auto)]

mod chains;
mod contexts;
mod marking;
mod marks;
mod reported;
mod rows;
mod viewing;

pub use viewing::view_of;
