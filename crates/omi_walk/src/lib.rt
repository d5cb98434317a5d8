//! The whole report of a target by inquiries: its header, its threads, its regions with their members, and the chains of its tasks.
#![tactic(auto)]

mod chain;
mod fault;
mod found;
mod head;
mod index;
mod laws;
mod limits;
mod members;
mod met;
mod numbers;
mod region_rows;
mod regions;
mod regions_met;
mod related;
mod scheduling;
mod task_handles;
mod task_rows;
mod tasks;
mod thread_rows;
mod threads;
mod view;
mod words;

pub use fault::WalkFault;
pub use laws::walk_looks;
pub use limits::HANDLES_WITHIN;
pub use task_handles::{KeptList, kept};
pub use view::walk;
