//! Gates that hold threads, and calls of the two top calls over files in memory. For tests of running threads.
#![tactic(auto)]

mod calls;
mod gates;

pub use calls::{call, call_past, inspect};
pub use gates::{Leading, Meeting, Starting};
