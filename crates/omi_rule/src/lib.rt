//! The rule between any two atomic steps: where each thread stands against the state, and that each step keeps this.
#![tactic(auto)]

mod laws;

pub use laws::{events_leave_others, opening_keeps, steps_keep_rule, tasks_descend};
