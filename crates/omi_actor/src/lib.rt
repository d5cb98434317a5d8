//! One thread's step: the operation that an actor makes next, and what comes of the word that it found.
#![tactic(auto)]

mod steps;

pub use steps::{advance, next, outcome, resume};
