//! A run that goes back and forward: it keeps its steps and copies of its words, reaches the words behind any step, and finds the first
//! step behind which a test holds.
#![tactic(auto)]

mod limits;
mod rewind;
mod test;

pub use limits::{COPY_EVERY, LAST_STEP};
pub use omi_word::OutOfMemory;
pub use rewind::{At, Rewind};
pub use test::{ImageTest, Kept, Test};
