//! Handles: what a pair of key and serial stands for, from the call that makes it to its release.
#![tactic(auto)]

mod handle;
mod handles;
mod laws;

pub use handle::{Held, Kind, RegionHandle, TaskHandle, ThreadHandle};
pub use handles::Handles;
pub use laws::given_once;

/// Memory ran out.
pub type OutOfMemory = std::alloc::AllocError;
