//! The callbacks of a debugger: how a tool asks it for the words and the symbols of a target.
#![tactic(auto)]

mod callbacks;
mod core_calls;
mod core_words;
mod laws;
mod memory;
mod table;

pub use callbacks::{Callbacks, Got, Place, Sizes};
pub use core_calls::CoreCalls;
pub use laws::core_tells_memory;
pub use memory::MemCalls;
pub use table::{CallbackFailed, Table, ToHost};
