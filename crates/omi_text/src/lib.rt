//! The texts that are printed: a report of a state, line by line, and the line of an event.
#![tactic(auto)]

mod compact;
mod events;
mod head;
mod ids;
mod names;
mod numbers;
mod regions;
mod report;
mod short;
mod tasks;
mod threads;

pub use compact::push_compact_line;
pub use events::event_text;
pub use head::debug_word;
pub use ids::push_task;
pub use names::push_state;
pub use numbers::{push_decimal, push_hexadecimal};
pub use report::report_text;
pub use short::{SHORT_TEXT, ShortText};
pub use tasks::schedule_text;

/// Memory ran out.
pub type OutOfMemory = omi_word::OutOfMemory;
