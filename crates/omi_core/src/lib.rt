//! Runs of many threads, step by step, under the rule.
#![tactic(auto)]

mod entry;
mod laws;
mod limits;
mod machine;
mod opening;
mod recorded;
mod recorder;
mod run;
mod schedule;
mod scheduled;
mod stepper;
mod stop;
mod thread_run;

pub use entry::Entry;
pub use laws::no_run_defers_behind_slots;
pub use limits::MOST_STEPS;
pub use omi_list::OutOfMemory;
pub use opening::opening_image;
pub use recorded::{Recorded, run_recorded};
pub use recorder::Recorder;
pub use run::{Core, list_event, turn_of};
pub use schedule::{Schedule, first_draw, next_draw, thread_at};
pub use stop::{Break, End, Stop, compact_end_at, end_at};
pub use thread_run::{RunList, ThreadRun, Until};
