//! What a run leaves and prints: the core of its words, the lines of its events and threads, the view of an image, and what became of tasks
//! that were kept.
#![tactic(auto)]

mod cores;
mod event_lines;
mod image_view;
mod inquiries;
mod kept_tasks;
pub mod limits;
mod lines;
mod options;
mod run_lines;
mod usage;

pub use cores::{contexts_of, write_core};
pub use image_view::view_of;
pub use inquiries::{refusal_of_code, refusal_of_walk};
pub use kept_tasks::{KeptTasks, fates};
pub use lines::Lines;
pub use options::{break_named, has_option, layout_of};
pub use run_lines::{push_steps_line, runs_text};
pub use usage::{breakpoint_wanted, layout_wanted};
