//! Inquiries about tasks.
#![tactic(auto)]

mod compare;
mod ids;
mod tasks;
mod words;

pub use compare::{rel_task_handle, task_handle_compare};
pub use ids::task_id;
pub use tasks::{
    generating_task_of, get_curr_task_handle, get_generating_task_handle,
    get_scheduling_task_handle, get_task_in_parallel, scheduling_task_of,
};
pub use words::{Frames, frames_of, function_of, get_task_frame, get_task_function};
