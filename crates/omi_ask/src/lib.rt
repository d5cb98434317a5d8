//! Inquiries about threads and regions.
#![tactic(auto)]

mod compare;
mod ids;
mod regions;
mod threads;

pub use compare::{
    parallel_handle_compare, rel_parallel_handle, rel_thread_handle, thread_handle_compare,
};
pub use ids::{region_id, thread_number};
pub use regions::{
    current_region_of, enclosing_region_of, get_curr_parallel_handle,
    get_enclosing_parallel_handle, get_task_parallel_handle, region_of_task_of,
};
pub use threads::{
    get_thread_handle, get_thread_id, get_thread_in_parallel, native_id_of, thread_of_member_of,
    thread_with,
};
