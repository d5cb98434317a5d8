//! omi: what a tool's author needs to look into a target: the session and its inquiries, the names of what they answer, and whole calls
//! for what every tool does.
#![tactic(auto)]

mod chain;
mod fault;
mod lending;
mod lowest_first;
mod opened;
mod session;
mod target;
mod tool;
mod way;

pub use chain::{Chain, ChainError};
pub use fault::OpenError;
pub use lowest_first::LowestFirst;
pub use omi_ask::{
    get_curr_parallel_handle, get_enclosing_parallel_handle, get_task_parallel_handle,
    get_thread_handle, get_thread_id, get_thread_in_parallel, parallel_handle_compare, region_id,
    rel_parallel_handle, rel_thread_handle, thread_handle_compare, thread_number,
};
pub use omi_asktask::{
    Frames, get_curr_task_handle, get_generating_task_handle, get_scheduling_task_handle,
    get_task_frame, get_task_function, get_task_in_parallel, rel_task_handle, task_handle_compare,
    task_id,
};
pub use omi_calls::{
    CallbackFailed, Callbacks, CoreCalls, Got, MemCalls, Place, Sizes, Table, ToHost,
};
pub use omi_corefile::{CoreError, CoreImage, decode};
pub use omi_elf::ElfFault;
pub use omi_handle::{RegionHandle, TaskHandle, ThreadHandle};
pub use omi_icv::{
    Scoped, enumerate_icvs, enumerate_states, get_display_control_vars, get_icv_from_scope,
    get_icv_string_from_scope, get_state, get_tool_data,
};
pub use omi_model::{Id, Rid, Tid, View};
pub use omi_numbers::{
    ACTIVE_LEVELS_VAR, DEBUG_VAR, DEFAULT_DEVICE_VAR, DYN_VAR, FINAL_TASK_VAR, IMPLICIT_TASK_VAR,
    LEVELS_VAR, MAX_ACTIVE_LEVELS_VAR, NTHREADS_VAR, NUM_PROCS_VAR, RUN_SCHED_VAR, TEAM_SIZE_VAR,
    THREAD_NUM_VAR, UNDEFINED_STATE, UNDEFINED_VARIABLE, state_name, variable_name,
};
pub use omi_outside::{DiskFiles, Files, Refused, Sink, StdSink, hold_standard};
pub use omi_page::Pages;
pub use omi_session::{
    API_VERSION, Library, Parted, Rc, Session, get_api_version, get_version_string, initialize,
};
pub use omi_text::report_text;
pub use omi_walk::{KeptList, WalkFault, kept, walk};
pub use omi_word::Natives;
pub use opened::open_core;
pub use session::{session_of, session_over};
pub use target::OpenCore;
pub use tool::{Tool, look_into};
