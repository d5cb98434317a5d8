//! The numbers, names and addresses of this profile that the abstract machine, the memory, the report and the library share.
#![tactic(auto)]

mod addresses;
mod holders;
mod limits;
mod lives;
mod schedules;
mod states;
mod variables;
mod words;

pub use addresses::{
    ENTER_BELOW_EXIT, FIRST_FUNCTION, FIRST_STACK, FRAME_SIZE, FUNCTION_SIZE, STACK_SIZE,
    enter_frame, entry_address, exit_below, exit_frame, function_at,
};
pub use holders::{FREE_CLAIM, claimed_word, holder_word, lock_wait};
pub use limits::{OPEN_GROUPS, OWN_SLOTS};
pub use lives::{CODED_RECORDS, LIFE_END, life_word};
pub use schedules::{AUTO, DYNAMIC, GUIDED, STATIC, kind_name, kind_number};
pub use states::{
    IDLE, OVERHEAD, UNDEFINED_STATE, WAIT_BARRIER_EXPLICIT, WAIT_BARRIER_IMPLICIT_PARALLEL,
    WAIT_CRITICAL, WAIT_TASKGROUP, WAIT_TASKWAIT, WORK_PARALLEL, WORK_SERIAL, state_name,
};
pub use variables::{
    ACTIVE_LEVELS_VAR, DEBUG_VAR, DEFAULT_DEVICE_VAR, DYN_VAR, FINAL_TASK_VAR, IMPLICIT_TASK_VAR,
    LEVELS_VAR, MAX_ACTIVE_LEVELS_VAR, NTHREADS_VAR, NUM_PROCS_VAR, RUN_SCHED_VAR, TEAM_SIZE_VAR,
    THREAD_NUM_VAR, UNDEFINED_VARIABLE, variable_name,
};
pub use words::{
    CHUNK_PLACE, FIRST_NATIVE, OPENMP_VERSION, WAIT_PLACE, native_id, state_of, state_word, wait_of,
};
