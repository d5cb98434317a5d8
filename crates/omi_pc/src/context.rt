//! What a thread knows of its current task.

use omi_model::{Rid, Tid};

/// What a thread knows of its current task. It is saved as a whole while another task runs on top of it.
#[derive(Clone, Copy)]
pub struct Context {
    pub task: Tid,
    pub region: Rid,
    /// The implicit task of this thread in the region. Its record has the slots for this thread's deferred tasks.
    pub row: Tid,
    /// The thread's number in the team.
    pub number: u64,
    /// The size of the team.
    pub size: u64,
    /// The barriers of the region at which this member has arrived.
    pub arrivals: u64,
    /// The task groups that the task has begun and not ended, 0 to 4.
    pub open_groups: u8,
    pub implicit: bool,
    pub is_final: bool,
    /// The length of the chain of scheduling tasks, this task included.
    pub depth: u16,
}
