//! What a report says.

use crate::{MemberRows, RegionRows, Rid, TaskRows, ThreadRows, Tid};
use omi_script::NumList;

/// What a report says: its header, and its rows of threads, regions and tasks in their order.
pub struct View {
    pub head: HeadRow,
    pub threads: ThreadRows,
    pub regions: RegionRows,
    pub tasks: TaskRows,
}

// Written out: docs/DECISIONS.md, "A drop written out".
impl Drop for View {
    fn drop(self) {
        let View {
            head: _head,
            threads: _threads,
            regions: _regions,
            tasks: _tasks,
        } = self;
    }
}

/// The two header lines. `debug` is 0 where states are not kept.
#[derive(Clone, Copy)]
pub struct HeadRow {
    pub version: u64,
    pub threads: u8,
    pub debug: u64,
    pub procs: u64,
    pub max_active: u64,
}

/// A context by its native id, and the thread that has it, if one has begun.
#[derive(Clone, Copy)]
pub struct ThreadRow {
    pub native: u64,
    pub found: Option<ThreadPart>,
}

/// A thread. `state` is its state and wait id, None where states are not kept; `number` is its number in the team of its
/// current task.
#[derive(Clone, Copy)]
pub struct ThreadPart {
    pub thread: u8,
    pub state: Option<(u32, u64)>,
    pub number: Option<u64>,
    pub current: Option<Tid>,
}

/// A region and its members. `func` is an entry address.
#[derive(Drop)]
pub struct RegionRow {
    pub region: Rid,
    pub func: u64,
    pub levels: u64,
    pub active: u64,
    pub size: u64,
    pub enclosing: Option<Rid>,
    pub members: MemberRows,
}

/// A member of a region: its thread and its implicit task.
#[derive(Clone, Copy)]
pub struct MemberRow {
    pub thread: u8,
    pub task: Tid,
}

/// A task on the chain of a thread, with its data environment. `implicit` is not 0 for an implicit task; `func`, `exit` and
/// `enter` are addresses; `sched` is the chunk times 8 plus the kind.
#[derive(Drop)]
pub struct TaskRow {
    pub task: Tid,
    pub thread: u8,
    pub implicit: u64,
    pub region: Rid,
    pub func: u64,
    pub generating: Option<Tid>,
    pub scheduling: Option<Tid>,
    pub exit: u64,
    pub enter: u64,
    pub tool: u64,
    pub dyn_var: u64,
    pub nthreads: NumList,
    pub sched: u64,
    pub device: u64,
    pub final_task: u64,
}
