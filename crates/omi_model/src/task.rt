//! A task of the machine, with its data environment.

use crate::{Freeable, Group, ItemList, Progress, Rid, Tid};
use omi_script::{NumList, Sched};

/// The internal control variables of a task's data environment.
#[derive(Drop)]
pub struct Variables {
    pub dynamic: bool,
    pub nthreads: NumList,
    pub schedule: Sched,
    pub device: u64,
}

/// A task. `thread` and `number` (in the team) are those of an implicit task from the fork on, and are set once an explicit
/// task starts; `place` is that of a deferred task; `exit` and `enter` are frame addresses. `frees` is what may be
/// given back next, in front of all that stands in the list. `group` is the task group that an explicit task is a member of,
/// and `open_groups` the number of those that the task has begun and not ended, 0 to 4.
#[derive(Drop)]
pub struct Task {
    pub implicit: bool,
    pub region: Rid,
    pub thread: u8,
    pub number: u64,
    pub generating: Option<Tid>,
    pub scheduling: Option<Tid>,
    pub function: u8,
    pub exit: u64,
    pub enter: u64,
    pub variables: Variables,
    pub is_final: bool,
    pub tool: u64,
    pub progress: Progress,
    pub place: u8,
    pub group: Option<Group>,
    pub open_groups: u8,
    pub frees: Option<Freeable>,
    pub list: ItemList,
}
