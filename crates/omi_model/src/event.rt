//! The events of the machine.

use crate::{Rid, Team, Tid};

/// What a step may commit: an event of the OpenMP machine, by one thread.
#[derive(Clone, Copy, Debug, PartialEq, Eq)]
pub enum Event {
    /// The thread has begun.
    Begin,
    /// The thread may be claimed for a team.
    Offer,
    /// The thread wants a team of this size.
    Want { n: u8 },
    /// The thread asked thread `w` to join its team.
    Ask { w: u8, got: bool },
    /// A parallel region begins.
    Fork { region: Rid, team: Team },
    /// An implicit task begins.
    ImplicitBegin { task: Tid },
    /// The thread's state and wait id.
    State { state: u32, wait: u64 },
    /// The current task enters the runtime.
    Enter,
    /// The current task leaves the runtime.
    Leave,
    /// The current task arrives at a barrier.
    Arrive,
    /// Member 0 releases a barrier.
    Release,
    /// The current task passes a released barrier.
    Pass,
    /// An implicit task ends.
    ImplicitEnd { task: Tid },
    /// A parallel region ends.
    Join { region: Rid },
    /// The record of a task is given back.
    FreeTask { task: Tid },
    /// The record of a region is given back.
    FreeRegion { region: Rid },
    /// The slot `j` for deferred tasks was found taken.
    Seen { j: u8 },
    /// A new task is deferred.
    Defer { task: Tid },
    /// A new task starts at once.
    StartNow { task: Tid },
    /// A deferred task starts.
    Start { task: Tid },
    /// An explicit task finishes.
    Finish { task: Tid },
    /// The children of the current task have finished.
    WaitDone,
    /// A taskgroup region begins: the current task has a group more open.
    GroupBegin,
    /// A taskgroup region ends: every task of the current task's innermost group has finished.
    GroupEnd,
    /// A task yields.
    Yield,
    /// An internal control variable is set, by its number, to this word.
    Set { icv: u32, value: u64 },
    /// The tool word of the current task is set.
    SetTool { x: u64 },
    /// The lock of a critical name is taken.
    Lock { k: u8 },
    /// The lock of a critical name is given back.
    Unlock { k: u8 },
    /// A unit of work.
    Work,
    /// A function is called, by its number.
    Call { f: u8 },
    /// A statement is passed over.
    Skip,
    /// A function returns.
    Ret,
    /// The program is done.
    Done,
}
