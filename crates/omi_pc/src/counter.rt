//! Program counters, by family, and those of the plain family.

use crate::{
    BarrierCounter, FinishCounter, JoinCounter, LookCounter, TaskCounter, TeamCounter,
    WorkerCounter,
};

/// A counter of a thread that works, sets a variable, or takes or gives back a lock.
#[derive(Clone, Copy)]
pub enum PlainCounter {
    Work,
    Call,
    Skip,
    Return,
    /// The store of an internal control variable.
    Set,
    /// The store of the tool word.
    Tool,
    /// The store of the enter frame.
    Enter,
    /// The store that clears the enter frame.
    Leave,
    /// The store of a working state.
    WorkState,
    /// The store of the state of a thread that waits for a lock.
    LockState,
    Lock,
    Unlock,
    /// The store of the number of open groups, one more.
    GroupBegin,
    Done,
    /// After `done`.
    Ended,
}

/// A program counter: the next atomic step, with what it needs to know beside the actor's other parts. Teams have the
/// first four families, explicit tasks the next three, and everything else is plain.
#[derive(Clone, Copy)]
pub enum Counter {
    Worker(WorkerCounter),
    Team(TeamCounter),
    Barrier(BarrierCounter),
    Join(JoinCounter),
    Task(TaskCounter),
    Look(LookCounter),
    Finish(FinishCounter),
    Plain(PlainCounter),
}
