//! Function bodies that are open.

use crate::Context;

/// A barrier: that of a `barrier` construct, or the one at the end of a region.
#[derive(Clone, Copy)]
pub enum Barrier {
    Explicit,
    Implicit,
}

/// Where a task waits and deferred tasks may start.
#[derive(Clone, Copy)]
pub enum Wait {
    Barrier { barrier: Barrier },
    Taskwait,
    Taskyield,
    /// The end of a taskgroup region.
    Taskgroup,
}

/// How a body was opened.
#[derive(Clone, Copy)]
pub enum Opened {
    /// As the initial task.
    Main,
    /// As the implicit task of a member but member 0.
    Worker,
    /// As the implicit task of member 0. The context of the encountering task is saved.
    Master { saved: Context },
    /// As an explicit task, which was taken from a slot in a wait or started at once. The context of the task that it
    /// was scheduled from is saved.
    Task { wait: Option<Wait>, saved: Context },
    /// By `call`, or by `only` for this member.
    Call,
    /// By `repeat`, with so many rounds left, this one included.
    Repeat { left: u16 },
    /// By `critical`, under this lock.
    Critical { lock: u8 },
    /// By `taskgroup`.
    Taskgroup,
}

/// The open body of a function. `next` is the position of the next statement; the one before it is in work.
#[derive(Clone, Copy)]
pub struct Frame {
    pub function: u8,
    pub next: u16,
    pub opened: Opened,
}
