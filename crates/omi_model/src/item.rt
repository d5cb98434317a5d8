//! What a task, or a worker without a task, still has to do.

use crate::Freeable;
use omi_script::Stmt;

/// One item of a to-do list. Most stand for one event; a statement stands for the row of events that replaces it.
#[derive(Clone, Copy, Debug, PartialEq, Eq)]
pub enum Item {
    /// A statement.
    Do(Stmt),
    /// A worker begins.
    Begin,
    /// A worker may be claimed for a team.
    Offer,
    /// A worker serves in one team after another.
    Serve,
    /// The thread's state and wait id.
    State { state: u32, wait: u64 },
    Enter,
    Leave,
    /// The size of the team of a `parallel` construct, with its clause.
    Want { num: Option<u8> },
    /// Any number of asks for threads.
    Asks,
    /// A parallel region over `f` begins.
    Fork { f: u8 },
    /// Member 0 joins the others.
    Join,
    /// Another member ends.
    ImplicitEnd,
    Arrive,
    /// Any number of deferred tasks start. Each is followed by the wait's state again.
    Tasks { state: u32 },
    Release,
    Pass,
    /// A task over `f` is deferred in the first empty of four places, of which so many were seen taken. It starts at
    /// once where none is empty.
    Defer { seen: u8, f: u8, is_final: bool },
    /// A task over `f` starts at once.
    StartNow { f: u8, is_final: bool },
    Finish,
    /// What has just finished or was joined is given back.
    Frees { next: Freeable },
    WaitDone,
    /// A taskgroup region begins.
    GroupBegin,
    /// A taskgroup region ends.
    GroupEnd,
    /// At most one deferred task starts.
    OneTask,
    Yield,
    Set { icv: u32, value: u64 },
    SetTool { x: u64 },
    Lock { k: u8 },
    Unlock { k: u8 },
    Work,
    Call { f: u8 },
    Skip,
    Ret,
    Done,
}
