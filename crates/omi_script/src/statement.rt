//! Statements, and lists of them.
ghost use Rattle.std.specs.Prelude.{◌≡◌};
ghost use Rattle.omi_script.specs.Constructs.{over};
ghost use Rattle.omi_script.specs.Schedules.{schedule_word};

use omi_list::{List, OutOfMemory, Same};
use omi_numbers::CHUNK_PLACE;
use std::alloc::Global;

/// A schedule: its kind (1 static, 2 dynamic, 3 guided, 4 auto) and its chunk size.
#[derive(Clone, Copy, Debug, PartialEq, Eq)]
pub struct Sched {
    pub kind: u8,
    pub chunk: u16,
}

impl Sched {
    /// The schedule as one word: its chunk, and behind it its kind.
    pub fn word(self) -> u64
        ensures { result ≡ schedule_word self }
    {
        u64::from(self.chunk) * CHUNK_PLACE + u64::from(self.kind)
    }
}

/// A statement. `f` is the number of a function.
#[derive(Clone, Copy, Debug, PartialEq, Eq)]
pub enum Stmt {
    /// A parallel region over `f`, with the clause `num_threads` where `num` is given.
    Parallel {
        f: u8,
        num: Option<u8>,
    },
    /// An explicit task over `f`. `undeferred` is `if 0`, and `is_final` is `final 1`.
    Task {
        f: u8,
        undeferred: bool,
        is_final: bool,
    },
    Taskwait,
    Taskyield,
    Barrier,
    /// A critical region over `f`, under lock `k`.
    Critical {
        k: u8,
        f: u8,
    },
    /// A taskgroup region over `f`.
    Taskgroup {
        f: u8,
    },
    /// A plain call of `f`.
    Call {
        f: u8,
    },
    /// A call of `f` by the thread with number `m` in its team.
    Only {
        m: u8,
        f: u8,
    },
    /// `n` calls of `f`, one after another.
    Repeat {
        n: u16,
        f: u8,
    },
    SetNumThreads(u8),
    SetDynamic(bool),
    SetMaxActive(u8),
    SetSchedule(Sched),
    SetDevice(u8),
    /// Stores a word for a tool at the task.
    Tool(u64),
    Work,
}

/// A statement over a function, but for that function.
#[derive(Clone, Copy, Debug, PartialEq, Eq)]
pub enum Construct {
    /// `parallel F` or `parallel F num N`
    Parallel { num: Option<u8> },
    /// `task F`, with `if 0` where it is undeferred, and `final 1` where it is final.
    Task { undeferred: bool, is_final: bool },
    /// `critical K F`
    Critical { k: u8 },
    /// `taskgroup F`
    Taskgroup,
    /// `call F`
    Call,
    /// `only M F`
    Only { m: u8 },
    /// `repeat N F`
    Repeat { n: u16 },
}

impl Construct {
    /// The statement over the function with a number.
    pub fn over(self, f: u8) -> Stmt
        ensures { result ≡ over self f }
    {
        match self {
            Construct::Parallel { num } => Stmt::Parallel { f, num },
            Construct::Task {
                undeferred,
                is_final,
            } => Stmt::Task {
                f,
                undeferred,
                is_final,
            },
            Construct::Critical { k } => Stmt::Critical { k, f },
            Construct::Taskgroup => Stmt::Taskgroup { f },
            Construct::Call => Stmt::Call { f },
            Construct::Only { m } => Stmt::Only { m, f },
            Construct::Repeat { n } => Stmt::Repeat { n, f },
        }
    }
}

/// The statements of a function.
pub type StmtList = List<Stmt>;

impl Same for Stmt {
    fn same(&self, _alloc: Global) -> Result<Stmt, OutOfMemory> {
        Ok(*self)
    }
}
