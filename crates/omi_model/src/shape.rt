//! Shapes of statements: the statements that set an internal control variable have one.

ghost use Rattle.std.specs.Prelude.{◌≡◌};
ghost use Rattle.omi_model.specs.Shapes.{shape_of};

use omi_numbers::{
    DEFAULT_DEVICE_VAR, DYN_VAR, MAX_ACTIVE_LEVELS_VAR, NTHREADS_VAR, RUN_SCHED_VAR,
};
use omi_script::Stmt;

/// What a statement does.
#[derive(Clone, Copy)]
pub enum Shape {
    Parallel {
        f: u8,
        num: Option<u8>,
    },
    Task {
        f: u8,
        undeferred: bool,
        is_final: bool,
    },
    Taskwait,
    Taskyield,
    Barrier,
    Critical {
        k: u8,
        f: u8,
    },
    Taskgroup {
        f: u8,
    },
    Call {
        f: u8,
    },
    Only {
        m: u8,
        f: u8,
    },
    Repeat {
        n: u16,
        f: u8,
    },
    /// The internal control variable with this number gets this word: a number as it is, a flag as 0 or 1, and a
    /// schedule as its chunk times 8 plus its kind.
    Sets {
        variable: u32,
        word: u64,
    },
    Tool(u64),
    Work,
}

impl Shape {
    /// The shape of a statement.
    pub fn of(s: &Stmt) -> Shape
        ensures { result ≡ shape_of s.now }
    {
        match *s {
            Stmt::Parallel { f, num } => Shape::Parallel { f, num },
            Stmt::Task {
                f,
                undeferred,
                is_final,
            } => Shape::Task {
                f,
                undeferred,
                is_final,
            },
            Stmt::Taskwait => Shape::Taskwait,
            Stmt::Taskyield => Shape::Taskyield,
            Stmt::Barrier => Shape::Barrier,
            Stmt::Critical { k, f } => Shape::Critical { k, f },
            Stmt::Taskgroup { f } => Shape::Taskgroup { f },
            Stmt::Call { f } => Shape::Call { f },
            Stmt::Only { m, f } => Shape::Only { m, f },
            Stmt::Repeat { n, f } => Shape::Repeat { n, f },
            Stmt::SetNumThreads(n) => sets(NTHREADS_VAR, u64::from(n)),
            Stmt::SetDynamic(b) => sets(DYN_VAR, u64::from(b)),
            Stmt::SetMaxActive(m) => sets(MAX_ACTIVE_LEVELS_VAR, u64::from(m)),
            Stmt::SetSchedule(x) => sets(RUN_SCHED_VAR, x.word()),
            Stmt::SetDevice(d) => sets(DEFAULT_DEVICE_VAR, u64::from(d)),
            Stmt::Tool(x) => Shape::Tool(x),
            Stmt::Work => Shape::Work,
        }
    }
}

fn sets(variable: u32, word: u64) -> Shape
    ensures { result ≡ Shape.Sets variable word }
{
    Shape::Sets { variable, word }
}
