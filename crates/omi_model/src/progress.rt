//! How far a task has come.

/// An explicit task may be deferred, and an implicit one not begun.
#[derive(Clone, Copy, Debug, PartialEq, Eq)]
pub enum Progress {
    Deferred,
    NotBegun,
    Begun,
    Finished,
}
