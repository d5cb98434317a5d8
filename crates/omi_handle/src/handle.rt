//! The handles that a caller keeps, one type for each kind of object, and what a handle stands for.

/// A handle to a thread.
#[derive(Clone, Copy, Debug, PartialEq, Eq)]
pub struct ThreadHandle {
    pub key: u64,
    pub serial: u64,
}

/// A handle to a parallel region.
#[derive(Clone, Copy, Debug, PartialEq, Eq)]
pub struct RegionHandle {
    pub key: u64,
    pub serial: u64,
}

/// A handle to a task.
#[derive(Clone, Copy, Debug, PartialEq, Eq)]
pub struct TaskHandle {
    pub key: u64,
    pub serial: u64,
}

/// The kind of object that a handle stands for.
#[derive(Clone, Copy, Debug, PartialEq, Eq)]
pub enum Kind {
    Thread,
    Region,
    Task,
}

/// What a handle stands for: the object whose record begins at the byte address `addr`, while the
/// record's life word is `life`.
#[derive(Clone, Copy, Debug, PartialEq, Eq)]
pub struct Held {
    pub kind: Kind,
    pub addr: u64,
    pub life: u64,
}
