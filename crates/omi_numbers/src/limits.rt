//! Limits that the abstract machine and the memory share.

/// The slots for deferred tasks of an implicit task.
pub const OWN_SLOTS: u8 = 4;

/// The groups that a task may have open at a time.
pub const OPEN_GROUPS: u8 = 4;
