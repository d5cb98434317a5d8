//! The threads that were found for the contexts of a report.

use crate::met::Met;

/// A thread by its number, and its current task, where it has one.
#[derive(Clone, Copy)]
pub struct Found {
    pub thread: u8,
    pub current: Option<Met>,
}
