//! What is kept of a step that was made.

use omi_word::Op;
use std::mem::size_of;

/// What came of a step.
#[derive(Clone, Copy, Debug, PartialEq, Eq)]
pub enum Turn {
    /// Nothing that the machine sees.
    Quiet,
    /// An event was committed.
    Event,
    /// The step loaded or compared a word that doesn't let the thread go on yet.
    NotReady,
    /// The thread had committed `done` in an earlier step.
    Ended,
}

/// A step that was made: its operation, the word that this found, the thread, and what came of it.
#[derive(Clone, Copy, Debug, PartialEq, Eq)]
pub struct Made {
    pub op: Op,
    pub old: u64,
    pub thread: u8,
    pub turn: Turn,
}

const _: () = prove!(size_of::<Made>() <= 48);
