//! What a step of a thread answers.

use omi_model::Event;

/// What came of one atomic step.
#[derive(Clone, Copy)]
pub enum Outcome {
    /// No event was committed.
    Quiet,
    /// This event was committed.
    Event(Event),
    /// The step found this word at this byte address, and the thread can't go on because of it.
    NotReady { addr: u64, word: u64 },
    /// The thread committed `done` in an earlier step.
    Ended,
}
