//! What an audit answers.

use thiserror::Error;

/// The verdict on words.
#[derive(Clone, Copy, Debug, PartialEq, Eq)]
pub enum Verdict {
    /// No clause fails: they show a well-formed state, by the records of so many regions and tasks.
    Yes { records: u64 },
    /// This clause, from 1 to 8, fails first, so they show no state that a program reaches. For clauses 1 to 6 the address is that of the word
    /// at which it fails, and the field is the word's. For 7 and 8 the address is that of the first record that a chain meets a second
    /// time, and the field is the one that the chain follows.
    No { addr: u64, field: u8, clause: u8 },
}

/// Why an audit has no verdict.
#[derive(Clone, Copy, Debug, PartialEq, Eq, Error)]
pub enum AuditFault {
    /// A callback failed.
    #[error("a callback failed")]
    Callback,
    /// Memory ran out.
    #[error("out of memory")]
    OutOfMemory,
}
