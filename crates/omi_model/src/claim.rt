//! Who may use a thread for a team.

/// A thread uses itself, anybody may claim it, or a thread has claimed it.
#[derive(Clone, Copy, Debug, PartialEq, Eq)]
pub enum Claim {
    Own,
    Free,
    By { thread: u8 },
}
