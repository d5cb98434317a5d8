//! What a statement's row depends on.

/// What a row sees of the task that encounters the statement, when it is opened: whether states are kept, the task's number
/// in its team, the level of its region, and its final flag.
#[derive(Clone, Copy, Debug, PartialEq, Eq)]
pub struct Encounter {
    pub debug: bool,
    pub number: u64,
    pub level: u64,
    pub is_final: bool,
}
