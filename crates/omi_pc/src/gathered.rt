//! What a construct in the making has gathered.

use crate::limits::VARIABLE_WORDS;
use omi_model::Team;

/// What a `parallel` or a `task` construct in the making has gathered. Nothing reads it between two constructs.
#[derive(Clone, Copy)]
pub struct Gathered {
    /// The data environment of the current task, loaded word by word.
    pub variables: [u64; VARIABLE_WORDS],
    /// The levels of the current region.
    pub levels: u64,
    /// The active levels of the current region.
    pub active: u64,
    /// The size of the team that is wanted.
    pub wanted: u8,
    /// The thread that is asked next: all below it but the own one were asked.
    pub asked: u8,
    /// This thread and those that joined it, with the tasks that were made for them so far.
    pub team: Team,
    /// The group of the current task, loaded where it has no group open: the word that stands for it, 0 for none.
    pub group: u64,
}
