//! What a step answers.

use omi_rep::Outcome;
use omi_word::Op;

/// One step: its operation, the word that this found, and what came of it.
#[derive(Clone, Copy)]
pub struct Entry {
    pub op: Op,
    pub old: u64,
    pub outcome: Outcome,
}
