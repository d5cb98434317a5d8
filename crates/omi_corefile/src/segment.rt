//! A run of words in memory, and the list of them.

use omi_list::List;
use omi_word::Natives;

/// A run of words in memory, from the byte address `start` on.
#[derive(Drop)]
pub struct Segment {
    pub start: u64,
    pub words: Natives,
}

/// A list of segments.
pub type SegList = List<Segment>;
