//! What a thread may give back next.

use crate::{Rid, Tid};

/// What may be given back next: an explicit task that has finished, and then those above it along the chain of generating tasks;
/// or a region that is joined, the task of its member with this number and those of the members behind it, and then the region.
#[derive(Clone, Copy, Debug, PartialEq, Eq)]
pub enum Freeable {
    Finished { task: Tid },
    Joined { region: Rid, number: u8 },
}
