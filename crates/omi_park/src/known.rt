//! What a seat at the table of words knows. No value of a part is made.

use crate::stopped::StopList;
use omi_script::NumList;
use omi_seat::Known;

/// What is known of a worker: its thread's steps, the epoch that it loaded since the last of them, and its acknowledgement word.
pub struct WorkerPart {
    pub known: Known,
    pub loaded: Option<u64>,
    pub said: u64,
}

/// What is known of the inspector: the epoch that it stored last, the acknowledgements that it has seen and the words that it has copied
/// since, and its stops before.
pub struct InspectorPart {
    pub epoch: u64,
    pub seen: NumList,
    pub copied: NumList,
    pub stops: StopList,
}

/// A worker or the inspector.
pub enum Part {
    Worker { part: WorkerPart },
    Inspector { part: InspectorPart },
}
