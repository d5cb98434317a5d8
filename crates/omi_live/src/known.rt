//! What a seat at the table of words knows: a part for each thread that it stands for. No value of a part is made.

use omi_core::Entry;
use omi_list::List;
use omi_seat::Known;

/// What a thread does at the table of words.
pub enum Access {
    /// A load of the stop word, which is raised or not.
    Look { raised: bool },
    /// A step of the thread, on a word of the image.
    Step { entry: Entry },
    /// A store into the stop word, which raises it.
    Raise,
}

/// What is known of a thread: what its steps found, whether it was told to stop, and its accesses to the table, in order.
pub struct Part {
    pub known: Known,
    pub told: bool,
    pub accesses: List<Access>,
}
