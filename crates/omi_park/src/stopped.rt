//! What a stop leaves.

use omi_list::List;
use omi_script::NumList;
use omi_word::Image;

/// A stop: the words of one moment, and how many steps each thread had made then.
#[derive(Drop)]
pub struct Stopped {
    pub image: Image,
    pub steps: NumList,
}

/// Stops in the order in which they were made.
pub type StopList = List<Stopped>;
