//! A list of words.

use omi_list::List;

/// A list of native thread ids, or of other words.
pub type Natives = List<u64>;
