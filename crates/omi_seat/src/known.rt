//! What is known of a thread by its steps. No value of it is made.

use omi_layout::Layout;
use omi_list::List;
use omi_script::Program;

/// A thread of a program in a layout, and the words that its steps found, in order. Its operations, its actor and its events follow.
pub struct Known {
    pub program: Program,
    pub layout: Layout,
    pub thread: u8,
    pub found: List<u64>,
}
