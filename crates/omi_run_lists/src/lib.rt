//! The lists that a run fills: the events that were committed and the steps that were made, in little room.
#![tactic(auto)]

mod compact;
mod event_list;
mod laws;
mod made;
mod made_list;
mod row;
mod teams;

pub use compact::CompactEvent;
pub use event_list::EventList;
pub use laws::steps_have_room;
pub use made::{Made, Turn};
pub use made_list::MadeList;
pub use omi_list::OutOfMemory;
