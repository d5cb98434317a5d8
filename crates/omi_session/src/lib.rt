//! A debugger's session with a target: its callbacks, the layout that the target's words publish, and the handles that are held.
#![tactic(auto)]

mod asking;
mod handing;
mod handled;
mod laws;
mod library;
mod limits;
mod members;
mod objects;
mod opening;
mod parted;
mod rc;
mod session;
mod version;

pub use asking::{follow, follow_some, lead, life_field, object_at, unchanged, word};
pub use handing::{hand_region, hand_task, hand_thread};
pub use handled::{compare, let_go, name};
pub use laws::{inquiries_look, reached_names_fit};
pub use library::{Library, initialize};
pub use limits::HANDLES_BEFORE;
pub use members::{current_task, current_task_of, member, member_of, team_size};
pub use objects::{live_handle, live_handle_of, object, object_of, related, related_of};
pub use parted::Parted;
pub use rc::Rc;
pub use session::Session;
pub use version::{API_VERSION, get_api_version, get_version_string};
