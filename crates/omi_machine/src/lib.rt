//! The plain program of the abstract machine: the state that it keeps, the opening state of a program, and the state after an
//! event. omi_model defines the machine, and omi_machine_legal decides which events are legal.
#![tactic(auto)]

mod after_event;
mod barrier_changes;
mod effects;
mod first_lists;
mod freeing;
mod group_changes;
mod list_changes;
mod lock_changes;
mod looking;
mod moved_list;
mod new_tasks;
mod new_teams;
mod opening_state;
mod setting_changes;
mod slot_changes;
mod state;
mod statement_rows;
mod task_changes;
mod team_changes;
mod thread_changes;
mod variable_changes;

pub use after_event::after;
pub use looking::{head_item, is_events_item, may_pass_over};
pub use omi_word::OutOfMemory;
pub use opening_state::opening;
pub use state::{State, arrivals_of, live_in};
