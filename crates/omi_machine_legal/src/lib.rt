//! Which events are legal in a state that is kept: the thread's to-do list allows the event, and its rule holds. omi_model
//! defines the rules, and omi_machine keeps the state.
#![tactic(auto)]

mod ask_rules;
mod barrier_rules;
mod fork_rules;
mod freeing_rules;
mod fresh;
mod group_rules;
mod legality;
mod live;
mod lock_rules;
mod rule;
mod taken;
mod task_rules;
mod team_rules;
mod unfinished;

pub use legality::legal;
