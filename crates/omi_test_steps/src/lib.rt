//! Tests of omi_pc, omi_run_lists and omi_actor: the bodies that an actor opens, the lists that a run fills, and the words by which an actor finds a
//! record.
#![tactic(auto)]

#[cfg(test)]
mod actor_tests;
#[cfg(test)]
mod compact_tests;
#[cfg(test)]
mod event_list_tests;
#[cfg(test)]
mod search_tests;
