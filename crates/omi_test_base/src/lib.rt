//! Tests of omi_list, omi_word, omi_handle and omi_outside: lists, operations on a word, handles, and files and output; and stand-ins for
//! the system, for other crates of tests too.
#![tactic(auto)]

#[cfg(test)]
mod edge_tests;
#[cfg(test)]
mod expecting;
#[cfg(test)]
mod handle_tests;
#[cfg(test)]
mod list_tests;
#[cfg(test)]
mod outside_tests;
pub mod stand_in;
#[cfg(test)]
mod word_tests;
