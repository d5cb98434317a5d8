//! Tests of omi_ps: what is listed of the words of a stopped run.
#![tactic(auto)]

mod listed;
mod listing_tests;
mod refusal_tests;
