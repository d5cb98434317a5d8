//! Tests of runs that go back and forward.
#![tactic(auto)]

#[cfg(test)]
mod find_tests;
#[cfg(test)]
mod jump_tests;
#[cfg(test)]
mod runs;
