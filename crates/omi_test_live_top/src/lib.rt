//! Tests of the top call over running threads: what it prints and leaves, its refusals, and teams that are cut anywhere.
#![tactic(auto)]

#[cfg(test)]
mod failing_tests;
#[cfg(test)]
mod team_tests;
#[cfg(test)]
mod top_tests;
