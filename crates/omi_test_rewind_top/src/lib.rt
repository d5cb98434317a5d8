//! Tests of all that `ompdat` does, over files in memory.
#![tactic(auto)]

#[cfg(test)]
mod calls;
#[cfg(test)]
mod failing_tests;
#[cfg(test)]
mod stop_tests;
#[cfg(test)]
mod text_tests;
#[cfg(test)]
mod usage_tests;
