//! Tests of threads that run beside each other.
#![tactic(auto)]

#[cfg(test)]
mod live_tests;
