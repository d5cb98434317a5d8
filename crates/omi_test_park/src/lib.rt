//! Runs of threads with stops beside them.
#![tactic(auto)]

#[cfg(test)]
mod gates;
#[cfg(test)]
mod park_tests;
#[cfg(test)]
mod top_tests;
