//! Tests of inquiries and walks over the words of stopped runs: what they answer.
#![tactic(auto)]

pub mod answers;
#[cfg(test)]
mod forks;
#[cfg(test)]
mod held_tests;
#[cfg(test)]
mod kept_tests;
#[cfg(test)]
mod later_tests;
#[cfg(test)]
mod variables;
#[cfg(test)]
mod walks;
