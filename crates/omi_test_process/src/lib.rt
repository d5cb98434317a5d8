//! Tests of omi_process: cores of processes written by hand, in both byte orders, and each fault at each of its turns.
#![tactic(auto)]

#[cfg(test)]
mod context_tests;
#[cfg(test)]
mod fault_tests;
#[cfg(test)]
mod id_tests;
#[cfg(test)]
mod processes;
#[cfg(test)]
mod word_tests;
