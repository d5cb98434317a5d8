//! Tests of `follow` through the top call: what became of the tasks of a core at a later stop, and each refusal.
#![tactic(auto)]

#[cfg(test)]
mod calls;
#[cfg(test)]
mod fate_tests;
#[cfg(test)]
mod refusal_tests;
