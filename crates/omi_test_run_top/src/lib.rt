//! Tests of omi_top: whole runs of `stop`, `make` and `run` through the top call, and what a program does before and behind it.
#![tactic(auto)]

#[cfg(test)]
mod make_tests;
#[cfg(test)]
mod order_tests;
#[cfg(test)]
mod program_tests;
#[cfg(test)]
mod run_tests;
#[cfg(test)]
mod tests;
#[cfg(test)]
mod watched;
