//! Tests of sessions over the words of stopped runs: how they open, their handles, long chains, and a worked example.
#![tactic(auto)]

#[cfg(test)]
mod chains;
#[cfg(test)]
mod example;
#[cfg(test)]
mod files;
#[cfg(test)]
mod handles;
#[cfg(test)]
mod opening;
