//! Tests of damage and of calls that fail, as the user of a crash tool meets them.
#![tactic(auto)]

#[cfg(test)]
mod calls;
#[cfg(test)]
mod changed_words;
#[cfg(test)]
mod each_call;
#[cfg(test)]
mod failing_calls;
#[cfg(test)]
mod opening;
