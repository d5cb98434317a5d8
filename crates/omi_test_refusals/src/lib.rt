//! Tests of what inquiries refuse, over the words of stopped runs of which some were changed or taken away.
#![tactic(auto)]

#[cfg(test)]
mod asking;
#[cfg(test)]
mod handles;
#[cfg(test)]
mod pairs;
#[cfg(test)]
mod reads;
#[cfg(test)]
mod refusals;
#[cfg(test)]
mod rows;
