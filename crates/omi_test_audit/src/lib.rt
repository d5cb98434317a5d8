//! Tests of the auditor, over the words of stopped runs of which some were changed or taken away.
#![tactic(auto)]

#[cfg(test)]
mod asking;
#[cfg(test)]
mod chains;
#[cfg(test)]
mod failing;
#[cfg(test)]
mod many;
#[cfg(test)]
mod overlay;
#[cfg(test)]
mod places;
#[cfg(test)]
mod stops;
#[cfg(test)]
mod table;
#[cfg(test)]
mod verdicts;
