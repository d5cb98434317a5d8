//! Tests of whole runs: the steps of many threads, in many orders, judged by the abstract machine.
#![tactic(auto)]

#[cfg(test)]
mod compare;
#[cfg(test)]
mod end_tests;
#[cfg(test)]
mod family_tests;
#[cfg(test)]
mod few_scripts;
#[cfg(test)]
mod few_tests;
#[cfg(test)]
mod given_back_tests;
#[cfg(test)]
mod group_tests;
#[cfg(test)]
mod lines;
#[cfg(test)]
mod look;
#[cfg(test)]
mod look_tests;
#[cfg(test)]
mod many_tests;
#[cfg(test)]
mod moves;
#[cfg(test)]
mod operation_tests;
#[cfg(test)]
mod orders;
#[cfg(test)]
mod places;
#[cfg(test)]
mod random_tests;
#[cfg(test)]
mod reports;
#[cfg(test)]
mod row_tests;
#[cfg(test)]
mod scripts;
#[cfg(test)]
mod task_tests;
#[cfg(test)]
mod trial;
#[cfg(test)]
mod waiting_tests;
