//! Tests of omi_machine, omi_machine_legal and omi_machine_view: worked runs and random walks, and what is reported of their states.
#![tactic(auto)]

#[cfg(test)]
mod read_events;
#[cfg(test)]
mod report_tests;
#[cfg(test)]
mod row_tests;
#[cfg(test)]
mod team_tests;
#[cfg(test)]
mod walk_tests;
#[cfg(test)]
mod well_formed;
#[cfg(test)]
mod worked_rows;
