//! Tests of omi_layout, omi_rep, omi_text and omi_listing: layouts, programs that suit them, printed texts, and tables.
#![tactic(auto)]

#[cfg(test)]
mod agreement_tests;
#[cfg(test)]
mod event_tests;
#[cfg(test)]
mod layout_tests;
#[cfg(test)]
mod listing_tests;
#[cfg(test)]
mod report_tests;
#[cfg(test)]
mod short_tests;
#[cfg(test)]
mod views;
