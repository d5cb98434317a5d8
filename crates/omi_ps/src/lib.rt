//! What `omps` says of the core of a process: its threads of OpenMP for people, or the lines of a report.
#![tactic(auto)]

mod form;
mod listing;
mod recorded;

pub use form::{Form, listing_text};
pub use listing::{Listing, listing_of};
pub use recorded::recorded_ids;
