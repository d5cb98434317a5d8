//! The auditor of a target's words: that they show some well-formed state, or the first word at which a clause of the audit fails.
#![tactic(auto)]

mod auditing;
mod chains;
mod clauses;
mod fields;
mod judging;
mod known;
mod laws;
mod records;
mod search;
mod stop;
mod verdict;

pub use auditing::audit;
pub use laws::{search_reaches, verdicts_give};
pub use verdict::{AuditFault, Verdict};
