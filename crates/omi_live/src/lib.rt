//! Running threads: each thread of a program is work of its own over one table of words. All that the program `ompdlive` does.
#![tactic(auto)]

mod command;
mod known;
mod rule;
mod run;
mod threads;
mod top;
mod usage;
mod worker;

pub use omi_seat::MOST_BUDGET;
pub use threads::{LiveEnd, live};
pub use top::live_top;
pub use usage::{live_complaint, live_form};
