//! A stop beside running threads: the inspector holds the threads of a program, copies the words of one moment, and lets the threads go on.
//! All that the program `ompdpark` does.
#![tactic(auto)]

mod command;
mod copies;
mod inspector;
mod known;
mod limits;
mod lines;
mod printed;
mod progress;
mod rule;
mod run;
mod stopped;
mod table;
mod threads;
mod top;
mod usage;
mod worker;

pub use limits::{INSPECTOR, MOST_STOPS};
pub use stopped::{StopList, Stopped};
pub use threads::{ParkEnd, park, park_within};
pub use top::park_top;
pub use usage::{park_complaint, park_form};
