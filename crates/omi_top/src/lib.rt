//! All that the program `ompdi` does: a command line, files to read, files to write, and where to print.
#![tactic(auto)]

mod audit;
mod command;
mod copy;
mod elf;
mod follow;
mod laws;
mod limits;
mod lines;
mod make;
mod opened;
mod plan;
mod question;
mod recode;
mod run;
mod run_and_show;
mod show;
mod stop;
mod top;
mod usage;

pub use laws::{files_show_alike, recoded_shows_alike, runs_are_determined};
pub use top::run_top;
pub use usage::{run_complaint, run_forms};
