//! The frame of a program: the words behind its name, the files that it reads, why a command ends without an answer, and what a call
//! leaves of files and output with each status.
#![tactic(auto)]

pub mod limits;
mod names;
mod program;
mod put;
mod reading;
mod refusal;
mod refusal_line;
mod script;
mod words;

pub use names::Names;
pub use program::{handed_over, tell_fault, words_of};
pub use put::{end_with, refuse_words};
pub use reading::load;
pub use refusal::{Input, Refusal};
pub use refusal_line::{field_text, room_for};
pub use script::program_of;
pub use words::{line_in, text_of};
