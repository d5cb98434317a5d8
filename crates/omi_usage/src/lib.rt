//! What is wrong with the words of a command line, and the forms of a program's commands.
#![tactic(auto)]

mod complaint;
mod form;
mod reading;
mod text;
mod word;

pub use complaint::{Cause, Complaint, LineOption};
pub use form::{Form, Wanted};
pub use reading::{complaint_of, complaint_of_one};
pub use text::{Program, explain, help};
