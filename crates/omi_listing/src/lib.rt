//! What is listed for people: tables, whose columns are as wide as their widest cell, of what a report says.
#![tactic(auto)]

mod cell;
mod named;
mod table;
mod threads;

pub use cell::Cell;
pub use table::{Row, Table, table_text};
pub use threads::threads_text;

/// Memory ran out.
pub type OutOfMemory = omi_text::OutOfMemory;
