//! Cores that are read on demand, a page of words at a time.
#![tactic(auto)]

mod contents;
mod elf;
mod fault;
mod formats;
mod keeping;
mod lent;
mod limits;
mod loading;
mod opened;
mod opening;
mod pages;
mod span;
mod symbol_table;

pub use fault::PageError;
pub use lent::{LentPages, Loan};
pub use limits::{MOST_PAGES, PAGE_BYTES};
pub use opened::{Opened, open};
pub use pages::Pages;
