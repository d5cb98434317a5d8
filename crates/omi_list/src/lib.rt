//! Lists of elements, the one type of list that every crate above uses.
#![tactic(auto)]

mod list;
mod same;

pub use list::List;
pub use same::Same;

/// Memory ran out.
pub type OutOfMemory = std::alloc::AllocError;
