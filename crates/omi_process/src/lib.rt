//! The core of a process, as a kernel or a debugger writes it: which words the file has, and the native ids that it lists.
#![tactic(auto)]

mod contents;
mod contexts;
mod fault;
mod laws;
mod limits;
mod listed;
mod segments;
mod threads;

pub use contents::{ProcessContents, read_process};
pub use contexts::{ReportContexts, contexts_among};
pub use fault::{ProcessError, ProcessFault};
pub use laws::{each_file_is_one_process, elf_cores_are_process_cores};
pub use limits::{MANY_HEADERS, MOST_BYTES};
pub use listed::Listed;
