//! Workload scripts: the text of a program for simulated OpenMP threads, and the program that it
//! says.
#![tactic(auto)]

mod closed;
mod env;
mod fault;
mod function;
mod head;
mod head_lines;
pub mod limits;
mod line;
mod name;
mod number_list;
mod numbers;
mod parser;
mod pieces;
mod printer;
mod program;
mod reach;
mod reader;
mod statement;
mod statement_faults;
mod statement_lines;
mod verdicts;

pub use env::Env;
pub use fault::{ScriptError, ScriptFault, Why};
pub use function::{Func, FuncList};
pub use name::Name;
pub use number_list::NumList;
pub use numbers::number;
pub use omi_list::OutOfMemory;
pub use printer::print;
pub use program::Program;
pub use reader::{parse, program_rules};
pub use statement::{Sched, Stmt, StmtList};
pub use verdicts::one_verdict;
