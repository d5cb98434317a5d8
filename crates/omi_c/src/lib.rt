//! The library's inquiries for C. C reads the target's words itself and hands in those that are known so far; an inquiry answers its
//! result, or the byte address of the word that it needs next, and is then asked again. docs/GDB.md shows it at work in a debugger.
#![tactic(auto)]

mod answers;
mod auditing;
mod calls;
mod causes;
mod comparing;
mod enumerations;
mod finding;
mod initial;
mod judged;
mod judging;
mod known;
mod laws;
mod library;
mod opening;
mod range;
mod regions;
mod scopes;
mod spelling;
mod task_words;
mod tasks;
mod texts;
mod threads;
mod variables;
