//! Word memory: a list of 64-bit words, the operations that a step makes on one of them, and the symbol table that they hold.
#![tactic(auto)]

mod image;
mod limits;
mod natives;
mod op;
mod symbol_table;
mod word_memory;

pub use image::Image;
pub use limits::{
    FIRST_ADDRESS, FIRST_SYMBOL_ADDRESS, MEMORY_END, MOST_SYMBOLS, MOST_WORDS, SYMBOL_BYTES,
    SYMBOL_COUNT_ADDRESS,
};
pub use natives::Natives;
pub use omi_list::OutOfMemory;
pub use op::{Op, Res};
pub use symbol_table::{found_with, look_up};
pub use word_memory::WordMemory;
