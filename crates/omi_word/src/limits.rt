//! The limits of word memory. Each stands here alone: definitions, code and the crates above name it.

/// The byte address of an image's first word.
pub const FIRST_ADDRESS: u64 = 0x10000;

/// The byte address at which memory ends: 2^47. Every word of a program lies below it.
pub const MEMORY_END: u64 = 0x8000_0000_0000;

/// The most words of an image.
pub const MOST_WORDS: u64 = 1_048_576;

/// The byte address of the word that counts the symbols of a memory.
pub const SYMBOL_COUNT_ADDRESS: u64 = FIRST_ADDRESS;

/// The byte address of the first symbol, right behind the word that counts them.
pub const FIRST_SYMBOL_ADDRESS: u64 = 0x10008;

/// The most symbols of a table.
pub const MOST_SYMBOLS: u64 = 16;

/// The bytes that a symbol takes: five words.
pub const SYMBOL_BYTES: u64 = 40;
