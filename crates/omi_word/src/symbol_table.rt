//! The look-up of a symbol in the table that a memory's words hold.

ghost use Rattle.std.specs.Prelude.{◌≡◌, ◌≤◌, length, Some, if◌then◌else◌};
ghost use Rattle.omi_word.specs.SymbolTable.{words_from, symbol_of, is_named, symbol_in};

use crate::{FIRST_SYMBOL_ADDRESS, MOST_SYMBOLS, SYMBOL_BYTES, SYMBOL_COUNT_ADDRESS, WordMemory};

/// The words of a symbol at a byte address, where each of them is mapped.
fn five_words<M: WordMemory>(memory: &M, at: u64) -> Option<[u64; 5]>
    requires { at ≤ 66184 }
    ensures { result ≡ words_from (M.words memory.now) at 5 }
{
    let second = at + 8;
    let third = second + 8;
    let fourth = third + 8;
    let fifth = fourth + 8;
    Some([
        memory.word(at)?,
        memory.word(second)?,
        memory.word(third)?,
        memory.word(fourth)?,
        memory.word(fifth)?,
    ])
}

/// Whether the symbol that five words spell has this name.
fn has_name(words: &[u64; 5], name: &str) -> bool
    ensures { result ≡ is_named name.now (symbol_of words.now) }
{
    let mut filled = [0u8; 32];
    if name.len() > filled.len() {
        return false;
    }
    filled[..name.len()].copy_from_slice(name.as_bytes());
    let stored = [
        words[0].to_le_bytes(),
        words[1].to_le_bytes(),
        words[2].to_le_bytes(),
        words[3].to_le_bytes(),
    ];
    stored.as_flattened() == filled.as_slice()
}

/// What is found once one symbol more was read, from the last to the first: its address, where it has the name.
pub fn found_with(words: &[u64; 5], name: &str, found: Option<u64>) -> Option<u64>
    ensures { result ≡ (if is_named name.now (symbol_of words.now)
        then Some (symbol_of words.now).address else found) }
{
    if has_name(words, name) {
        Some(words[4])
    } else {
        found
    }
}

/// The address of the first symbol of this name. None where the count or a word of the symbols that
/// it counts isn't mapped, where the count exceeds 16, or where no symbol has the name.
pub fn look_up<M: WordMemory>(memory: &M, name: &str) -> Option<u64>
    ensures { result ≡ symbol_in (M.words memory.now) name.now }
{
    let count = memory.word(SYMBOL_COUNT_ADDRESS)?;
    if count > MOST_SYMBOLS {
        return None;
    }
    let mut found = None;
    let mut left = count;
    while left > 0 {
        left -= 1;
        let words = five_words(memory, FIRST_SYMBOL_ADDRESS + SYMBOL_BYTES * left)?;
        found = found_with(&words, name, found);
    }
    found
}
