//! A memory of words, and an operation on one of them.

ghost use Rattle.std.specs.Prelude.{◌≡◌, ◌≤◌, ◌↔◌, length, replicate, IfOk, IsSome, IfSome};
ghost use Rattle.omi_word.specs.Memory.{words_after, address_of, word_at, IsWordOf};

mod same;

use crate::{FIRST_ADDRESS, MOST_WORDS, Op, OutOfMemory, Res};
use std::alloc::Global;
use std::marker::Model;

/// A memory of at most 1,048,576 words, seen as the list of them. Word `k` has the byte address `0x10000 + 8k`.
#[derive(Drop)]
pub struct Image {
    words: Vec<u64>,
}

impl Model for Image {
    ghost use Rattle.std.specs.Prelude.{List, ℕ, ◌≤◌, length};
    ghost use Rattle.omi_word.specs.declared.limits.TheConstants.{MOST_WORDS};

    ghost Value = { List ℕ };

    ghost view = { λ a. a.words.items };

    ghost invariant = { λ a. length a.words.items ≤ MOST_WORDS };
}

impl Image {
    /// `n` words that are all 0.
    pub fn zeroed(alloc: Global, n: usize) -> Result<Image, OutOfMemory>
        requires { n ≤ MOST_WORDS }
        ensures { IfOk result (λ image. image ≡ replicate n 0) }
    {
        let words = vec![in alloc; 0u64; n]?;
        Ok(Image { words })
    }

    /// The number of words.
    pub fn len(&self) -> usize
        ensures value { result ≡ length self.now }
        ensures limit { result ≤ MOST_WORDS }
    {
        self.words.len()
    }

    /// The word at a byte address. None where the address is unaligned, below 0x10000 or past the last word.
    pub fn get(&self, addr: u64) -> Option<u64>
        ensures found { IsSome result ↔ IsWordOf self.now addr }
        ensures value { IfSome result (λ word. word ≡ word_at self.now addr) }
    {
        if addr < FIRST_ADDRESS || addr % 8 != 0 {
            return None;
        }
        let place = ((addr - FIRST_ADDRESS) / 8) as usize;
        if place < self.words.len() {
            Some(self.words[place])
        } else {
            None
        }
    }

    /// Makes the operation on its word, and answers the word before. All other words stay.
    pub fn apply(&mut self, op: Op) -> Res
        requires { IsWordOf self.old (address_of op) }
        ensures old { result.old ≡ word_at self.old (address_of op) }
        ensures after { self.new ≡ words_after self.old op }
    {
        let place = ((op.address() - FIRST_ADDRESS) / 8) as usize;
        let old = self.words[place];
        self.words[place] = op.left(old);
        Res { old }
    }
}
