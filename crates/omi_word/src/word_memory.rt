//! Memory whose words are read by address.

ghost use Rattle.std.specs.Prelude.{◌≡◌, length};
ghost use Rattle.omi_word.specs.Words.{Words, words_of};

use crate::{FIRST_ADDRESS, Image, Natives};

/// Memory whose words are read by address.
pub trait WordMemory {
    ghost words: { Self → Words };

    /// The word at a byte address. None where there is none.
    fn word(&self, addr: u64) -> Option<u64>
        ensures { result ≡ words self.now addr };
}

impl WordMemory for Image {
    ghost words = { words_of };

    fn word(&self, addr: u64) -> Option<u64> {
        self.get(addr)
    }
}

impl WordMemory for Natives {
    ghost words = { words_of };

    fn word(&self, addr: u64) -> Option<u64> {
        if addr < FIRST_ADDRESS || addr % 8 != 0 {
            return None;
        }
        let place = ((addr - FIRST_ADDRESS) / 8) as usize;
        if place < self.len() {
            Some(*Natives::get(self, place))
        } else {
            None
        }
    }
}
