//! Callbacks over the words of one range of addresses.

ghost use Rattle.std.specs.Prelude.{◌≡◌};
ghost use Rattle.omi_c.specs.Range.{memory_of, told_by_range, told_of_range};

use omi_calls::{Callbacks, Got, Place, Sizes};
use omi_corefile::word_bytes;
use omi_word::{WordMemory, look_up};

/// The words that stand one behind another from a byte address on. Nothing else is mapped.
#[derive(Clone, Copy)]
pub struct WordRange<'a> {
    pub start: u64,
    pub words: &'a [u64],
}

impl<'a> WordMemory for WordRange<'a> {
    ghost words = { λ range. memory_of range.start range.words.now };

    fn word(&self, addr: u64) -> Option<u64> {
        if addr % 8 != 0 {
            return None;
        }
        if self.start % 8 != 0 || addr < self.start {
            return None;
        }
        let place = ((addr - self.start) / 8) as usize;
        if place < self.words.len() {
            Some(self.words[place])
        } else {
            None
        }
    }
}

/// A debugger that has these words of the target, of which no call fails.
#[derive(Drop)]
pub struct RangeCalls<'a> {
    memory: WordRange<'a>,
}

impl<'a> RangeCalls<'a> {
    /// Callbacks over these words.
    pub fn over(memory: WordRange<'a>) -> RangeCalls<'a>
        ensures { told_of_range result ≡ told_by_range memory.entry.start memory.entry.words.now }
    {
        RangeCalls { memory }
    }
}

impl<'a> Callbacks for RangeCalls<'a> {
    ghost told = { told_of_range };

    ghost faults = { λ _. 0 };

    fn read_memory(&mut self, addr: u64, to: &mut [u8; 8]) -> Got {
        match self.memory.word(addr) {
            Some(word) => {
                *to = word_bytes(0, word);
                Got::Bytes
            }
            None => Got::NotMapped,
        }
    }

    fn symbol_addr_lookup(&mut self, name: &str) -> Place {
        match look_up(&self.memory, name) {
            Some(addr) => Place::At(addr),
            None => Place::NoSuch,
        }
    }

    fn sizeof_type(&self) -> Sizes {
        Sizes {
            char_size: 1,
            short_size: 2,
            int_size: 4,
            long_size: 8,
            long_long_size: 8,
            pointer_size: 8,
        }
    }
}
