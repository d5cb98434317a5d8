//! Callbacks over a core of which two words are changed or taken away while a session is open, and that count what they are asked.

ghost use Rattle.std.specs.Prelude.{◌≢◌, None};
ghost use Rattle.omi_calls.specs.Memory.{faults_counted, usual_sizes};

use omi_calls::{Callbacks, Got, MemCalls, Place, Sizes};
use omi_fixture_targets::Change;
use std::cell::Cell;

/// What is changed now, and how many words were read.
#[derive(Drop)]
pub struct Seen {
    pub changes: Cell<[Change; 2]>,
    pub reads: Cell<u64>,
}

impl Seen {
    /// Nothing is changed.
    pub fn new() -> Seen {
        Seen {
            changes: Cell::new([(0, Some(0)); 2]),
            reads: Cell::new(0),
        }
    }
}

/// Callbacks that tell nothing of their words, which may change.
#[derive(Drop)]
pub struct Overlay<'a> {
    pub calls: MemCalls,
    pub seen: &'a Seen,
}

/// What a word that is changed reads as.
fn changed(new: Option<u64>, to: &mut [u8; 8]) -> Got
    ensures { result ≢ Got.Failed }
{
    match new {
        Some(word) => {
            *to = word.to_le_bytes();
            Got::Bytes
        }
        None => Got::NotMapped,
    }
}

impl<'a> Callbacks for Overlay<'a> {
    ghost told = { λ _. record {
      order = None;
      words = λ _. None;
      symbols = None;
      fails = None;
      sizes = usual_sizes;
    } };

    ghost faults = { λ a. faults_counted a.calls };

    fn read_memory(&mut self, addr: u64, to: &mut [u8; 8]) -> Got {
        self.seen.reads.set(self.seen.reads.get().wrapping_add(1));
        let [first, second] = self.seen.changes.get();
        if first.0 == addr {
            changed(first.1, to)
        } else if second.0 == addr {
            changed(second.1, to)
        } else {
            self.calls.read_memory(addr, to)
        }
    }

    fn symbol_addr_lookup(&mut self, name: &str) -> Place {
        self.calls.symbol_addr_lookup(name)
    }

    fn sizeof_type(&self) -> Sizes {
        self.calls.sizeof_type()
    }
}
