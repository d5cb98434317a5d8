//! Callbacks over a core, in either order of the bytes of a word, whose reads and look-ups are counted.

ghost use Rattle.std.specs.Prelude.{◌≡◌, ◌≤◌, None, if◌then◌else◌};
ghost use Rattle.omi_corefile.specs.ByteOrder.{number_of};
ghost use Rattle.omi_calls.specs.Memory.{faults_counted, usual_sizes};

use omi_calls::{Callbacks, Got, MemCalls, Place, Sizes};
use std::cell::Cell;

/// How often a target was asked.
#[derive(Drop)]
pub struct Asked {
    pub reads: Cell<u64>,
    pub look_ups: Cell<u64>,
}

impl Asked {
    pub fn never() -> Asked {
        Asked {
            reads: Cell::new(0),
            look_ups: Cell::new(0),
        }
    }
}

/// Callbacks over a core that count what they are asked. They tell nothing of its words, whose bytes have the core's order.
#[derive(Drop)]
pub struct Target<'a> {
    pub calls: MemCalls,
    pub asked: &'a Asked,
}

/// The order of the bytes of a word.
#[derive(Clone, Copy, Debug, PartialEq, Eq)]
pub struct ByteOrder {
    pub highest_first: bool,
}

/// The lowest byte comes first.
pub const LITTLE: ByteOrder = ByteOrder {
    highest_first: false,
};

/// The highest byte comes first.
pub const BIG: ByteOrder = ByteOrder {
    highest_first: true,
};

impl<'a> Callbacks for Target<'a> {
    ghost told = { λ _. record {
      order = None;
      words = λ _. None;
      symbols = None;
      fails = None;
      sizes = usual_sizes;
    } };

    ghost faults = { λ a. faults_counted a.calls };

    fn read_memory(&mut self, addr: u64, to: &mut [u8; 8]) -> Got {
        self.asked.reads.set(self.asked.reads.get().wrapping_add(1));
        self.calls.read_memory(addr, to)
    }

    fn symbol_addr_lookup(&mut self, name: &str) -> Place {
        self.asked
            .look_ups
            .set(self.asked.look_ups.get().wrapping_add(1));
        self.calls.symbol_addr_lookup(name)
    }

    fn sizeof_type(&self) -> Sizes {
        self.calls.sizeof_type()
    }
}

impl ByteOrder {
    /// The number of an order, as tables of callbacks have it.
    pub fn number(self) -> u8
        ensures number { result ≡ (if self.highest_first then 1 else 0) }
        ensures known { result ≤ 1 }
    {
        if self.highest_first { 1 } else { 0 }
    }

    /// The number of the bytes of a word.
    pub fn word(self, bytes: [u8; 8]) -> u64
        ensures { result ≡ number_of (if self.highest_first then 1 else 0) bytes }
    {
        if self.highest_first {
            u64::from_be_bytes(bytes)
        } else {
            u64::from_le_bytes(bytes)
        }
    }
}
