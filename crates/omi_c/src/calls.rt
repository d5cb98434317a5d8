//! Callbacks over known words.

ghost use Rattle.std.specs.Prelude.{◌≡◌, None};
ghost use Rattle.omi_c.specs.Known.{told_by_known};

use crate::finding::KnownInOrder;
use crate::known::Known;
use omi_calls::{Callbacks, Got, Place, Sizes};
use omi_corefile::word_bytes;

/// A debugger that has nothing but some words of the target. A read of another word fails, and its address is kept. So does each
/// look-up of a symbol.
#[derive(Drop)]
pub struct KnownCalls<'a> {
    known: KnownInOrder<'a>,
    faults: u64,
    missed: Option<u64>,
}

impl<'a> KnownCalls<'a> {
    ghost use Rattle.omi_c.specs.Calls.{told_of, missed_of};

    /// Callbacks over these words.
    pub fn over(known: &'a [Known]) -> KnownCalls<'a>
        ensures told { told_of result ≡ told_by_known known.now }
        ensures missed { missed_of result ≡ None }
    {
        KnownCalls {
            known: KnownInOrder::over(known),
            faults: 0,
            missed: None,
        }
    }

    /// The address of the latest word that was asked for and isn't known.
    pub fn missed(&self) -> Option<u64>
        ensures { result ≡ missed_of self.now }
    {
        self.missed
    }
}

impl<'a> Callbacks for KnownCalls<'a> {
    ghost use Rattle.omi_c.specs.Calls.{told_of, asked_of, faults_of};

    ghost told = { told_of };

    ghost faults = { faults_of };

    ghost asked = { asked_of };

    fn read_memory(&mut self, addr: u64, to: &mut [u8; 8]) -> Got {
        if addr % 8 != 0 {
            return Got::NotMapped;
        }
        match self.known.find(addr) {
            Some(found) if found.mapped => {
                *to = word_bytes(0, found.word);
                Got::Bytes
            }
            Some(_) => Got::NotMapped,
            None => {
                self.missed = Some(addr);
                self.faults = self.faults.saturating_add(1);
                Got::Failed
            }
        }
    }

    fn symbol_addr_lookup(&mut self, _name: &str) -> Place {
        self.faults = self.faults.saturating_add(1);
        Place::Failed
    }

    fn sizeof_type(&self) -> Sizes {
        Sizes {
            char_size: 1,
            short_size: 2,
            int_size: 4,
            long_size: 8,
            long_long_size: 8,
            pointer_size: 8,
        }
    }
}
