//! A debugger that has nothing but a core, and so never fails.

ghost use Rattle.std.specs.Prelude.{◌≡◌, ℕ, false};
ghost use Rattle.omi_calls.specs.Memory.{is_to_fail};

use crate::{Callbacks, Got, MemCalls, Place, Sizes};
use omi_corefile::CoreImage;
use std::alloc::Global;

/// Callbacks over a core, of which no call fails.
#[derive(Drop)]
pub struct CoreCalls {
    calls: MemCalls,
    ghost never: { (number : ℕ) → is_to_fail calls number ≡ false },
}

impl CoreCalls {
    ghost use Rattle.omi_calls.specs.Memory.{told_by};
    ghost use Rattle.omi_calls.specs.CoreCalls.{told_of_core};

    /// Callbacks over a core.
    pub fn over(alloc: Global, core: CoreImage) -> CoreCalls
        ensures { told_of_core result ≡ told_by core }
    {
        CoreCalls {
            calls: MemCalls::over(core, Vec::new(alloc)),
        }
    }
}

impl Callbacks for CoreCalls {
    ghost use Rattle.omi_calls.specs.CoreCalls.{told_of_core};

    ghost told = { told_of_core };

    ghost faults = { λ _. 0 };

    fn read_memory(&mut self, addr: u64, to: &mut [u8; 8]) -> Got {
        self.calls.read_memory(addr, to)
    }

    fn symbol_addr_lookup(&mut self, name: &str) -> Place {
        self.calls.symbol_addr_lookup(name)
    }

    fn sizeof_type(&self) -> Sizes {
        self.calls.sizeof_type()
    }
}
