//! Values of which an equal one can be made, where memory is there.

ghost use Rattle.std.specs.Prelude.{◌≡◌, IfOk};

use crate::OutOfMemory;
use std::alloc::Global;

/// A value of which an equal one can be made.
pub trait Same: Drop {
    /// An equal value.
    fn same(&self, alloc: Global) -> Result<Self, OutOfMemory>
        ensures { IfOk result (λ copy. copy ≡ self.now) };
}

impl Same for u64 {
    fn same(&self, _alloc: Global) -> Result<u64, OutOfMemory> {
        Ok(*self)
    }
}
