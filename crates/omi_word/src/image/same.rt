//! Copies of a memory.

ghost use Rattle.std.specs.Prelude.{◌≡◌, IfOk};

use crate::{Image, OutOfMemory};
use std::alloc::Global;

impl Image {
    /// An equal memory.
    pub fn same(&self, alloc: Global) -> Result<Image, OutOfMemory>
        ensures { IfOk result (λ image. image ≡ self.now) }
    {
        let words = Vec::from_slice(alloc, &self.words)?;
        Ok(Image { words })
    }
}
