//! The list of the steps that were made.

ghost use Rattle.std.specs.Prelude.{◌≡◌, ◌+◌, ◌<◌, ◌≤◌, ◌++◌, ◌∷◌, [], length, slice_get, Some, IsOk, IfOk, OnOk, OnErr};

use crate::Made;
use omi_list::OutOfMemory;
use std::alloc::Global;
use std::marker::Model;

/// The steps that were made, in order. Contracts see them as a list, beside how many more take no memory. A step takes
/// 48 bytes.
#[derive(Drop)]
pub struct MadeList {
    items: Vec<Made>,
}

impl Model for MadeList {
    ghost use Rattle.std.specs.Prelude.{◌-◌, vec_len, vec_capacity};
    ghost use Rattle.omi_run_lists.specs.Steps.{Steps};

    ghost Value = { Steps };

    ghost view = { λ a. record {
      items = a.items.items;
      spare = vec_capacity a.items - vec_len a.items;
    } };
}

impl MadeList {
    /// An empty list, which keeps the allocator.
    pub fn new(alloc: Global) -> MadeList
        ensures { result.items ≡ [] }
    {
        MadeList {
            items: Vec::new(alloc),
        }
    }

    /// The number of steps.
    pub fn len(&self) -> usize
        ensures { result ≡ length self.now.items }
    {
        self.items.len()
    }

    /// The step at a place, counted from 0.
    pub fn get(&self, at: usize) -> Made
        requires { at < length self.now.items }
        ensures { slice_get self.now.items at ≡ Some result }
    {
        self.items[at]
    }

    /// How many more steps take no memory.
    pub fn spare(&self) -> usize
        ensures { result ≡ self.now.spare }
    {
        self.items.capacity() - self.items.len()
    }

    /// Makes room for so many more steps.
    pub fn reserve(&mut self, steps: usize) -> Result<(), OutOfMemory>
        ensures items { self.new.items ≡ self.old.items }
        ensures spare { OnOk result (steps ≤ self.new.spare) }
        ensures no_fewer_spare { self.old.spare ≤ self.new.spare }
        ensures had { steps ≤ self.old.spare → IsOk result }
    {
        self.items.reserve(steps)?;
        Ok(())
    }

    /// Adds a step at the end, in room that is there. It takes no memory.
    pub fn push_reserved(&mut self, e: Made)
        requires { 1 ≤ self.old.spare }
        ensures added { self.new.items ≡ self.old.items ++ e ∷ [] }
        ensures spare { self.new.spare + 1 ≡ self.old.spare }
    {
        self.items.push_reserved(e);
    }

    /// Adds a step at the end. Where there is room for it, it takes no memory.
    pub fn push(&mut self, e: Made) -> Result<(), OutOfMemory>
        ensures added { OnOk result (self.new.items ≡ self.old.items ++ e ∷ []) }
        ensures refused { OnErr result (self.new.items ≡ self.old.items) }
        ensures had { 1 ≤ self.old.spare → IsOk result }
        ensures spare { self.old.spare ≤ self.new.spare + 1 }
    {
        self.reserve(1)?;
        self.push_reserved(e);
        Ok(())
    }

    /// A list of equal steps. Its room may differ.
    pub fn same(&self, alloc: Global) -> Result<MadeList, OutOfMemory>
        ensures { IfOk result (λ list. list.items ≡ self.now.items) }
    {
        let items = Vec::from_slice(alloc, &self.items)?;
        Ok(MadeList { items })
    }
}
