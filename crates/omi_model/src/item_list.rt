//! A to-do list, seen as the list of its items in order.

ghost use Rattle.std.specs.Prelude.{◌≡◌, ◌<◌, ◌≤◌, ◌∷◌, [], length, drop, slice_get, Some, None, IfSome, IfOk, OnOk, OnErr};

use crate::{Item, OutOfMemory};
use std::alloc::Global;
use std::marker::Model;

/// What a task, or a worker without a task, still has to do. The items are kept with the first one last, so that an event
/// takes them off the end.
#[derive(Drop)]
pub struct ItemList {
    items: Vec<Item>,
}

impl Model for ItemList {
    ghost use Rattle.std.specs.Prelude.{List, reverse};
    ghost use Rattle.omi_model.specs.declared.item.Item.{Item};

    ghost Value = { List Item };

    ghost view = { λ a. reverse a.items.items };
}

impl ItemList {
    /// An empty list, which keeps the allocator.
    pub fn new(alloc: Global) -> ItemList
        ensures { result ≡ [] }
    {
        ItemList {
            items: Vec::new(alloc),
        }
    }

    /// The number of items.
    pub fn len(&self) -> usize
        ensures { result ≡ length self.now }
    {
        self.items.len()
    }

    /// The item at a place, counted from 0 at the front.
    pub fn get(&self, at: usize) -> &Item
        requires { at < length self.now }
        ensures { slice_get self.now at ≡ Some result.now }
    {
        &self.items[self.items.len() - 1 - at]
    }

    /// The items from a place on, in a list of their own.
    pub fn from_place(&self, alloc: Global, at: usize) -> Result<ItemList, OutOfMemory>
        requires { at ≤ length self.now }
        ensures { IfOk result (λ list. list ≡ drop at self.now) }
    {
        let items = Vec::from_slice(alloc, &self.items[..self.items.len() - at])?;
        Ok(ItemList { items })
    }

    /// Takes the first item off. None where there is none.
    pub fn pop_front(&mut self) -> Option<Item>
        ensures taken { IfSome result (λ e. self.old ≡ e ∷ self.new) }
        ensures none { result ≡ None → self.old ≡ [] }
    {
        self.items.pop()
    }

    /// Puts an item in front.
    pub fn push_front(&mut self, e: Item) -> Result<(), OutOfMemory>
        ensures added { OnOk result (self.new ≡ e ∷ self.old) }
        ensures refused { OnErr result (self.new ≡ self.old) }
    {
        self.items.push(e)?;
        Ok(())
    }
}
