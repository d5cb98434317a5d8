//! Lists, seen by contracts as lists of their elements.
ghost use Rattle.std.specs.Prelude.{◌≡◌, ◌<◌, ◌++◌, ◌∷◌, [], length, slice_get, slice_set, Some, None, IfSome, OnOk, OnErr, IfOk};
ghost use Rattle.std.specs.Option.{option_map};

use crate::{OutOfMemory, Same};
use std::alloc::Global;
use std::marker::Model;
use std::mem::replace;

/// A list of elements, numbered from 0.
#[derive(Drop)]
pub struct List<E> {
    items: Vec<E>,
}

impl<E> Model for List<E> {
    ghost use Rattle.std.specs.Prelude.{List as Elements};

    ghost Value = { Elements E };

    ghost view = { λ a. a.items.items };
}

impl<E: Drop> List<E> {
    /// An empty list, which keeps the allocator.
    pub fn new(alloc: Global) -> List<E>
        ensures { result ≡ [] }
    {
        List {
            items: Vec::new(alloc),
        }
    }

    /// The elements of a vector, in its order. Takes no memory.
    pub fn from_vec(items: Vec<E>) -> List<E>
        ensures { result ≡ items.items }
    {
        List { items }
    }

    /// The number of elements.
    pub fn len(&self) -> usize
        ensures { result ≡ length self.now }
    {
        self.items.len()
    }

    /// The element at a place, counted from 0.
    pub fn get(&self, at: usize) -> &E
        requires { at < length self.now }
        ensures { slice_get self.now at ≡ Some result.now }
    {
        &self.items[at]
    }

    /// The element at a place, where there is one.
    pub fn find(&self, at: usize) -> Option<&E>
        ensures { option_map (λ e. e.now) result ≡ slice_get self.now at }
    {
        self.items.get(at)
    }

    /// Adds an element at the end. A refused element is dropped.
    pub fn push(&mut self, e: E) -> Result<(), OutOfMemory>
        ensures added { OnOk result (self.new ≡ self.old ++ e ∷ []) }
        ensures refused { OnErr result (self.new ≡ self.old) }
    {
        self.items.push(e)?;
        Ok(())
    }

    /// Puts an element in the place of another one, which is handed out.
    pub fn exchange(&mut self, at: usize, e: E) -> E
        requires { at < length self.old }
        ensures before { slice_get self.old at ≡ Some result }
        ensures after { self.new ≡ slice_set self.old at e }
    {
        replace(&mut self.items[at], e)
    }

    /// Takes the last element off. None where there is none.
    pub fn pop(&mut self) -> Option<E>
        ensures taken { IfSome result (λ e. self.old ≡ self.new ++ e ∷ []) }
        ensures none { result ≡ None → self.old ≡ [] }
    {
        self.items.pop()
    }

    /// The elements in order.
    pub fn as_slice(&self) -> &[E]
        ensures { result.now ≡ self.now }
    {
        &self.items
    }
}

impl<E: Same> List<E> {
    /// An equal list.
    pub fn same(&self, alloc: Global) -> Result<List<E>, OutOfMemory>
        ensures { IfOk result (λ list. list ≡ self.now) }
    {
        let mut items = Vec::new(alloc);
        for e in &self.items {
            items.push(e.same(alloc)?)?;
        }
        Ok(List { items })
    }
}
