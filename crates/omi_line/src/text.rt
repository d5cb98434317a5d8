//! A text, and a list of texts, that contracts see as lists.

ghost use Rattle.std.specs.Prelude.{◌≡◌, ◌<◌, ◌++◌, ◌∷◌, [], length, slice_get, Some, IfOk, OnOk, OnErr};

use crate::OutOfMemory;
use omi_list::List;
use std::alloc::Global;
use std::marker::Model;

/// A text, seen as its bytes.
#[derive(Drop)]
pub struct Text {
    bytes: Vec<u8>,
}

impl Model for Text {
    ghost use Rattle.std.specs.Prelude.{List, ℕ};

    ghost Value = { List ℕ };

    ghost view = { λ a. a.bytes.items };
}

impl Text {
    /// An empty text, which keeps the allocator.
    pub fn new(alloc: Global) -> Text
        ensures { result ≡ [] }
    {
        Text {
            bytes: Vec::new(alloc),
        }
    }

    /// The text of a word.
    pub(crate) fn of(alloc: Global, word: &str) -> Result<Text, OutOfMemory>
        ensures { IfOk result (λ text. text ≡ word.now) }
    {
        let bytes = word.as_bytes().to_vec(alloc)?;
        Ok(Text { bytes })
    }

    /// The number of bytes.
    pub fn len(&self) -> usize
        ensures { result ≡ length self.now }
    {
        self.bytes.len()
    }

    /// The byte at a place, counted from 0.
    pub fn get(&self, at: usize) -> &u8
        requires { at < length self.now }
        ensures { slice_get self.now at ≡ Some result.now }
    {
        &self.bytes[at]
    }

    /// Adds a byte at the end.
    pub fn push(&mut self, e: u8) -> Result<(), OutOfMemory>
        ensures added { OnOk result (self.new ≡ self.old ++ e ∷ []) }
        ensures refused { OnErr result (self.new ≡ self.old) }
    {
        self.bytes.push(e)?;
        Ok(())
    }

    /// All bytes.
    pub fn bytes(&self) -> &[u8]
        ensures { result.now ≡ self.now }
    {
        &self.bytes
    }
}

/// A list of texts.
pub type TextList = List<Text>;
