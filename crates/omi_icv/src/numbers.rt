//! At most as many numbers as nthreads-var has elements, which contracts see as a list: the value of a variable.

ghost use Rattle.std.specs.Prelude.{◌≡◌, ◌<◌, ◌≤◌, ◌++◌, ◌∷◌, [], length};
ghost use Rattle.omi_script.specs.declared.limits.TheConstants.{MAX_SIZES};

use omi_script::limits::MAX_SIZES;
use std::marker::Model;

/// The numbers in order.
#[derive(Drop)]
pub struct Numbers {
    words: [u64; MAX_SIZES],
    count: usize,
    ghost few: { count ≤ MAX_SIZES },
}

impl Model for Numbers {
    ghost use Rattle.std.specs.Prelude.{List, ℕ, take};

    ghost Value = { List ℕ };

    ghost view = { λ a. take a.count a.words };
}

impl Numbers {
    /// No number.
    pub fn new() -> Numbers
        ensures { result ≡ [] }
    {
        Numbers {
            words: [0; MAX_SIZES],
            count: 0,
        }
    }

    /// One number.
    pub fn one(number: u64) -> Numbers
        ensures { result ≡ number ∷ [] }
    {
        Numbers {
            words: [number, 0, 0, 0],
            count: 1,
        }
    }

    /// Adds a number at the end.
    pub fn push(&mut self, number: u64)
        requires { length self.old < MAX_SIZES }
        ensures { self.new ≡ self.old ++ number ∷ [] }
    {
        self.words[self.count] = number;
        self.count += 1;
    }

    /// All of them.
    pub fn as_slice(&self) -> &[u64]
        ensures numbers { result.now ≡ self.now }
        ensures few { length result.now ≤ MAX_SIZES }
    {
        &self.words[..self.count]
    }
}
