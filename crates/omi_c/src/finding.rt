//! What is known at an address.

ghost use Rattle.std.specs.Prelude.{◌≡◌};
ghost use Rattle.omi_c.specs.Known.{known_at};
ghost use Rattle.omi_c.specs.Passed.{IsPassed};

use crate::known::Known;

/// The first known word at a byte address.
pub fn find_known(known: &[Known], addr: u64) -> Option<Known>
    ensures { result ≡ known_at known.now addr }
{
    for at in 0..known.len() {
        if known[at].addr == addr {
            return Some(known[at]);
        }
    }
    None
}

/// Known words that are mostly looked for in the order in which they stand, at rising addresses: the next one is then found at once.
#[derive(Drop)]
pub struct KnownInOrder<'a> {
    known: &'a [Known],
    next: usize,
    highest: u64,
    ghost passed: { IsPassed known.now next highest },
}

impl<'a> KnownInOrder<'a> {
    ghost use Rattle.omi_c.specs.Calls.{words_of};

    /// None of these words was looked for.
    pub fn over(known: &'a [Known]) -> KnownInOrder<'a>
        ensures { words_of result ≡ known.now }
    {
        KnownInOrder {
            known,
            next: 0,
            highest: 0,
        }
    }

    /// The first known word at a byte address.
    pub fn find(&mut self, addr: u64) -> Option<Known>
        ensures found { result ≡ known_at (words_of self.old) addr }
        ensures same { words_of self.new ≡ words_of self.old }
    {
        if self.next < self.known.len()
            && self.known[self.next].addr == addr
            && addr > self.highest
        {
            let found = self.known[self.next];
            *self = KnownInOrder {
                known: self.known,
                next: self.next + 1,
                highest: addr,
            };
            return Some(found);
        }
        find_known(self.known, addr)
    }
}
