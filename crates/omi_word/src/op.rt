//! The operations on one word.

ghost use Rattle.std.specs.Prelude.{◌≡◌};
ghost use Rattle.omi_word.specs.Memory.{address_of, left_of};

/// An atomic operation on the word at the byte address `at`.
#[derive(Clone, Copy, Debug, PartialEq, Eq)]
pub enum Op {
    /// Leaves the word as it is.
    Load { at: u64 },
    /// Leaves `new`.
    Store { at: u64, new: u64 },
    /// Compare and exchange: leaves `new` where the word is `old`.
    Cas { at: u64, old: u64, new: u64 },
    /// Adds modulo 2^64.
    Add { at: u64, by: u64 },
    /// Subtracts modulo 2^64.
    Sub { at: u64, by: u64 },
}

impl Op {
    /// The byte address of the word that the operation is on.
    pub fn address(&self) -> u64
        ensures { result ≡ address_of self.now }
    {
        match self {
            Op::Load { at } => *at,
            Op::Store { at, .. } => *at,
            Op::Cas { at, .. } => *at,
            Op::Add { at, .. } => *at,
            Op::Sub { at, .. } => *at,
        }
    }

    /// The word that the operation leaves where it finds `before`.
    pub fn left(&self, before: u64) -> u64
        ensures { result ≡ left_of self.now before }
    {
        match self {
            Op::Load { .. } => before,
            Op::Store { new, .. } => *new,
            Op::Cas { old, new, .. } => { if before == *old { *new } else { before } }
            Op::Add { by, .. } => before.wrapping_add(*by),
            Op::Sub { by, .. } => before.wrapping_sub(*by),
        }
    }
}

/// What an operation answers: the word that it found.
#[derive(Clone, Copy, Debug, PartialEq, Eq)]
pub struct Res {
    pub old: u64,
}
