//! Why a layout table is refused.

ghost use Rattle.std.specs.Prelude.{◌≡◌};

use crate::table::place_index;

/// Why a layout table is refused. Fields and arenas go by their numbers, and the least decides.
#[derive(Clone, Copy, Debug, PartialEq, Eq)]
pub enum LayoutFault {
    /// The version of the table is this, and neither 1 nor 2.
    Version(u64),
    /// Two fields of one record share a word.
    Overlap(u8, u8),
    /// The field ends behind its record, or the record has more than 4,096 words.
    OutOfRecord(u8),
    /// The arena is unaligned, too low or too high, shares a word with one of lower number, or its count is out of range: 1 runtime, 2 threads, 3 regions, 4 tasks.
    BadArena(u8),
}

impl LayoutFault {
    ghost use Rattle.omi_layout.specs.Valid.{word_named};

    /// The place in the table of the word that the fault names, from 0 on: the version, the offset of the field, of the greater
    /// field of two, or the place of the arena.
    pub fn table_word(&self) -> usize
        ensures { result ≡ word_named self.now }
    {
        match self {
            LayoutFault::Version(_) => 0,
            LayoutFault::Overlap(_, field) | LayoutFault::OutOfRecord(field) => 11
                + *field as usize,
            LayoutFault::BadArena(arena) => place_index(*arena),
        }
    }
}
