//! Program headers: what a file says of each of its segments.

ghost use Rattle.std.specs.Prelude.{◌≡◌};
ghost use Rattle.omi_elf.specs.Header.{word_count, is_kept, is_note_segment};

use crate::{LOAD_SEGMENT, NOTE_SEGMENT};
use omi_word::{FIRST_ADDRESS, MEMORY_END};

/// What a file says of a segment. Sizes and places are in bytes.
#[derive(Clone, Copy)]
pub struct ProgramHeader {
    /// Where `p_vaddr` stands in the file.
    pub start_place: u64,
    /// What the segment is.
    pub p_type: u32,
    /// Where its bytes stand in the file.
    pub p_offset: u64,
    /// The address of its first byte in memory.
    pub p_vaddr: u64,
    /// How many bytes of it the file has.
    pub p_filesz: u64,
}

impl ProgramHeader {
    /// The number of its words: whole groups of eight bytes.
    pub fn word_count(&self) -> u64
        ensures { result ≡ word_count self.now }
    {
        self.p_filesz / 8
    }

    /// It is a segment of memory of a program, with a word at least.
    pub fn is_kept(&self) -> bool
        ensures { result ≡ is_kept self.now }
    {
        self.p_type == LOAD_SEGMENT
            && FIRST_ADDRESS <= self.p_vaddr
            && self.p_vaddr < MEMORY_END
            && 8 <= 8 * self.word_count()
    }

    /// It is a segment of notes.
    pub fn is_note_segment(&self) -> bool
        ensures { result ≡ is_note_segment self.now }
    {
        self.p_type == NOTE_SEGMENT
    }
}
