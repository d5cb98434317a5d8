//! The publishing of a layout: the words in front of the records.

ghost use Rattle.std.specs.Prelude.{◌≡◌, ◌+◌, ◌<◌, ◌≤◌, IsTrue, length, slice_set};
ghost use Rattle.omi_layout.specs.Front.{IsWritten, IsPublished};
ghost use Rattle.omi_word.specs.Words.{words_of};
ghost use Rattle.omi_layout.specs.Given.{GivesLayout};
ghost use Rattle.omi_layout.specs.Place;
ghost use Rattle.omi_layout.specs.declared.limits.TheConstants.{FRONT_WORDS};

use crate::layout::Layout;
use omi_word::{FIRST_ADDRESS, Image, Op};

/// The symbol table and the entry point words.
const FRONT: [u64; 43] = [
    8,
    // ompd_dll_locations
    0x6c6c_645f_6470_6d6f,
    0x6f69_7461_636f_6c5f,
    0x736e,
    0,
    0x10148,
    // ompd_bp_parallel_begin
    0x5f70_625f_6470_6d6f,
    0x6c65_6c6c_6172_6170,
    0x6e69_6765_625f,
    0,
    0x8000,
    // ompd_bp_parallel_end
    0x5f70_625f_6470_6d6f,
    0x6c65_6c6c_6172_6170,
    0x646e_655f,
    0,
    0x8010,
    // ompd_bp_task_begin
    0x5f70_625f_6470_6d6f,
    0x6765_625f_6b73_6174,
    0x6e69,
    0,
    0x8020,
    // ompd_bp_task_end
    0x5f70_625f_6470_6d6f,
    0x646e_655f_6b73_6174,
    0,
    0,
    0x8030,
    // ompd_bp_thread_begin
    0x5f70_625f_6470_6d6f,
    0x625f_6461_6572_6874,
    0x6e69_6765,
    0,
    0x8040,
    // ompd_bp_thread_end
    0x5f70_625f_6470_6d6f,
    0x655f_6461_6572_6874,
    0x646e,
    0,
    0x8050,
    // omi_layout
    0x6f79_616c_5f69_6d6f,
    0x7475,
    0,
    0,
    0x10158,
    // the address of the list of library locations, and that list, which is empty
    0x10150,
    0,
];

/// Stores a word at a place of an image.
fn store(image: &mut Image, place: usize, word: u64)
    requires front { place < FRONT_WORDS }
    requires inside { place < length image.old }
    ensures { image.new ≡ slice_set image.old place word }
{
    image.apply(Op::Store {
        at: FIRST_ADDRESS + 8 * place as u64,
        new: word,
    });
}

/// Stores words from a place of an image on.
fn write(image: &mut Image, first: usize, words: &[u64])
    requires front { first + length words.now ≤ FRONT_WORDS }
    requires inside { first + length words.now ≤ length image.old }
    ensures { IsWritten first words.now image.old image.new }
{
    for at in 0..words.len() {
        store(image, first + at, words[at]);
    }
}

impl Layout {
    /// Writes the symbol table, the entry point words and the layout table into an image. All other
    /// words stay, and the image gives this layout.
    pub fn publish(&self, image: &mut Image)
        requires { IsTrue (Place.fits self.now.table (length image.old)) }
        ensures published { IsPublished self.now.table image.old image.new }
        ensures gives { GivesLayout (words_of image.new) self.now.table }
    {
        write(image, 0, &FRONT);
        write(image, 43, &self.table);
    }
}
