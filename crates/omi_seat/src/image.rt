//! The words of an image as those of a table, and back.

ghost use Rattle.std.specs.Prelude.{◌≡◌, ◌≤◌, ◌++◌, ℕ, List, length, replicate, IfOk};
ghost use Rattle.std.specs.Mem.Slots.{IsFull, slots_items, slots_len};
ghost use Rattle.omi_word.specs.declared.limits.TheConstants.{MOST_WORDS};

use atomic_table::Closed;
use omi_core::OutOfMemory;
use omi_word::{FIRST_ADDRESS, Image, Op};
use std::alloc::Global;

/// The words of an image, and behind them so many that are 0, at most as many as an image may have.
pub fn words_of(alloc: Global, image: &Image, others: usize) -> Result<Vec<u64>, OutOfMemory>
    requires { others ≤ MOST_WORDS }
    ensures { IfOk result (λ words. words.items ≡ image.now ++ replicate others 0) }
{
    let mut words = Vec::new(alloc);
    for at in 0..image.len() {
        words.push(image.get(FIRST_ADDRESS + 8 * at as u64).unwrap())?;
    }
    words.resize(image.len() + others, 0)?;
    Ok(words)
}

/// The first words of a table that no thread shares any more, in place of those of an image.
pub fn image_of(mut image: Image, closed: &Closed<(), Global>) -> Image
    requires full { IsFull closed.now.words }
    requires long { length image ≤ slots_len closed.now.words }
    ensures { (words others : List ℕ) → slots_items closed.now.words ≡ words ++ others
        → length words ≡ length image → result ≡ words }
{
    let count = image.len();
    for at in 0..count {
        image.apply(Op::Store {
            at: FIRST_ADDRESS + 8 * at as u64,
            new: closed.word(at),
        });
    }
    image
}
