//! Programs and layouts that agree.

ghost use Rattle.std.specs.Prelude.{◌↔◌, IsTrue};
ghost use Rattle.omi_rep.specs.Suits.{Suits};

use omi_layout::{GROUP_VERSION, Layout};
use omi_script::Program;
use omi_word::MOST_WORDS;

/// Whether a program runs in an image of the layout: they have equally many threads, and the layout fits its own image,
/// which isn't too large, and is of version 2, with words for groups of tasks.
pub fn suits(p: &Program, l: &Layout) -> bool
    ensures { IsTrue result ↔ Suits p.now l.now.table }
{
    let words = l.image_words();
    p.threads == l.threads()
        && l.fits(words)
        && words as u64 <= MOST_WORDS
        && l.version() == GROUP_VERSION
}
