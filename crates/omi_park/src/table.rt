//! The table of words, as its threads see it.

ghost use Rattle.std.specs.Prelude.{◌≡◌, ◌<◌, ◌+◌};
ghost use Rattle.omi_layout.specs.Place.{image_words};
ghost use Rattle.omi_park.specs.Work.{IsTableOf};

use crate::known::Part;
use crate::rule::{Given, Running};
use atomic_table::Shared;
use omi_layout::Layout;
use omi_list::List;

/// The image's words, the epoch word, and an acknowledgement word of each worker.
pub(crate) type Words = Shared<(), List<Part>, Given, Running>;

/// The place of a worker's acknowledgement word.
pub(crate) fn acknowledgement_place(l: &Layout, _words: &Words, thread: u8) -> usize
    requires at { IsTableOf l.now _words.now.key _words.now.table_id }
    requires below { thread < _words.now.key.program.value.threads }
    ensures place { result ≡ image_words l.now.table + 1 + thread }
    ensures inside { result < _words.now.table_id.words }
{
    l.image_words() + 1 + usize::from(thread)
}
