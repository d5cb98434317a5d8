//! What is read back from words.

ghost use Rattle.std.specs.Prelude.{◌≡◌, ◌+◌, ◌*◌};
ghost use Rattle.omi_step_words.specs.Words;
ghost use Rattle.omi_step_words.specs.Words.{unused_word, used_word};

use omi_layout::Layout;
use omi_model::Id;
use omi_numbers::{LIFE_END, life_word};
use omi_pc::Place;

/// The place that stands for an address where no record begins.
const FIRST_PLACE: Place = Place {
    creator: 0,
    slot: 0,
};

/// The slot of the task whose record begins at a byte address, and the first slot where none does.
pub fn task_place(l: &Layout, address: u64) -> Place
    ensures { result ≡ Words.task_place l.now.table address }
{
    match l.task_of(address) {
        Some((creator, slot)) => Place { creator, slot },
        None => FIRST_PLACE,
    }
}

/// The slot of the region whose record begins at a byte address, and the first slot where none does.
pub fn region_place(l: &Layout, address: u64) -> Place
    ensures { result ≡ Words.region_place l.now.table address }
{
    match l.region_of(address) {
        Some((creator, slot)) => Place { creator, slot },
        None => FIRST_PLACE,
    }
}

/// The generation that a life word counts.
pub fn generation_of(life: u64) -> u32
    ensures { result ≡ Words.generation_of life }
{
    (life / 2 % (1 << 32)) as u32
}

/// The object in a slot whose record has this life word.
pub fn object_in(at: Place, life: u64) -> Id
    ensures { result ≡ Words.object_in at life }
{
    Id {
        creator: at.creator,
        slot: at.slot,
        generation: generation_of(life),
    }
}

/// Whether a record with this life word may be taken.
pub fn is_free(life: u64) -> bool
    ensures { result ≡ Words.is_free life }
{
    life % 2 == 0 && life < LIFE_END
}

/// The life word of a record that is in use.
pub fn used_word(n: Id) -> u64
    ensures { result ≡ used_word n }
{
    life_word(n.generation)
}

/// The life word of a record whose object is given back.
pub fn unused_word(n: Id) -> u64
    ensures { result ≡ unused_word n }
{
    2 * u64::from(n.generation) + 2
}
