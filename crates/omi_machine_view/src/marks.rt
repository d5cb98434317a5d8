//! Which slots a walk has met.

ghost use Rattle.std.specs.Prelude.{◌≡◌, ◌*◌, vec_len};
ghost use Rattle.omi_machine_view.specs.Marks.{ArePlaced};

use omi_model::Id;

/// For each slot of each creator the name of the object that was met there.
#[derive(Drop)]
pub struct Marks {
    pub creators: usize,
    pub width: usize,
    pub met: Vec<Option<Id>>,
    ghost sized: { vec_len met ≡ creators * width },
    ghost placed: { ArePlaced creators width met.items },
}
