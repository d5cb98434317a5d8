//! Whether a name is fresh.

ghost use Rattle.std.specs.Prelude.{◌≡◌, ◌↔◌, true, unwrap_or};
ghost use Rattle.std.specs.Option.{option_map};
ghost use Rattle.omi_model.specs.Fresh.{IsFresh};
ghost use Rattle.omi_machine.specs.Kept.{slots_of, state_of};
ghost use Rattle.omi_model.specs.Put.{unused};

use omi_machine::State;
use omi_model::{Id, Rid, Rows, Slot, Tid};

/// A slot of a creator, where it is kept.
fn slot_of<T: Drop>(slots: &Rows<Rows<Slot<T>>>, thread: usize, slot: u16) -> Option<&Slot<T>>
    ensures { unwrap_or (option_map (λ s. s.now) result) unused
        ≡ slots_of slots.now thread slot }
{
    slots.find(thread)?.find(slot as usize)
}

/// Whether a name is fresh for a thread.
fn is_fresh<T: Drop>(slots: &Rows<Rows<Slot<T>>>, thread: usize, n: Id) -> bool
    ensures { (result ≡ true) ↔ IsFresh (slots_of slots.now) thread n }
{
    if n.creator as usize != thread {
        return false;
    }
    match slot_of(slots, thread, n.slot) {
        Some(slot) => slot.live.is_none() && slot.generations == n.generation as u64,
        None => n.generation == 0,
    }
}

/// Whether a name is fresh for a task of a thread.
pub fn is_fresh_task(s: &State, i: usize, k: Tid) -> bool
    ensures { (result ≡ true) ↔ IsFresh (state_of s.now).tasks i k.0 }
{
    is_fresh(s.tasks(), i, k.0)
}

/// Whether a name is fresh for a region of a thread.
pub fn is_fresh_region(s: &State, i: usize, n: Rid) -> bool
    ensures { (result ≡ true) ↔ IsFresh (state_of s.now).regions i n.0 }
{
    is_fresh(s.regions(), i, n.0)
}
