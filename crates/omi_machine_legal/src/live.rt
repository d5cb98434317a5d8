//! Whether each live object of a kind passes a test.

ghost use Rattle.std.specs.Prelude.{◌≡◌, ◌↔◌, true};
ghost use Rattle.std.specs.List.{All};
ghost use Rattle.omi_machine_legal.specs.Decided.{AreLive, IfLive};
ghost use Rattle.omi_machine.specs.Kept.{slots_of, state_of};

use omi_machine::State;
use omi_model::{Region, Rows, Slot, Task};

/// A test of an object.
pub trait Test<T> {
    ghost Passes: { Self → T → Type 0 };

    /// Whether an object passes.
    fn passes(&self, x: &T) -> bool
        ensures { (result ≡ true) ↔ Passes self.now x.now };
}

/// Whether the object that lives in a slot passes a test, if one does.
fn passes_in<T: Drop, Q: Test<T>>(test: &Q, slot: &Slot<T>) -> bool
    ensures { (result ≡ true) ↔ IfLive (Q.Passes test.now) slot.now }
{
    match &slot.live {
        Some(x) => test.passes(x),
        None => true,
    }
}

/// Whether each object that lives in the slots of a creator passes a test.
fn pass_in<T: Drop, Q: Test<T>>(test: &Q, slots: &[Slot<T>]) -> bool
    ensures { (result ≡ true) ↔ All (IfLive (Q.Passes test.now)) slots.now }
{
    slots.iter().all(|slot| passes_in(test, slot))
}

/// Whether each object that lives in the slots that are kept passes a test.
fn pass_kept<T: Drop, Q: Test<T>>(test: &Q, slots: &Rows<Rows<Slot<T>>>) -> bool
    ensures { (result ≡ true) ↔ All (All (IfLive (Q.Passes test.now))) slots.now }
{
    slots
        .as_slice()
        .iter()
        .all(|row| pass_in(test, row.as_slice()))
}

/// Whether each live object passes a test.
fn pass<T: Drop, Q: Test<T>>(test: &Q, slots: &Rows<Rows<Slot<T>>>) -> bool
    ensures { (result ≡ true) ↔ AreLive (Q.Passes test.now) (slots_of slots.now) }
{
    pass_kept(test, slots)
}

/// Whether each live task of a state passes a test.
pub fn tasks_pass<Q: Test<Task>>(test: &Q, s: &State) -> bool
    ensures { (result ≡ true) ↔ AreLive (Q.Passes test.now) (state_of s.now).tasks }
{
    pass(test, s.tasks())
}

/// Whether each live region of a state passes a test.
pub fn regions_pass<Q: Test<Region>>(test: &Q, s: &State) -> bool
    ensures { (result ≡ true) ↔ AreLive (Q.Passes test.now) (state_of s.now).regions }
{
    pass(test, s.regions())
}
