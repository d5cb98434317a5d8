//! Meeting the objects of a walk, each once.

ghost use Rattle.std.specs.Prelude.{◌≡◌, ◌≤◌, true, false, length, IfOk, IfSome, IfNone, Some, None};
ghost use Rattle.std.specs.List.{All};
ghost use Rattle.omi_model.specs.declared.id.Id.{Id};
ghost use Rattle.omi_model.specs.Put.{named};
ghost use Rattle.omi_machine.specs.Kept.{slots_of};
ghost use Rattle.omi_machine_view.specs.Marks.{HasPlace, HavePlaces, IsMetSlot, Stops, WasMet};
ghost use Rattle.omi_machine_view.specs.Marked.{IsMarked};

use crate::marks::Marks;
use omi_machine::live_in;
use omi_model::{Id, Rows, Slot};
use omi_word::OutOfMemory;
use std::alloc::{AllocError, Global};

/// The most slots that a creator has.
fn longest<T: Drop>(slots: &Rows<Rows<Slot<T>>>) -> usize
    ensures { All (λ own. length own ≤ result) slots.now }
{
    let mut most = 0;
    for own in slots.as_slice() {
        most = most.max(own.len());
    }
    most
}

impl Marks {
    /// Nothing was met yet.
    pub fn none<T: Drop>(alloc: Global, slots: &Rows<Rows<Slot<T>>>) -> Result<Marks, OutOfMemory>
        ensures places { IfOk result (λ m. HavePlaces m.creators m.width (slots_of slots.now)) }
        ensures empty { IfOk result (λ m. (n : Id) → WasMet m.met.items n → ⊥) }
    {
        let creators = slots.len();
        let width = longest(slots);
        let count = creators.checked_mul(width).ok_or(AllocError)?;
        let met = vec![in alloc; None; count]?;
        Ok(Marks {
            creators,
            width,
            met,
        })
    }

    /// Marks the slot of an object as met. False where one was met there before, or where there is no
    /// such slot.
    pub fn mark(&mut self, n: Id) -> bool
        ensures marked { result ≡ true → IsMarked self.old self.new n }
        ensures same { result ≡ false → self.new ≡ self.old }
        ensures met { result ≡ false → HasPlace self.old.creators self.old.width n
            → IsMetSlot self.old.met.items n }
    {
        if n.creator as usize >= self.creators || n.slot as usize >= self.width {
            return false;
        }
        let place = n.creator as usize * self.width + n.slot as usize;
        if self.met[place].is_some() {
            return false;
        }
        self.met[place] = Some(n);
        true
    }
}

/// The next object of a walk, where it is live and its slot was not met before. It is met then.
pub fn next_live<'a, T: Drop>(
    slots: &'a Rows<Rows<Slot<T>>>,
    marks: &mut Marks,
    at: Option<Id>,
) -> Option<(Id, &'a T)>
    requires { HavePlaces marks.old.creators marks.old.width (slots_of slots.now) }
    ensures next { IfSome result (λ x. at ≡ Some x.0) }
    ensures live { IfSome result (λ x. named (slots_of slots.now) x.0 ≡ Some x.1.now) }
    ensures marked { IfSome result (λ x. IsMarked marks.old marks.new x.0) }
    ensures stops { IfNone result (Stops (slots_of slots.now) marks.old.met.items at) }
    ensures same { IfNone result (marks.new ≡ marks.old) }
{
    let n = at?;
    let x = live_in(slots, n)?;
    if marks.mark(n) { Some((n, x)) } else { None }
}
