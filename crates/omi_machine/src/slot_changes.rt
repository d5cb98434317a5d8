//! Changes of the slots in which objects live.

ghost use Rattle.std.specs.Prelude.{◌≡◌, ◌≤◌, ◌+◌, ℕ, Some, None, IfSome, IfNone, OnOk, length, slice_get, unwrap_or};
ghost use Rattle.omi_machine.specs.Kept.{slots_of};
ghost use Rattle.omi_model.specs.Put.{gone, made, named, unused};
ghost use Rattle.omi_model.specs.declared.id.Id.{Id};
ghost use Rattle.omi_machine.specs.KeptSlots.{IsKept, slot_at, with_slot};

use omi_model::{Id, Rows, Slot};
use omi_word::OutOfMemory;
use std::alloc::Global;

/// A slot that has had no object.
fn unused_slot<T>() -> Slot<T>
    ensures { result ≡ unused }
{
    Slot {
        generations: 0,
        live: None,
    }
}

/// Puts a slot in the place of another one, which is handed out.
pub(crate) fn exchange_slot<T: Drop>(
    alloc: Global,
    slots: &mut Rows<Rows<Slot<T>>>,
    n: Id,
    slot: Slot<T>,
) -> Slot<T>
    requires { IsKept slots.old n }
    ensures before { result ≡ slot_at slots.old n }
    ensures after { slots.new ≡ with_slot slots.old n slot }
{
    let mut row = slots.exchange(n.creator as usize, Rows::new(alloc));
    let old = row.exchange(n.slot as usize, slot);
    slots.exchange(n.creator as usize, row);
    old
}

/// Takes the live object of a name out of its slot.
pub(crate) fn take_live<T: Drop>(alloc: Global, slots: &mut Rows<Rows<Slot<T>>>, n: Id) -> Option<T>
    ensures found { IfSome result (λ t. named (slots_of slots.old) n ≡ Some t) }
    ensures kept { IfSome result (λ t. IsKept slots.old n) }
    ensures taken { IfSome result (λ t. slots.new
        ≡ with_slot slots.old n (record { generations = n.generation + 1; live = None })) }
    ensures none { IfNone result (named (slots_of slots.old) n ≡ None) }
    ensures same { IfNone result (slots.new ≡ slots.old) }
{
    let found = match slots.find(n.creator as usize)?.find(n.slot as usize) {
        Some(slot) => slot.generations == n.generation as u64 + 1 && slot.live.is_some(),
        None => false,
    };
    if !found {
        return None;
    }
    let empty = Slot {
        generations: n.generation as u64 + 1,
        live: None,
    };
    exchange_slot(alloc, slots, n, empty).live
}

/// Takes the object of a name away, where it is live.
pub(crate) fn take_away<T: Drop>(alloc: Global, slots: &mut Rows<Rows<Slot<T>>>, n: Id)
    ensures { slots_of slots.new ≡ gone (slots_of slots.old) n }
{
    take_live(alloc, slots, n);
}

/// Puts an object into the slot of its name.
pub(crate) fn put_live<T: Drop>(alloc: Global, slots: &mut Rows<Rows<Slot<T>>>, n: Id, x: T)
    requires { IsKept slots.old n }
    ensures { slots.new
        ≡ with_slot slots.old n (record { generations = n.generation + 1; live = Some x }) }
{
    let full = Slot {
        generations: n.generation as u64 + 1,
        live: Some(x),
    };
    exchange_slot(alloc, slots, n, full);
}

/// Keeps the slots of so many creators. Creators that are new have no slots.
fn keep_creators<T: Drop>(
    alloc: Global,
    slots: &mut Rows<Rows<Slot<T>>>,
    count: usize,
) -> Result<(), OutOfMemory>
    ensures same { slots_of slots.new ≡ slots_of slots.old }
    ensures keeps { (n : Id) → IsKept slots.old n → IsKept slots.new n }
    ensures done { OnOk result (count ≤ length slots.new) }
{
    for _ in slots.len()..count {
        slots.push(Rows::new(alloc))?;
    }
    Ok(())
}

/// Keeps so many slots of a creator. Slots that are new have had no object.
fn keep_row<T: Drop>(row: &mut Rows<Slot<T>>, count: usize) -> Result<(), OutOfMemory>
    ensures same { (k : ℕ) → unwrap_or (slice_get row.new k) unused
        ≡ unwrap_or (slice_get row.old k) unused }
    ensures more { length row.old ≤ length row.new }
    ensures done { OnOk result (count ≤ length row.new) }
{
    for _ in row.len()..count {
        row.push(unused_slot())?;
    }
    Ok(())
}

/// Keeps the slot of a name. What is kept means the same slots, also where there is no room.
pub(crate) fn keep_slot<T: Drop>(
    alloc: Global,
    slots: &mut Rows<Rows<Slot<T>>>,
    n: Id,
) -> Result<(), OutOfMemory>
    ensures same { slots_of slots.new ≡ slots_of slots.old }
    ensures keeps { (m : Id) → IsKept slots.old m → IsKept slots.new m }
    ensures done { OnOk result (IsKept slots.new n) }
{
    keep_creators(alloc, slots, n.creator as usize + 1)?;
    let mut row = slots.exchange(n.creator as usize, Rows::new(alloc));
    let kept = keep_row(&mut row, n.slot as usize + 1);
    slots.exchange(n.creator as usize, row);
    kept
}

/// An object begins under a name whose slot is kept.
pub(crate) fn make<T: Drop>(alloc: Global, slots: &mut Rows<Rows<Slot<T>>>, n: Id, x: T)
    requires { IsKept slots.old n }
    ensures made { slots_of slots.new ≡ made (slots_of slots.old) n x }
    ensures keeps { (m : Id) → IsKept slots.old m → IsKept slots.new m }
{
    put_live(alloc, slots, n, x);
}
