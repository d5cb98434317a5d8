//! The objects that were met, by the slots of their records.

ghost use Rattle.std.specs.Prelude.{◌≡◌, ◌<◌, ◌++◌, ◌∷◌, [], OnOk, IfErr};
ghost use Rattle.omi_walk.specs.Index.{slot_key as the_slot_key, HasFirst, AreSmall};

use crate::WalkFault;
use crate::met::Met;
use omi_list::List;
use std::collections::BTreeMap;

/// The key of a slot.
pub fn slot_key(creator: u8, slot: u16) -> u32
    ensures { result ≡ the_slot_key creator slot }
{
    u32::from(creator) * 65536 + u32::from(slot)
}

/// Puts an object into an index, where this has none of its slot.
fn index_one(index: &mut BTreeMap<u32, Met>, m: Met) -> Result<(), WalkFault>
    ensures first { OnOk result ((before : _) → HasFirst index.old before
        → HasFirst index.new (before ++ m ∷ [])) }
    ensures small { m.name.slot < 65536 }
    ensures memory { IfErr result (λ fault. fault ≡ WalkFault.OutOfMemory) }
{
    let key = slot_key(m.name.creator, m.name.slot);
    if !index.contains_key(&key) {
        index.insert(key, m)?;
    }
    Ok(())
}

/// Puts objects into an index, of each slot the first.
pub fn index_all(index: &mut BTreeMap<u32, Met>, met: &List<Met>) -> Result<(), WalkFault>
    ensures first { OnOk result ((before : _) → HasFirst index.old before
        → HasFirst index.new (before ++ met.now)) }
    ensures small { OnOk result (AreSmall met.now) }
    ensures memory { IfErr result (λ fault. fault ≡ WalkFault.OutOfMemory) }
{
    for i in 0..met.len() {
        index_one(index, *met.get(i))?;
    }
    Ok(())
}
