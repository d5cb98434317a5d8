//! The rows of the regions that were met, in the order of their slots.

ghost use Rattle.std.specs.Prelude.{◌≡◌, ◌<◌, ◌^◌, ◌∷◌, [], Err};
ghost use Rattle.std.specs.List.{filter_map};
ghost use Rattle.omi_walk.specs.declared.limits.TheConstants.{HANDLES_WITHIN};
ghost use Rattle.omi_layout.specs.Field.{regions};
ghost use Rattle.omi_outside.specs.Outside.{HasCause};
ghost use Rattle.omi_walk.specs.Index.{HasFirst, AreSmall};
ghost use Rattle.omi_walk.specs.Leaves.{Leaves};
ghost use Rattle.omi_walk.specs.Regions.{AreLive, own_slots, met_in_slot};
ghost use Rattle.omi_walk.specs.Walks.{Walks, WalksRows};
ghost use Rattle.omi_walk.specs.Asking.{ask_each};
ghost use Rattle.omi_walk.specs.AskRegions.{ask_region, ask_rows};

use crate::WalkFault;
use crate::index::slot_key;
use crate::met::Met;
use crate::regions::region_row;
use omi_calls::{Callbacks, ToHost};
use omi_model::RegionRows;
use omi_session::Session;
use std::alloc::Global;
use std::collections::BTreeMap;

/// Adds the row of the region in a slot of a thread, if an index has one there.
fn add_row<C: Callbacks, F: ToHost>(
    s: &mut Session<C, F>,
    alloc: Global,
    index: &BTreeMap<u32, Met>,
    slot: (u8, u16),
    rows: &mut RegionRows,
) -> Result<(), WalkFault>
    requires many { s.old.handles.made < 2 ^ 58 }
    requires live { AreLive C.told s.old index.now }
    ensures reads { WalksRows C.told C.asked s.old s.new result rows.old rows.new
        (ask_each (ask_region s.old.layout)
        (filter_map (met_in_slot index.now) (slot ∷ []))) }
    ensures leaves { Leaves C.told 130 s.old s.new }
    ensures cause { HasCause (C.faults s.old.table.calls) (C.faults s.new.table.calls)
        (result ≡ Err WalkFault.Callback) }
{
    let Some(region) = index.get(&slot_key(slot.0, slot.1)) else {
        return Ok(());
    };
    let row = region_row(s, alloc, *region)?;
    rows.push(row)?;
    Ok(())
}

/// Adds the rows of the regions in the slots of a thread.
fn add_rows<C: Callbacks, F: ToHost>(
    s: &mut Session<C, F>,
    alloc: Global,
    index: &BTreeMap<u32, Met>,
    creator: u8,
    rows: &mut RegionRows,
) -> Result<(), WalkFault>
    requires many { s.old.handles.made < HANDLES_WITHIN }
    requires live { AreLive C.told s.old index.now }
    ensures reads { WalksRows C.told C.asked s.old s.new result rows.old rows.new
        (ask_each (ask_region s.old.layout)
        (filter_map (met_in_slot index.now) (own_slots s.old.layout creator))) }
    ensures leaves { Leaves C.told 8320 s.old s.new }
    ensures cause { HasCause (C.faults s.old.table.calls) (C.faults s.new.table.calls)
        (result ≡ Err WalkFault.Callback) }
{
    for slot in 0..s.layout().regions_per_thread() {
        add_row(s, alloc, index, (creator, slot), rows)?;
    }
    Ok(())
}

/// The rows of the regions of an index, in the order of their slots: of those that were met in a slot the first.
pub fn region_rows<C: Callbacks, F: ToHost>(
    s: &mut Session<C, F>,
    alloc: Global,
    index: &BTreeMap<u32, Met>,
) -> Result<RegionRows, WalkFault>
    requires many { s.old.handles.made < 2 ^ 56 }
    requires live { AreLive C.told s.old index.now }
    ensures reads { (met : _) → HasFirst index.now met → AreSmall met
        → Walks C.told C.asked s.old s.new result (ask_rows s.old.layout met) }
    ensures leaves { Leaves C.told 532480 s.old s.new }
    ensures cause { HasCause (C.faults s.old.table.calls) (C.faults s.new.table.calls)
        (result ≡ Err WalkFault.Callback) }
{
    let mut rows = RegionRows::new(alloc);
    for creator in 0..s.layout().threads() {
        add_rows(s, alloc, index, creator, &mut rows)?;
    }
    Ok(rows)
}
