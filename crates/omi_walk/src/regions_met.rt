//! The regions of the found threads, by the slots of their records.

ghost use Rattle.std.specs.Prelude.{◌≡◌, ◌<◌, ◌≤◌, ◌^◌, length, Err, IfOk, All};
ghost use Rattle.omi_walk.specs.declared.limits.TheConstants.{HANDLES_WITHIN};
ghost use Rattle.omi_handle.specs.declared.handle.Kind.TheVariants.{Region};
ghost use Rattle.omi_outside.specs.Outside.{HasCause};
ghost use Rattle.omi_walk.specs.FoundThreads.{IsFound};
ghost use Rattle.omi_walk.specs.Leaves.{Leaves};
ghost use Rattle.omi_walk.specs.Objects.{IsMet};
ghost use Rattle.omi_walk.specs.Regions.{AreLive};
ghost use Rattle.omi_walk.specs.Walks.{Walks, WalksIndex};
ghost use Rattle.omi_walk.specs.Asking.{ask_each};
ghost use Rattle.omi_walk.specs.AskRegions.{ask_regions};

use crate::WalkFault;
use crate::chain::{enclosing, innermost};
use crate::found::Found;
use crate::index::index_all;
use crate::met::Met;
use omi_calls::{Callbacks, ToHost};
use omi_list::List;
use omi_session::Session;
use std::alloc::Global;
use std::collections::BTreeMap;

/// The regions of a thread that was found: that of its current task, and those which enclose it.
fn regions_of<C: Callbacks, F: ToHost>(
    s: &mut Session<C, F>,
    alloc: Global,
    found: Found,
) -> Result<List<Met>, WalkFault>
    requires many { s.old.handles.made < 2 ^ 58 }
    requires found { IsFound C.told s.old found }
    ensures reads { Walks C.told C.asked s.old s.new result (ask_regions s.old.layout found) }
    ensures met { IfOk result (λ chain. All (IsMet C.told s.new Region) chain) }
    ensures leaves { Leaves C.told 8194 s.old s.new }
    ensures cause { HasCause (C.faults s.old.table.calls) (C.faults s.new.table.calls)
        (result ≡ Err WalkFault.Callback) }
{
    let Some(task) = found.current else {
        return Ok(List::new(alloc));
    };
    let first = innermost(s, task)?;
    enclosing(s, alloc, first)
}

/// The regions of each found thread, in order, of each slot the first that was met.
pub fn regions_met<C: Callbacks, F: ToHost>(
    s: &mut Session<C, F>,
    alloc: Global,
    found: &List<Found>,
) -> Result<BTreeMap<u32, Met>, WalkFault>
    requires many { s.old.handles.made < HANDLES_WITHIN }
    requires few { length found.now ≤ 64 }
    requires found { All (IsFound C.told s.old) found.now }
    ensures live { IfOk result (λ index. AreLive C.told s.new index) }
    ensures reads { WalksIndex C.told C.asked s.old s.new result
        (ask_each (ask_regions s.old.layout) found.now) }
    ensures leaves { Leaves C.told 524416 s.old s.new }
    ensures cause { HasCause (C.faults s.old.table.calls) (C.faults s.new.table.calls)
        (result ≡ Err WalkFault.Callback) }
{
    let mut index = BTreeMap::new(alloc);
    for at in 0..found.len() {
        let chain = regions_of(s, alloc, *found.get(at))?;
        index_all(&mut index, &chain)?;
    }
    Ok(index)
}
