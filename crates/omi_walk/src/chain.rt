//! The chain of the regions that enclose one another, from the region of a task on.

ghost use Rattle.std.specs.Prelude.{◌≡◌, ◌≤◌, ◌<◌, ◌^◌, Some, Err, IfOk, IfSome, All};
ghost use Rattle.std.specs.Prelude as prelude;
ghost use Rattle.std.specs.Ordering.{nat_cmp};
ghost use Rattle.std.specs.BTreeSet.{contains};
ghost use Rattle.omi_handle.specs.declared.handle.Kind.TheVariants.{Region, Task};
ghost use Rattle.omi_layout.specs.Field.{regions};
ghost use Rattle.omi_layout.specs.Table.{records};
ghost use Rattle.omi_outside.specs.Outside.{HasCause};
ghost use Rattle.omi_walk.specs.Chains.{unmet as the_unmet};
ghost use Rattle.omi_walk.specs.Leaves.{Leaves};
ghost use Rattle.omi_walk.specs.Objects.{IsMet};
ghost use Rattle.omi_walk.specs.Walks.{Walks};
ghost use Rattle.omi_walk.specs.AskRegions.{ask_region_of, ask_outward, ask_outwards};

use crate::WalkFault;
use crate::met::{Met, hand};
use crate::related::{Relation, region_of, related_of};
use omi_calls::{Callbacks, ToHost};
use omi_handle::{RegionHandle, TaskHandle};
use omi_layout::Layout;
use omi_list::List;
use omi_session::Session;
use std::alloc::Global;
use std::collections::BTreeSet;

/// An object, if there is one, whose record was not met before. A Cycle where it was.
pub fn unmet(next: Option<Met>, met: &BTreeSet<u64>) -> Result<Option<Met>, WalkFault>
    ensures { result ≡ the_unmet (contains nat_cmp met.now) next }
{
    match next {
        Some(m) if met.contains(&m.held.addr) => Err(WalkFault::Cycle { addr: m.held.addr }),
        _ => Ok(next),
    }
}

/// The region of a task that was met.
pub fn innermost<C: Callbacks, F: ToHost>(
    s: &mut Session<C, F>,
    task: Met,
) -> Result<Met, WalkFault>
    requires many { s.old.handles.made < 2 ^ 60 }
    requires met { IsMet C.told s.old Task task }
    ensures reads { Walks C.told C.asked s.old s.new result
        (ask_region_of s.old.layout (Some task.held)) }
    ensures met { IfOk result (IsMet C.told s.new Region) }
    ensures leaves { Leaves C.told 2 s.old s.new }
    ensures cause { HasCause (C.faults s.old.table.calls) (C.faults s.new.table.calls)
        (result ≡ Err WalkFault.Callback) }
{
    let (key, serial) = hand(s, task)?;
    let region = region_of(s, TaskHandle { key, serial });
    s.release(key, serial);
    region
}

/// The region that encloses one that was met, if there is one, and it wasn't met before.
fn onward<C: Callbacks, F: ToHost>(
    s: &mut Session<C, F>,
    region: Met,
    met: &BTreeSet<u64>,
) -> Result<Option<Met>, WalkFault>
    requires many { s.old.handles.made < 2 ^ 60 }
    requires met { IsMet C.told s.old Region region }
    ensures reads { Walks C.told C.asked s.old s.new result
        (ask_outward s.old.layout (contains nat_cmp met.now) (Some region.held)) }
    ensures met { IfOk result (λ o. IfSome o (IsMet C.told s.new Region)) }
    ensures leaves { Leaves C.told 2 s.old s.new }
    ensures cause { HasCause (C.faults s.old.table.calls) (C.faults s.new.table.calls)
        (result ≡ Err WalkFault.Callback) }
{
    let (key, serial) = hand(s, region)?;
    let next = related_of(s, Relation::Enclosing(RegionHandle { key, serial }));
    s.release(key, serial);
    unmet(next?, met)
}

/// The number of records of regions that a layout has.
fn region_count(layout: &Layout) -> u32
    ensures value { result ≡ records layout.now.table regions }
    ensures few { result ≤ 4096 }
{
    u32::from(layout.threads()) * u32::from(layout.regions_per_thread())
}

/// The regions from one on, each enclosed by the next, at most as many as the layout has records of regions. A Cycle with the first address
/// that is met twice.
pub fn enclosing<C: Callbacks, F: ToHost>(
    s: &mut Session<C, F>,
    alloc: Global,
    first: Met,
) -> Result<List<Met>, WalkFault>
    requires many { s.old.handles.made < 2 ^ 59 }
    requires met { IsMet C.told s.old Region first }
    ensures reads { Walks C.told C.asked s.old s.new result
        (ask_outwards s.old.layout first) }
    ensures met { IfOk result (λ chain. All (IsMet C.told s.new Region) chain) }
    ensures leaves { Leaves C.told 8192 s.old s.new }
    ensures cause { HasCause (C.faults s.old.table.calls) (C.faults s.new.table.calls)
        (result ≡ Err WalkFault.Callback) }
{
    let mut met = BTreeSet::new(alloc);
    let mut chain = List::new(alloc);
    let mut current = Some(first);
    for _ in 0..region_count(s.layout()) {
        let Some(region) = current else {
            return Ok(chain);
        };
        met.insert(region.held.addr)?;
        current = onward(s, region, &met)?;
        chain.push(region)?;
    }
    match current {
        None => Ok(chain),
        Some(region) => Err(WalkFault::Cycle {
            addr: region.held.addr,
        }),
    }
}
