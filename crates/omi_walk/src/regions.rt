//! The row of a region.

ghost use Rattle.std.specs.Prelude.{◌≡◌, ◌<◌, ◌≤◌, ◌^◌, Err};
ghost use Rattle.omi_handle.specs.declared.handle.Kind.TheVariants.{Region};
ghost use Rattle.omi_layout.specs.declared.field.Field.TheVariants.{RegionFunction};
ghost use Rattle.omi_model.specs.declared.id.Id.{Id};
ghost use Rattle.omi_outside.specs.Outside.{HasCause};
ghost use Rattle.omi_session.specs.Made.{region_pair};
ghost use Rattle.omi_walk.specs.Leaves.{Leaves};
ghost use Rattle.omi_walk.specs.Objects.{IsMet};
ghost use Rattle.std.specs.FinMap.{get};
ghost use Rattle.omi_walk.specs.Walks.{Walks};
ghost use Rattle.omi_walk.specs.AskWords.{ask_entry};
ghost use Rattle.omi_walk.specs.AskRegions.{ask_row, ask_region};

use crate::WalkFault;
use crate::fault::{fault_of, walked};
use crate::members::members;
use crate::met::{Met, hand, region_name};
use crate::related::{Relation, related_of};
use crate::words::{region_variable, size_of};
use omi_calls::{Callbacks, ToHost};
use omi_handle::RegionHandle;
use omi_layout::Field;
use omi_model::{Id, RegionRow, Rid};
use omi_numbers::{ACTIVE_LEVELS_VAR, LEVELS_VAR};
use omi_session::{Rc, Session, word};
use std::alloc::Global;

/// The entry address of a region's function. No inquiry gives it, so its word is read by a `peek`.
fn entry_of<C: Callbacks, F: ToHost>(
    s: &mut Session<C, F>,
    r: RegionHandle,
) -> Result<u64, WalkFault>
    ensures reads { Walks C.told C.asked s.old s.new result
        (ask_entry s.old.layout (get s.old.handles.held (region_pair r))) }
    ensures leaves { Leaves C.told 0 s.old s.new }
    ensures cause { HasCause (C.faults s.old.table.calls) (C.faults s.new.table.calls)
        (result ≡ Err WalkFault.Callback) }
{
    let Some(held) = s.find(r.key, r.serial) else {
        return Err(fault_of(s, (r.key, r.serial), Rc::BadInput));
    };
    let answer = word(s, held.addr, Field::RegionFunction, 0);
    walked(s, (r.key, r.serial), answer)
}

/// A size that is at most this. One that an inquiry has answered of told words is.
fn bounded(size: u64, most: u64) -> u64
    ensures few { result ≤ most }
    ensures same { size ≤ most → result ≡ size }
{
    if size <= most { size } else { most }
}

/// The row of the region of this name.
fn row_of<C: Callbacks, F: ToHost>(
    s: &mut Session<C, F>,
    alloc: Global,
    r: RegionHandle,
    region: Id,
) -> Result<RegionRow, WalkFault>
    requires { s.old.handles.made < 2 ^ 59 }
    ensures reads { Walks C.told C.asked s.old s.new result
        (ask_row s.old.layout region (get s.old.handles.held (region_pair r))) }
    ensures leaves { Leaves C.told 129 s.old s.new }
    ensures cause { HasCause (C.faults s.old.table.calls) (C.faults s.new.table.calls)
        (result ≡ Err WalkFault.Callback) }
{
    let func = entry_of(s, r)?;
    let levels = region_variable(s, r, LEVELS_VAR)?;
    let active = region_variable(s, r, ACTIVE_LEVELS_VAR)?;
    let size = size_of(s, r)?;
    let enclosing = related_of(s, Relation::Enclosing(r))?;
    let most = u64::from(s.layout().threads());
    let members = members(s, alloc, r, bounded(size, most))?;
    Ok(RegionRow {
        region: Rid(region),
        func,
        levels,
        active,
        size,
        enclosing: region_name(enclosing),
        members,
    })
}

/// The row of a region that was met: its function, its levels, its enclosing region, and its members in order. Damaged where its size
/// isn't from 1 to the layout's number of threads.
pub fn region_row<C: Callbacks, F: ToHost>(
    s: &mut Session<C, F>,
    alloc: Global,
    region: Met,
) -> Result<RegionRow, WalkFault>
    requires many { s.old.handles.made < 2 ^ 58 }
    requires met { IsMet C.told s.old Region region }
    ensures reads { Walks C.told C.asked s.old s.new result (ask_region s.old.layout region) }
    ensures leaves { Leaves C.told 130 s.old s.new }
    ensures cause { HasCause (C.faults s.old.table.calls) (C.faults s.new.table.calls)
        (result ≡ Err WalkFault.Callback) }
{
    let (key, serial) = hand(s, region)?;
    let row = row_of(s, alloc, RegionHandle { key, serial }, region.name);
    s.release(key, serial);
    row
}
