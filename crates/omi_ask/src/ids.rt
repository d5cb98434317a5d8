//! The number of a thread and the name of a region, by their handles. No word is read.

ghost use Rattle.std.specs.Prelude.{◌≡◌, Ok};
ghost use Rattle.std.specs.FinMap.{get};
ghost use Rattle.omi_handle.specs.declared.handle.Kind.TheVariants.{Thread, Region};
ghost use Rattle.omi_session.specs.Inquiry.{live_handle};
ghost use Rattle.omi_session.specs.Made.{thread_pair, region_pair};
ghost use Rattle.omi_session.specs.Shown.{OfState, HoldsThread, HoldsRegion};
ghost use Rattle.omi_ask.specs.Names.{IsNumberOf, IsRegionOf};

use omi_calls::{Callbacks, ToHost};
use omi_handle::{Kind, RegionHandle, ThreadHandle};
use omi_model::Rid;
use omi_session::{Rc, Session, name};

/// The number of a thread.
pub fn thread_number<C: Callbacks, F: ToHost>(
    s: &mut Session<C, F>,
    t: ThreadHandle,
) -> Result<u8, Rc>
    ensures number { IsNumberOf s.old.layout
        (live_handle Thread (get s.old.handles.held (thread_pair t))) result }
    ensures shown { OfState (C.told s.old.table.calls) s.old.layout (λ state.
        (held : HoldsThread s.old.layout state (get s.old.handles.held (thread_pair t)))
        → result ≡ Ok held.thread) }
    ensures same { s.new ≡ s.old }
{
    Ok(name(s, Kind::Thread, t.key, t.serial)?.creator)
}

/// The name of a region.
pub fn region_id<C: Callbacks, F: ToHost>(s: &mut Session<C, F>, r: RegionHandle) -> Result<Rid, Rc>
    ensures name { IsRegionOf s.old.layout
        (live_handle Region (get s.old.handles.held (region_pair r))) result }
    ensures shown { OfState (C.told s.old.table.calls) s.old.layout (λ state.
        (region : HoldsRegion s.old.layout state (get s.old.handles.held (region_pair r)))
        → result ≡ Ok region.name) }
    ensures same { s.new ≡ s.old }
{
    Ok(Rid(name(s, Kind::Region, r.key, r.serial)?))
}
