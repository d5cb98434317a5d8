//! The order and the release of thread and region handles. No word is read.

ghost use Rattle.std.specs.Prelude.{◌≡◌};
ghost use Rattle.std.specs.FinMap.{get};
ghost use Rattle.omi_handle.specs.declared.handle.Kind.TheVariants.{Thread, Region};
ghost use Rattle.omi_session.specs.Made.{thread_pair, region_pair};
ghost use Rattle.omi_session.specs.Handles.{LetsGo, handle_cmp};

use omi_calls::{Callbacks, ToHost};
use omi_handle::{Kind, RegionHandle, ThreadHandle};
use omi_session::{Rc, Session, compare, let_go};
use std::cmp::Ordering;

/// The order of two thread handles: by the addresses of their records, then by life word.
pub fn thread_handle_compare<C: Callbacks, F: ToHost>(
    s: &mut Session<C, F>,
    a: ThreadHandle,
    b: ThreadHandle,
) -> Result<Ordering, Rc>
    ensures order { result ≡ handle_cmp Thread (get s.old.handles.held (thread_pair a))
        (get s.old.handles.held (thread_pair b)) }
    ensures same { s.new ≡ s.old }
{
    compare(s, Kind::Thread, (a.key, a.serial), (b.key, b.serial))
}

/// Lets go of a thread handle.
pub fn rel_thread_handle<C: Callbacks, F: ToHost>(
    s: &mut Session<C, F>,
    h: ThreadHandle,
) -> Result<(), Rc>
    ensures { LetsGo Thread (thread_pair h) s.old s.new result }
{
    let_go(s, Kind::Thread, h.key, h.serial)
}

/// The order of two region handles: by the addresses of their records, then by life word.
pub fn parallel_handle_compare<C: Callbacks, F: ToHost>(
    s: &mut Session<C, F>,
    a: RegionHandle,
    b: RegionHandle,
) -> Result<Ordering, Rc>
    ensures order { result ≡ handle_cmp Region (get s.old.handles.held (region_pair a))
        (get s.old.handles.held (region_pair b)) }
    ensures same { s.new ≡ s.old }
{
    compare(s, Kind::Region, (a.key, a.serial), (b.key, b.serial))
}

/// Lets go of a region handle.
pub fn rel_parallel_handle<C: Callbacks, F: ToHost>(
    s: &mut Session<C, F>,
    h: RegionHandle,
) -> Result<(), Rc>
    ensures { LetsGo Region (region_pair h) s.old s.new result }
{
    let_go(s, Kind::Region, h.key, h.serial)
}
