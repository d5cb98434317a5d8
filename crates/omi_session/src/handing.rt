//! Handles of the objects that inquiries find.

ghost use Rattle.std.specs.Prelude.{◌≡◌, ◌≢◌, ◌+◌, ◌-◌, ◌^◌, ◌<◌, ◌≤◌, Err, IfOk};
ghost use Rattle.omi_handle.specs.declared.handle.Kind.TheVariants.{Thread, Region, Task};
ghost use Rattle.omi_session.specs.Named.{IsNamed, IsOfKind};
ghost use Rattle.omi_session.specs.Opened.{Stays};
ghost use Rattle.omi_session.specs.Made.{IsHanded, Makes, as_pair, thread_pair, region_pair, task_pair};

use crate::rc::Rc;
use crate::session::Session;
use omi_calls::{Callbacks, ToHost};
use omi_handle::{Held, RegionHandle, TaskHandle, ThreadHandle};

/// A new pair of key and serial for an object that was found.
fn hand<C: Callbacks, F: ToHost>(
    s: &mut Session<C, F>,
    found: Result<Held, Rc>,
) -> Result<(u64, u64), Rc>
    requires many { s.old.handles.made < 2 ^ 64 - 1 }
    requires named { IfOk found (IsNamed s.old.layout) }
    ensures handed { IsHanded s.old.handles s.new.handles found result }
    ensures room { s.old.handles.room ≤ s.new.handles.room + 1 }
    ensures stays { Stays C.told s.old s.new }
    ensures table { s.new.table ≡ s.old.table }
{
    match found {
        Ok(held) => s.make(held),
        Err(rc) => Err(rc),
    }
}

/// A handle of the thread that was found.
pub fn hand_thread<C: Callbacks, F: ToHost>(
    s: &mut Session<C, F>,
    found: Result<Held, Rc>,
) -> Result<ThreadHandle, Rc>
    requires many { s.old.handles.made < 2 ^ 64 - 1 }
    requires named { IfOk found (IsOfKind s.old.layout Thread) }
    requires memory { found ≢ Err Rc.NoMem }
    ensures handed { IsHanded s.old.handles s.new.handles found (as_pair thread_pair result) }
    ensures handles { Makes Thread s.old.handles s.new.handles (as_pair thread_pair result) }
    ensures room { s.old.handles.room ≤ s.new.handles.room + 1 }
    ensures stays { Stays C.told s.old s.new }
    ensures table { s.new.table ≡ s.old.table }
{
    match hand(s, found) {
        Ok((key, serial)) => Ok(ThreadHandle { key, serial }),
        Err(rc) => Err(rc),
    }
}

/// A handle of the region that was found.
pub fn hand_region<C: Callbacks, F: ToHost>(
    s: &mut Session<C, F>,
    found: Result<Held, Rc>,
) -> Result<RegionHandle, Rc>
    requires many { s.old.handles.made < 2 ^ 64 - 1 }
    requires named { IfOk found (IsOfKind s.old.layout Region) }
    requires memory { found ≢ Err Rc.NoMem }
    ensures handed { IsHanded s.old.handles s.new.handles found (as_pair region_pair result) }
    ensures handles { Makes Region s.old.handles s.new.handles (as_pair region_pair result) }
    ensures room { s.old.handles.room ≤ s.new.handles.room + 1 }
    ensures stays { Stays C.told s.old s.new }
    ensures table { s.new.table ≡ s.old.table }
{
    match hand(s, found) {
        Ok((key, serial)) => Ok(RegionHandle { key, serial }),
        Err(rc) => Err(rc),
    }
}

/// A handle of the task that was found.
pub fn hand_task<C: Callbacks, F: ToHost>(
    s: &mut Session<C, F>,
    found: Result<Held, Rc>,
) -> Result<TaskHandle, Rc>
    requires many { s.old.handles.made < 2 ^ 64 - 1 }
    requires named { IfOk found (IsOfKind s.old.layout Task) }
    requires memory { found ≢ Err Rc.NoMem }
    ensures handed { IsHanded s.old.handles s.new.handles found (as_pair task_pair result) }
    ensures handles { Makes Task s.old.handles s.new.handles (as_pair task_pair result) }
    ensures room { s.old.handles.room ≤ s.new.handles.room + 1 }
    ensures stays { Stays C.told s.old s.new }
    ensures table { s.new.table ≡ s.old.table }
{
    match hand(s, found) {
        Ok((key, serial)) => Ok(TaskHandle { key, serial }),
        Err(rc) => Err(rc),
    }
}
