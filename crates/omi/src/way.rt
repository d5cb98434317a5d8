//! The ways along which a chain goes: to the region around one, and from a task to the one that it was left for or that made it.

ghost use Rattle.std.specs.Prelude.{◌≡◌, ◌-◌, ◌^◌, ◌<◌, List, ℕ, Option, option_map};
ghost use Rattle.std.specs.Prelude as prelude;
ghost use Rattle.std.specs.FinMap.{get};
ghost use Rattle.omi_ask.specs.Regions.{enclosing_region};
ghost use Rattle.omi_asktask.specs.Tasks.{generating_task, scheduling_task};
ghost use Rattle.omi_handle.specs.declared.handle.Held.{Held};
ghost use Rattle.omi_handle.specs.declared.handle.Kind.{Kind};
ghost use Rattle.omi_handle.specs.declared.handle.Kind.TheVariants.{Region, Task};
ghost use Rattle.omi_outside.specs.Outside.{HasCause};
ghost use Rattle.omi_session.specs.Made.{Answered, Makes, as_pair, region_pair, task_pair};
ghost use Rattle.omi_session.specs.Opened.{Stays};
ghost use Rattle.omi_session.specs.Reads.{Reads};

use omi_ask::get_enclosing_parallel_handle;
use omi_asktask::{get_generating_task_handle, get_scheduling_task_handle};
use omi_calls::{Callbacks, ToHost};
use omi_handle::{RegionHandle, TaskHandle};
use omi_session::{Rc, Session};

/// A way from an object to the next one, by an inquiry.
pub trait Way {
    /// A handle of an object.
    type Handle: Copy;

    /// Its key and serial.
    ghost pair: { Self.Handle → ℕ × ℕ };

    /// The kind of the objects.
    ghost kind: { Kind };

    /// The reads that find the next object, in a layout, behind the one that is held.
    ghost reads: { List ℕ → Option Held → Reads Held };

    /// The key and serial of a handle.
    fn pair_of(handle: Self::Handle) -> (u64, u64)
        ensures { result ≡ pair handle };

    /// The handle of a key and serial.
    fn handle_of(of: (u64, u64)) -> Self::Handle
        ensures { pair result ≡ of };

    /// Asks for the next object.
    fn next<C: Callbacks, F: ToHost>(
        s: &mut Session<C, F>,
        handle: Self::Handle,
    ) -> Result<Self::Handle, Rc>
        requires { s.old.handles.made < 2 ^ 64 - 1 }
        ensures answer { Answered C.told C.asked s.old s.new (as_pair pair result)
            (reads s.old.layout (get s.old.handles.held (pair handle))) }
        ensures handles { Makes kind s.old.handles s.new.handles (as_pair pair result) }
        ensures stays { Stays C.told s.old s.new }
        ensures cause { HasCause (C.faults s.old.table.calls) (C.faults s.new.table.calls)
            (result ≡ prelude.Err Rc.CallbackError) };
}

/// To the region that encloses one.
pub struct Enclosing;

impl Way for Enclosing {
    type Handle = RegionHandle;

    ghost pair = { region_pair };

    ghost kind = { Region };

    ghost reads = { enclosing_region };

    fn pair_of(handle: RegionHandle) -> (u64, u64) {
        (handle.key, handle.serial)
    }

    fn handle_of(of: (u64, u64)) -> RegionHandle {
        RegionHandle {
            key: of.0,
            serial: of.1,
        }
    }

    fn next<C: Callbacks, F: ToHost>(
        s: &mut Session<C, F>,
        handle: RegionHandle,
    ) -> Result<RegionHandle, Rc> {
        get_enclosing_parallel_handle(s, handle)
    }
}

/// To the task that was left for one.
pub struct Scheduling;

impl Way for Scheduling {
    type Handle = TaskHandle;

    ghost pair = { task_pair };

    ghost kind = { Task };

    ghost reads = { scheduling_task };

    fn pair_of(handle: TaskHandle) -> (u64, u64) {
        (handle.key, handle.serial)
    }

    fn handle_of(of: (u64, u64)) -> TaskHandle {
        TaskHandle {
            key: of.0,
            serial: of.1,
        }
    }

    fn next<C: Callbacks, F: ToHost>(
        s: &mut Session<C, F>,
        handle: TaskHandle,
    ) -> Result<TaskHandle, Rc> {
        get_scheduling_task_handle(s, handle)
    }
}

/// To the task that made one.
pub struct Generating;

impl Way for Generating {
    type Handle = TaskHandle;

    ghost pair = { task_pair };

    ghost kind = { Task };

    ghost reads = { generating_task };

    fn pair_of(handle: TaskHandle) -> (u64, u64) {
        (handle.key, handle.serial)
    }

    fn handle_of(of: (u64, u64)) -> TaskHandle {
        TaskHandle {
            key: of.0,
            serial: of.1,
        }
    }

    fn next<C: Callbacks, F: ToHost>(
        s: &mut Session<C, F>,
        handle: TaskHandle,
    ) -> Result<TaskHandle, Rc> {
        get_generating_task_handle(s, handle)
    }
}

/// The key and serial of a new handle.
pub fn pair_made<W: Way>(made: Result<W::Handle, Rc>) -> Result<(u64, u64), Rc>
    ensures { result ≡ as_pair W.pair made }
{
    match made {
        Ok(handle) => Ok(W::pair_of(handle)),
        Err(rc) => Err(rc),
    }
}

/// The handle of a pair of key and serial.
pub fn handle_at<W: Way>(pair: Option<(u64, u64)>) -> Option<W::Handle>
    ensures { option_map W.pair result ≡ pair }
{
    let of = pair?;
    Some(W::handle_of(of))
}
