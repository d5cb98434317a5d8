//! The objects that an inquiry finds from another one, each by its name. No handle of them is kept.

ghost use Rattle.std.specs.Prelude.{◌≡◌, ◌<◌, ◌-◌, ◌^◌, Err, IfOk, IfSome};
ghost use Rattle.std.specs.FinMap.{get};
ghost use Rattle.omi_handle.specs.declared.handle.Kind.TheVariants.{Region, Task};
ghost use Rattle.omi_outside.specs.Outside.{HasCause};
ghost use Rattle.omi_session.specs.Inquiry as inquiry;
ghost use Rattle.omi_session.specs.Made.{Answered, Makes, as_pair, region_pair, task_pair};
ghost use Rattle.omi_session.specs.Opened.{Stays};
ghost use Rattle.omi_walk.specs.Leaves.{Leaves};
ghost use Rattle.omi_walk.specs.Relations.{pair_of, kind_from, kind_to, field_of, inquiry_of};
ghost use Rattle.omi_walk.specs.Objects.{IsMet};
ghost use Rattle.omi_walk.specs.Walks.{Walks};
ghost use Rattle.omi_walk.specs.Asking.{ask_maybe};
ghost use Rattle.omi_walk.specs.AskRegions.{ask_region_of};

use crate::WalkFault;
use crate::fault::{absent, fault_of};
use crate::met::{Met, let_go};
use omi_ask::{get_enclosing_parallel_handle, get_task_parallel_handle};
use omi_asktask::{get_curr_task_handle, get_generating_task_handle, get_scheduling_task_handle};
use omi_calls::{Callbacks, ToHost};
use omi_handle::{Kind, RegionHandle, TaskHandle, ThreadHandle};
use omi_session::{Rc, Session};

/// How an object leads to another one that may be missing.
#[derive(Clone, Copy)]
pub enum Relation {
    /// A thread's current task.
    Current(ThreadHandle),
    /// The task that made a task.
    Generating(TaskHandle),
    /// The task that was left for a task on its thread.
    Scheduling(TaskHandle),
    /// The region that encloses a region.
    Enclosing(RegionHandle),
}

impl Relation {
    /// The key and serial of the handle that it begins with.
    fn pair(&self) -> (u64, u64)
        ensures { result ≡ pair_of self.now }
    {
        match self {
            Relation::Current(t) => (t.key, t.serial),
            Relation::Generating(k) | Relation::Scheduling(k) => (k.key, k.serial),
            Relation::Enclosing(r) => (r.key, r.serial),
        }
    }

    /// The kind of object to which it leads.
    fn kind(&self) -> Kind
        ensures { result ≡ kind_to self.now }
    {
        match self {
            Relation::Current(_) | Relation::Generating(_) | Relation::Scheduling(_) => Kind::Task,
            Relation::Enclosing(_) => Kind::Region,
        }
    }
}

/// The key and serial of a new task handle.
fn of_task(made: Result<TaskHandle, Rc>) -> Result<(u64, u64), Rc>
    ensures { result ≡ as_pair task_pair made }
{
    match made {
        Ok(k) => Ok((k.key, k.serial)),
        Err(rc) => Err(rc),
    }
}

/// The key and serial of a new region handle.
fn of_region(made: Result<RegionHandle, Rc>) -> Result<(u64, u64), Rc>
    ensures { result ≡ as_pair region_pair made }
{
    match made {
        Ok(r) => Ok((r.key, r.serial)),
        Err(rc) => Err(rc),
    }
}

/// A new handle of the object to which a relation leads.
#[tactic(auto, unfolding(omi_session::specs::Inquiry::current_task, omi_asktask::specs::Tasks::generating_task, omi_asktask::specs::Tasks::scheduling_task, omi_ask::specs::Regions::enclosing_region))]
fn made<C: Callbacks, F: ToHost>(
    s: &mut Session<C, F>,
    relation: Relation,
) -> Result<(u64, u64), Rc>
    requires { s.old.handles.made < 2 ^ 64 - 1 }
    ensures answer { Answered C.told C.asked s.old s.new result (inquiry.related
        s.old.layout (kind_from relation) (get s.old.handles.held (pair_of relation))
        (kind_to relation) (field_of relation)) }
    ensures handles { Makes (kind_to relation) s.old.handles s.new.handles result }
    ensures stays { Stays C.told s.old s.new }
    ensures cause { HasCause (C.faults s.old.table.calls) (C.faults s.new.table.calls)
        (result ≡ Err Rc.CallbackError) }
{
    match relation {
        Relation::Current(t) => of_task(get_curr_task_handle(s, t)),
        Relation::Generating(k) => of_task(get_generating_task_handle(s, k)),
        Relation::Scheduling(k) => of_task(get_scheduling_task_handle(s, k)),
        Relation::Enclosing(r) => of_region(get_enclosing_parallel_handle(s, r)),
    }
}

/// The object to which a relation leads, where there is one.
pub fn related_of<C: Callbacks, F: ToHost>(
    s: &mut Session<C, F>,
    relation: Relation,
) -> Result<Option<Met>, WalkFault>
    requires { s.old.handles.made < 2 ^ 62 }
    ensures reads { Walks C.told C.asked s.old s.new result (ask_maybe s.old.layout
        (get s.old.handles.held (pair_of relation))
        (inquiry_of s.old.layout relation (get s.old.handles.held (pair_of relation)))) }
    ensures met { IfOk result (λ o. IfSome o (IsMet C.told s.new (kind_to relation))) }
    ensures leaves { Leaves C.told 1 s.old s.new }
    ensures cause { HasCause (C.faults s.old.table.calls) (C.faults s.new.table.calls)
        (result ≡ Err WalkFault.Callback) }
{
    match made(s, relation) {
        Ok(pair) => Ok(Some(let_go(s, relation.kind(), pair))),
        Err(rc) => absent(s, relation.pair(), rc),
    }
}

/// The region of a task.
pub fn region_of<C: Callbacks, F: ToHost>(
    s: &mut Session<C, F>,
    k: TaskHandle,
) -> Result<Met, WalkFault>
    requires { s.old.handles.made < 2 ^ 62 }
    ensures reads { Walks C.told C.asked s.old s.new result
        (ask_region_of s.old.layout (get s.old.handles.held (task_pair k))) }
    ensures met { IfOk result (IsMet C.told s.new Region) }
    ensures leaves { Leaves C.told 1 s.old s.new }
    ensures cause { HasCause (C.faults s.old.table.calls) (C.faults s.new.table.calls)
        (result ≡ Err WalkFault.Callback) }
{
    match get_task_parallel_handle(s, k) {
        Ok(found) => Ok(let_go(s, Kind::Region, (found.key, found.serial))),
        Err(rc) => Err(fault_of(s, (k.key, k.serial), rc)),
    }
}
