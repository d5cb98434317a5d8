//! A handle of each task of a report.

ghost use Rattle.std.specs.Prelude.{◌≡◌, ◌≢◌, ◌≤◌, ◌<◌, ◌+◌, ◌-◌, ◌^◌, map, length, All, Err, IfOk, IfErr, OnErr};
ghost use Rattle.omi_layout.specs.Field.{tasks};
ghost use Rattle.omi_layout.specs.Place.{IsSlot};
ghost use Rattle.omi_outside.specs.Outside.{HasCause};
ghost use Rattle.omi_session.specs.declared.limits.TheConstants.{HANDLES_BEFORE};
ghost use Rattle.omi_session.specs.Made.{AddsHandle, task_pair};
ghost use Rattle.omi_session.specs.Opened.{Stays};
ghost use Rattle.omi_walk.specs.Gives.{Looks};
ghost use Rattle.omi_walk.specs.Kept.{IsLive, Keeps, names_kept, look_names, ask_names, task_object};
ghost use Rattle.omi_walk.specs.Walks.{Walks};

use crate::WalkFault;
use crate::view::view_of;
use omi_calls::{Callbacks, ToHost};
use omi_handle::{Held, Kind, TaskHandle};
use omi_layout::Layout;
use omi_list::List;
use omi_model::{TaskRows, Tid};
use omi_session::Session;
use omi_word::Natives;
use std::alloc::Global;

/// The tasks of a report, in the order of its rows, each with a handle of it.
pub type KeptList = List<(Tid, TaskHandle)>;

/// What a handle to the task of this name stands for.
fn object_of(layout: &Layout, task: Tid) -> Held
    requires { IsSlot layout.now.table tasks task.0.creator task.0.slot }
    ensures { result ≡ task_object layout.now.table task }
{
    Held {
        kind: Kind::Task,
        addr: layout.task_at(task.0.creator, task.0.slot),
        life: 2 * u64::from(task.0.generation) + 1,
    }
}

/// A handle of a task that lives, where there is room for it.
fn handle_of<C: Callbacks, F: ToHost>(s: &mut Session<C, F>, task: Tid) -> TaskHandle
    requires many { s.old.handles.made < 2 ^ 64 - 1 }
    requires room { s.old.handles.room ≢ 0 }
    requires live { IsLive C.told s.old task }
    ensures adds { AddsHandle s.old.handles s.new.handles (task_pair result)
        (task_object s.old.layout task) }
    ensures room { s.old.handles.room ≤ s.new.handles.room + 1 }
    ensures stays { Stays C.told s.old s.new }
    ensures table { s.new.table ≡ s.old.table }
{
    let held = object_of(s.layout(), task);
    let Ok((key, serial)) = s.make(held) else {
        unreachable!()
    };
    TaskHandle { key, serial }
}

/// A handle of each task of these rows, in their order. Room is made before the first, so there are all of them or none.
fn handles_of<C: Callbacks, F: ToHost>(
    s: &mut Session<C, F>,
    alloc: Global,
    rows: &TaskRows,
) -> Result<KeptList, WalkFault>
    requires many { s.old.handles.made < 2 ^ 63 }
    requires few { length rows.now ≤ 16777216 }
    requires live { All (λ row. IsLive C.told s.old row.task) rows.now }
    ensures names { IfOk result
        (λ kept. map (λ k. k.0) kept ≡ map (λ row. row.task) rows.now) }
    ensures keeps { IfOk result (Keeps s.old.layout s.old.handles s.new.handles) }
    ensures memory { IfErr result (λ fault. fault ≡ WalkFault.OutOfMemory) }
    ensures refused { OnErr result (s.new.handles.held ≡ s.old.handles.held) }
    ensures later { s.old.handles.made ≤ s.new.handles.made }
    ensures made { s.new.handles.made ≤ s.old.handles.made + 16777216 }
    ensures stays { Stays C.told s.old s.new }
    ensures table { s.new.table ≡ s.old.table }
{
    let count = rows.len();
    let mut kept = Vec::with_capacity(alloc, count)?;
    let Ok(()) = s.reserve(count) else {
        return Err(WalkFault::OutOfMemory);
    };
    for row in rows.as_slice() {
        let handle = handle_of(s, row.task);
        kept.push_reserved((row.task, handle));
    }
    Ok(List::from_vec(kept))
}

/// A handle of each task in the report of `walk`, in the order of its rows. A refusal leaves no handle.
pub fn kept<C: Callbacks, F: ToHost>(
    s: &mut Session<C, F>,
    alloc: Global,
    contexts: &Natives,
) -> Result<KeptList, WalkFault>
    requires many { s.old.handles.made < HANDLES_BEFORE }
    requires few { length contexts.now ≤ 64 }
    ensures look { Looks C.told s.old (names_kept result)
        (λ w memory. look_names w memory contexts.now) }
    ensures reads { Walks C.told C.asked s.old s.new (names_kept result)
        (ask_names s.old.layout contexts.now) }
    ensures live { IfOk result (λ kept. All (λ k. IsLive C.told s.new k.0) kept) }
    ensures keeps { IfOk result (Keeps s.old.layout s.old.handles s.new.handles) }
    ensures refused { OnErr result (s.new.handles.held ≡ s.old.handles.held) }
    ensures stays { Stays C.told s.old s.new }
    ensures later { s.old.handles.made ≤ s.new.handles.made }
    ensures made { s.new.handles.made ≤ s.old.handles.made + 4294967295 }
    ensures cause { HasCause (C.faults s.old.table.calls) (C.faults s.new.table.calls)
        (result ≡ Err WalkFault.Callback) }
{
    let view = view_of(s, alloc, contexts)?;
    handles_of(s, alloc, &view.tasks)
}
