//! The members of a region.

ghost use Rattle.std.specs.Prelude.{◌≡◌, ◌<◌, ◌≤◌, ◌^◌, Err};
ghost use Rattle.std.specs.List.{range_with_len};
ghost use Rattle.omi_handle.specs.declared.handle.Kind.TheVariants.{Thread, Task};
ghost use Rattle.omi_outside.specs.Outside.{HasCause};
ghost use Rattle.omi_session.specs.Made.{region_pair};
ghost use Rattle.omi_walk.specs.Leaves.{Leaves};
ghost use Rattle.std.specs.FinMap.{get};
ghost use Rattle.omi_walk.specs.Walks.{Walks};
ghost use Rattle.omi_walk.specs.Asking.{ask_each};
ghost use Rattle.omi_walk.specs.AskRegions.{ask_member_task, ask_member_thread, ask_member};

use crate::WalkFault;
use crate::fault::member_fault;
use crate::met::{Met, let_go};
use omi_ask::get_thread_in_parallel;
use omi_asktask::get_task_in_parallel;
use omi_calls::{Callbacks, ToHost};
use omi_handle::{Kind, RegionHandle};
use omi_layout::Field;
use omi_model::{MemberRow, MemberRows, Tid};
use omi_session::Session;
use std::alloc::Global;

/// The implicit task of a member of a region. Where the size that is read again has no such member, it is damaged.
fn task_of<C: Callbacks, F: ToHost>(
    s: &mut Session<C, F>,
    r: RegionHandle,
    num: u32,
) -> Result<Met, WalkFault>
    requires { s.old.handles.made < 2 ^ 62 }
    ensures reads { Walks C.told C.asked s.old s.new result
        (ask_member_task s.old.layout num (get s.old.handles.held (region_pair r))) }
    ensures leaves { Leaves C.told 1 s.old s.new }
    ensures cause { HasCause (C.faults s.old.table.calls) (C.faults s.new.table.calls)
        (result ≡ Err WalkFault.Callback) }
{
    match get_task_in_parallel(s, r, num) {
        Ok(found) => Ok(let_go(s, Kind::Task, (found.key, found.serial))),
        Err(rc) => Err(member_fault(s, (r.key, r.serial), rc)),
    }
}

/// The thread of a member of a region. Where the size that is read again has no such member, it is damaged.
fn thread_of<C: Callbacks, F: ToHost>(
    s: &mut Session<C, F>,
    r: RegionHandle,
    num: u32,
) -> Result<Met, WalkFault>
    requires { s.old.handles.made < 2 ^ 62 }
    ensures reads { Walks C.told C.asked s.old s.new result
        (ask_member_thread s.old.layout num (get s.old.handles.held (region_pair r))) }
    ensures leaves { Leaves C.told 1 s.old s.new }
    ensures cause { HasCause (C.faults s.old.table.calls) (C.faults s.new.table.calls)
        (result ≡ Err WalkFault.Callback) }
{
    match get_thread_in_parallel(s, r, num) {
        Ok(found) => Ok(let_go(s, Kind::Thread, (found.key, found.serial))),
        Err(rc) => Err(member_fault(s, (r.key, r.serial), rc)),
    }
}

/// A member of a region.
fn member<C: Callbacks, F: ToHost>(
    s: &mut Session<C, F>,
    r: RegionHandle,
    num: u32,
) -> Result<MemberRow, WalkFault>
    requires { s.old.handles.made < 2 ^ 61 }
    ensures reads { Walks C.told C.asked s.old s.new result
        (ask_member s.old.layout (get s.old.handles.held (region_pair r)) num) }
    ensures leaves { Leaves C.told 2 s.old s.new }
    ensures cause { HasCause (C.faults s.old.table.calls) (C.faults s.new.table.calls)
        (result ≡ Err WalkFault.Callback) }
{
    let task = task_of(s, r, num)?;
    let thread = thread_of(s, r, num)?;
    Ok(MemberRow {
        thread: thread.name.creator,
        task: Tid(task.name),
    })
}

/// The members of a region of this size.
pub fn members<C: Callbacks, F: ToHost>(
    s: &mut Session<C, F>,
    alloc: Global,
    r: RegionHandle,
    size: u64,
) -> Result<MemberRows, WalkFault>
    requires many { s.old.handles.made < 2 ^ 60 }
    requires few { size ≤ 64 }
    ensures reads { Walks C.told C.asked s.old s.new result (ask_each
        (ask_member s.old.layout (get s.old.handles.held (region_pair r)))
        (range_with_len 0 size)) }
    ensures leaves { Leaves C.told 128 s.old s.new }
    ensures cause { HasCause (C.faults s.old.table.calls) (C.faults s.new.table.calls)
        (result ≡ Err WalkFault.Callback) }
{
    let mut rows = MemberRows::new(alloc);
    for num in 0..size as u32 {
        let row = member(s, r, num)?;
        rows.push(row)?;
    }
    Ok(rows)
}
