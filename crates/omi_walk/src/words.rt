//! Words that are read of an object that was met.

ghost use Rattle.std.specs.Prelude.{◌≡◌, Ok, Err};
ghost use Rattle.omi_handle.specs.declared.handle.Kind.TheVariants.{Task};
ghost use Rattle.omi_icv.specs.declared.scoped.Scoped.TheVariants as scoped;
ghost use Rattle.omi_outside.specs.Outside.{HasCause};
ghost use Rattle.omi_session.specs.Made.{region_pair, task_pair};
ghost use Rattle.omi_walk.specs.Leaves.{Leaves};
ghost use Rattle.std.specs.FinMap.{get};
ghost use Rattle.omi_numbers.specs.declared.variables.TheConstants.{TEAM_SIZE_VAR};
ghost use Rattle.omi_walk.specs.Walks.{Walks};
ghost use Rattle.omi_walk.specs.AskWords.{ask_space, ask_region_variable, ask_task_variable, ask_function, ask_frames, ask_tool};

use crate::WalkFault;
use crate::fault::{fault_of, walked, walked_from};
use omi_asktask::{get_task_frame, get_task_function};
use omi_calls::{Callbacks, ToHost};
use omi_handle::{RegionHandle, TaskHandle};
use omi_icv::{Scoped, get_icv_from_scope, get_tool_data};
use omi_layout::Field;
use omi_numbers::TEAM_SIZE_VAR;
use omi_session::Session;

/// A control variable of a task that is one word of its record.
pub fn task_variable<C: Callbacks, F: ToHost>(
    s: &mut Session<C, F>,
    k: TaskHandle,
    icv: u32,
) -> Result<u64, WalkFault>
    ensures reads { Walks C.told C.asked s.old s.new result
        (ask_task_variable s.old.layout icv (get s.old.handles.held (task_pair k))) }
    ensures leaves { Leaves C.told 0 s.old s.new }
    ensures cause { HasCause (C.faults s.old.table.calls) (C.faults s.new.table.calls)
        (result ≡ Err WalkFault.Callback) }
{
    let answer = get_icv_from_scope(s, Scoped::Task(k), icv);
    walked(s, (k.key, k.serial), answer)
}

/// A control variable of a region that is one word of its record.
pub fn region_variable<C: Callbacks, F: ToHost>(
    s: &mut Session<C, F>,
    r: RegionHandle,
    icv: u32,
) -> Result<u64, WalkFault>
    ensures reads { Walks C.told C.asked s.old s.new result
        (ask_region_variable s.old.layout icv (get s.old.handles.held (region_pair r))) }
    ensures leaves { Leaves C.told 0 s.old s.new }
    ensures cause { HasCause (C.faults s.old.table.calls) (C.faults s.new.table.calls)
        (result ≡ Err WalkFault.Callback) }
{
    let answer = get_icv_from_scope(s, Scoped::Parallel(r), icv);
    walked(s, (r.key, r.serial), answer)
}

/// A control variable of the address space.
pub fn space_variable<C: Callbacks, F: ToHost>(
    s: &mut Session<C, F>,
    icv: u32,
) -> Result<u64, WalkFault>
    ensures reads { Walks C.told C.asked s.old s.new result (ask_space s.old.layout icv) }
    ensures leaves { Leaves C.told 0 s.old s.new }
    ensures cause { HasCause (C.faults s.old.table.calls) (C.faults s.new.table.calls)
        (result ≡ Err WalkFault.Callback) }
{
    let answer = get_icv_from_scope(s, Scoped::Space, icv);
    walked_from(None, answer)
}

/// The number of members of a region.
pub fn size_of<C: Callbacks, F: ToHost>(
    s: &mut Session<C, F>,
    r: RegionHandle,
) -> Result<u64, WalkFault>
    ensures reads { Walks C.told C.asked s.old s.new result (ask_region_variable s.old.layout
        TEAM_SIZE_VAR (get s.old.handles.held (region_pair r))) }
    ensures leaves { Leaves C.told 0 s.old s.new }
    ensures cause { HasCause (C.faults s.old.table.calls) (C.faults s.new.table.calls)
        (result ≡ Err WalkFault.Callback) }
{
    let answer = get_icv_from_scope(s, Scoped::Parallel(r), TEAM_SIZE_VAR);
    walked(s, (r.key, r.serial), answer)
}

/// The entry address of a task's function.
pub fn function_of<C: Callbacks, F: ToHost>(
    s: &mut Session<C, F>,
    k: TaskHandle,
) -> Result<u64, WalkFault>
    ensures reads { Walks C.told C.asked s.old s.new result
        (ask_function s.old.layout (get s.old.handles.held (task_pair k))) }
    ensures leaves { Leaves C.told 0 s.old s.new }
    ensures cause { HasCause (C.faults s.old.table.calls) (C.faults s.new.table.calls)
        (result ≡ Err WalkFault.Callback) }
{
    let answer = get_task_function(s, k);
    walked(s, (k.key, k.serial), answer)
}

/// The word that a tool left with a task.
pub fn tool_of<C: Callbacks, F: ToHost>(
    s: &mut Session<C, F>,
    k: TaskHandle,
) -> Result<u64, WalkFault>
    ensures reads { Walks C.told C.asked s.old s.new result
        (ask_tool s.old.layout (get s.old.handles.held (task_pair k))) }
    ensures leaves { Leaves C.told 0 s.old s.new }
    ensures cause { HasCause (C.faults s.old.table.calls) (C.faults s.new.table.calls)
        (result ≡ Err WalkFault.Callback) }
{
    let answer = get_tool_data(s, Scoped::Task(k));
    walked(s, (k.key, k.serial), answer)
}

/// The addresses of the exit frame and of the enter frame of a task.
pub fn frames_of<C: Callbacks, F: ToHost>(
    s: &mut Session<C, F>,
    k: TaskHandle,
) -> Result<(u64, u64), WalkFault>
    ensures reads { Walks C.told C.asked s.old s.new result
        (ask_frames s.old.layout (get s.old.handles.held (task_pair k))) }
    ensures leaves { Leaves C.told 0 s.old s.new }
    ensures cause { HasCause (C.faults s.old.table.calls) (C.faults s.new.table.calls)
        (result ≡ Err WalkFault.Callback) }
{
    let answer = get_task_frame(s, k);
    match answer {
        Ok(frames) => Ok((frames.exit, frames.enter)),
        Err(rc) => Err(fault_of(s, (k.key, k.serial), rc)),
    }
}
