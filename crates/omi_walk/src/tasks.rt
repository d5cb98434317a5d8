//! What is asked of a task, and its row.

ghost use Rattle.std.specs.Prelude.{◌≡◌, ◌<◌, ◌^◌, Err, IfOk, IfSome};
ghost use Rattle.std.specs.Prelude as prelude;
ghost use Rattle.std.specs.Ordering.{nat_cmp};
ghost use Rattle.std.specs.BTreeSet.{contains};
ghost use Rattle.omi_handle.specs.declared.handle.Kind.TheVariants.{Task};
ghost use Rattle.omi_layout.specs.Field.{tasks};
ghost use Rattle.omi_outside.specs.Outside.{HasCause};
ghost use Rattle.omi_session.specs.Made.{task_pair};
ghost use Rattle.omi_walk.specs.Kept.{IsLive};
ghost use Rattle.omi_walk.specs.Leaves.{Leaves};
ghost use Rattle.omi_walk.specs.Objects.{IsMet};
ghost use Rattle.std.specs.FinMap.{get};
ghost use Rattle.omi_walk.specs.Walks.{Walks};
ghost use Rattle.omi_walk.specs.AskTasks.{ask_next, ask_relations, ask_environment, ask_link, ask_task};

use crate::WalkFault;
use crate::chain::unmet;
use crate::met::{Met, hand, task_name};
use crate::numbers::nthreads_of;
use crate::related::{Relation, region_of, related_of};
use crate::words::{frames_of, function_of, task_variable, tool_of};
use omi_calls::{Callbacks, ToHost};
use omi_handle::TaskHandle;
use omi_model::{Id, Rid, TaskRow, Tid};
use omi_numbers::{DEFAULT_DEVICE_VAR, DYN_VAR, FINAL_TASK_VAR, IMPLICIT_TASK_VAR, RUN_SCHED_VAR};
use omi_script::NumList;
use omi_session::Session;
use std::alloc::Global;
use std::collections::BTreeSet;

/// Of what sort a task is, and the region and the tasks that it is related to. `implicit` is not 0 for an implicit task; `func` is
/// an entry address.
#[derive(Clone, Copy)]
pub struct Relations {
    pub implicit: u64,
    pub region: Rid,
    pub func: u64,
    pub generating: Option<Tid>,
    pub scheduling: Option<Tid>,
}

/// The relations of a task, and its scheduling task.
#[derive(Clone, Copy)]
pub struct SeenRelations {
    pub relations: Relations,
    pub next: Option<Met>,
}

/// The data environment of a task. `sched` is the chunk times 8 plus the kind.
#[derive(Drop)]
pub struct Environment {
    pub dyn_var: u64,
    pub nthreads: NumList,
    pub sched: u64,
    pub device: u64,
    pub final_task: u64,
}

/// The row of a task, and its scheduling task.
#[derive(Drop)]
pub struct Link {
    pub row: TaskRow,
    pub next: Option<Met>,
}

/// The task that was left for a task, if there is one, and it wasn't met before.
fn next_of<C: Callbacks, F: ToHost>(
    s: &mut Session<C, F>,
    k: TaskHandle,
    met: &BTreeSet<u64>,
) -> Result<Option<Met>, WalkFault>
    requires { s.old.handles.made < 2 ^ 62 }
    ensures reads { Walks C.told C.asked s.old s.new result (ask_next s.old.layout
        (contains nat_cmp met.now) (get s.old.handles.held (task_pair k))) }
    ensures met { IfOk result (λ o. IfSome o (IsMet C.told s.new Task)) }
    ensures leaves { Leaves C.told 1 s.old s.new }
    ensures cause { HasCause (C.faults s.old.table.calls) (C.faults s.new.table.calls)
        (result ≡ Err WalkFault.Callback) }
{
    let next = related_of(s, Relation::Scheduling(k))?;
    unmet(next, met)
}

/// The relations of a task, whose scheduling task must not have been met.
fn relations_of<C: Callbacks, F: ToHost>(
    s: &mut Session<C, F>,
    k: TaskHandle,
    met: &BTreeSet<u64>,
) -> Result<SeenRelations, WalkFault>
    requires { s.old.handles.made < 2 ^ 61 }
    ensures reads { Walks C.told C.asked s.old s.new result (ask_relations s.old.layout
        (contains nat_cmp met.now) (get s.old.handles.held (task_pair k))) }
    ensures met { IfOk result (λ seen. IfSome seen.next (IsMet C.told s.new Task)) }
    ensures leaves { Leaves C.told 3 s.old s.new }
    ensures cause { HasCause (C.faults s.old.table.calls) (C.faults s.new.table.calls)
        (result ≡ Err WalkFault.Callback) }
{
    let implicit = task_variable(s, k, IMPLICIT_TASK_VAR)?;
    let region = region_of(s, k)?;
    let func = function_of(s, k)?;
    let generating = related_of(s, Relation::Generating(k))?;
    let next = next_of(s, k, met)?;
    Ok(SeenRelations {
        relations: Relations {
            implicit,
            region: Rid(region.name),
            func,
            generating: task_name(generating),
            scheduling: task_name(next),
        },
        next,
    })
}

/// The data environment of a task.
fn environment_of<C: Callbacks, F: ToHost>(
    s: &mut Session<C, F>,
    alloc: Global,
    k: TaskHandle,
) -> Result<Environment, WalkFault>
    ensures reads { Walks C.told C.asked s.old s.new result
        (ask_environment s.old.layout (get s.old.handles.held (task_pair k))) }
    ensures leaves { Leaves C.told 0 s.old s.new }
    ensures cause { HasCause (C.faults s.old.table.calls) (C.faults s.new.table.calls)
        (result ≡ Err WalkFault.Callback) }
{
    let dyn_var = task_variable(s, k, DYN_VAR)?;
    let nthreads = nthreads_of(s, alloc, k)?;
    let sched = task_variable(s, k, RUN_SCHED_VAR)?;
    let device = task_variable(s, k, DEFAULT_DEVICE_VAR)?;
    let final_task = task_variable(s, k, FINAL_TASK_VAR)?;
    Ok(Environment {
        dyn_var,
        nthreads,
        sched,
        device,
        final_task,
    })
}

/// The row of the task of this name, on the chain of a thread.
fn link_of<C: Callbacks, F: ToHost>(
    s: &mut Session<C, F>,
    alloc: Global,
    k: TaskHandle,
    task: Id,
    thread: u8,
    met: &BTreeSet<u64>,
) -> Result<Link, WalkFault>
    requires { s.old.handles.made < 2 ^ 60 }
    ensures reads { Walks C.told C.asked s.old s.new result (ask_link s.old.layout
        (contains nat_cmp met.now) thread task (get s.old.handles.held (task_pair k))) }
    ensures met { IfOk result (λ link. IfSome link.next (IsMet C.told s.new Task)) }
    ensures task { IfOk result (λ link. link.row.task.0 ≡ task) }
    ensures leaves { Leaves C.told 3 s.old s.new }
    ensures cause { HasCause (C.faults s.old.table.calls) (C.faults s.new.table.calls)
        (result ≡ Err WalkFault.Callback) }
{
    let seen = relations_of(s, k, met)?;
    let (exit, enter) = frames_of(s, k)?;
    let tool = tool_of(s, k)?;
    let environment = environment_of(s, alloc, k)?;
    Ok(Link {
        row: TaskRow {
            task: Tid(task),
            thread,
            implicit: seen.relations.implicit,
            region: seen.relations.region,
            func: seen.relations.func,
            generating: seen.relations.generating,
            scheduling: seen.relations.scheduling,
            exit,
            enter,
            tool,
            dyn_var: environment.dyn_var,
            nthreads: environment.nthreads,
            sched: environment.sched,
            device: environment.device,
            final_task: environment.final_task,
        },
        next: seen.next,
    })
}

/// The row of a task that was met, on the chain of a thread. `met` are the addresses of the chain so far, this one included.
pub fn task_row<C: Callbacks, F: ToHost>(
    s: &mut Session<C, F>,
    alloc: Global,
    task: Met,
    thread: u8,
    met: &BTreeSet<u64>,
) -> Result<Link, WalkFault>
    requires many { s.old.handles.made < 2 ^ 59 }
    requires met { IsMet C.told s.old Task task }
    ensures reads { Walks C.told C.asked s.old s.new result
        (ask_task s.old.layout (contains nat_cmp met.now) thread task) }
    ensures met { IfOk result (λ link. IfSome link.next (IsMet C.told s.new Task)) }
    ensures live { IfOk result (λ link. IsLive C.told s.new link.row.task) }
    ensures leaves { Leaves C.told 4 s.old s.new }
    ensures cause { HasCause (C.faults s.old.table.calls) (C.faults s.new.table.calls)
        (result ≡ Err WalkFault.Callback) }
{
    let (key, serial) = hand(s, task)?;
    let link = link_of(s, alloc, TaskHandle { key, serial }, task.name, thread, met);
    s.release(key, serial);
    link
}
