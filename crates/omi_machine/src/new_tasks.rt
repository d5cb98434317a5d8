//! New explicit tasks: deferred, or started at once.

ghost use Rattle.std.specs.Prelude.{◌≡◌, ◌<◌, IfOk, OnOk, OnErr, Some, ⊤};
ghost use Rattle.omi_machine.specs.Kept.{state_of};
ghost use Rattle.omi_model.specs.Changes.{OfCurrent, by_current};
ghost use Rattle.omi_model.specs.Groups.{group_within};
ghost use Rattle.omi_model.specs.Rows.{task_items};
ghost use Rattle.omi_model.specs.Tasking.{deferred, deferred_task, scheduled, started_now};

use crate::State;
use crate::first_lists::push_function;
use crate::slot_changes::{keep_slot, make};
use crate::thread_changes::set_current;
use omi_model::{Group, Item, ItemList, Progress, Task, Tid, Variables};
use omi_numbers::exit_below;
use omi_script::Program;
use omi_word::OutOfMemory;
use std::alloc::Global;

/// What an explicit task has to do.
fn task_list(alloc: Global, p: &Program, f: u8) -> Result<ItemList, OutOfMemory>
    ensures { IfOk result (λ list. list ≡ task_items p.now f) }
{
    let mut list = ItemList::new(alloc);
    list.push_front(Item::Finish)?;
    push_function(&mut list, &p.funcs, f)?;
    Ok(list)
}

/// Equal variables.
fn same_variables(alloc: Global, v: &Variables) -> Result<Variables, OutOfMemory>
    ensures { IfOk result (λ new. new ≡ v.now) }
{
    Ok(Variables {
        dynamic: v.dynamic,
        nthreads: v.nthreads.same(alloc)?,
        schedule: v.schedule,
        device: v.device,
    })
}

/// The group of a task that task `k`, which is `t`, generates.
fn group_of_new(k: Tid, t: &Task) -> Option<Group>
    ensures { result ≡ group_within k t.now }
{
    match Group::innermost(k, t.open_groups) {
        Some(group) => Some(group),
        None => t.group,
    }
}

/// A task over `f` that task `k`, which is `t`, defers in a place.
fn new_deferred(
    alloc: Global,
    p: &Program,
    k: Tid,
    t: &Task,
    f: u8,
    is_final: bool,
    place: u8,
) -> Result<Task, OutOfMemory>
    ensures { IfOk result (λ new. new ≡ deferred_task p.now k t.now f is_final place) }
{
    Ok(Task {
        implicit: false,
        region: t.region,
        thread: 0,
        number: 0,
        generating: Some(k),
        scheduling: None,
        function: f,
        exit: 0,
        enter: 0,
        variables: same_variables(alloc, &t.variables)?,
        is_final,
        tool: 0,
        progress: Progress::Deferred,
        place,
        group: group_of_new(k, t),
        open_groups: 0,
        frees: None,
        list: task_list(alloc, p, f)?,
    })
}

/// A task that runs on a thread, scheduled from task `k`, which is `t`.
fn scheduled_from(i: u8, k: Tid, t: &Task, new: Task) -> Task
    ensures { result ≡ scheduled i k t.now new }
{
    Task {
        thread: i,
        number: t.number,
        scheduling: Some(k),
        exit: exit_below(t.exit),
        enter: 0,
        progress: Progress::Begun,
        ..new
    }
}

/// A new task over a function is deferred in a place. Without room the state stays.
pub(crate) fn defer(
    alloc: Global,
    p: &Program,
    s: &mut State,
    i: usize,
    task: Tid,
    f: u8,
    is_final: bool,
    place: u8,
) -> Result<(), OutOfMemory>
    requires known { i < (state_of s.old).count }
    requires current { OfCurrent (state_of s.old) i (λ k t. ⊤) }
    ensures done { OnOk result (by_current (state_of s.old) i
        (deferred p.now (state_of s.old) task f is_final place) ≡ Some (state_of s.new)) }
    ensures refused { OnErr result (state_of s.new ≡ state_of s.old) }
{
    let Some((k, t)) = s.current(i) else {
        unreachable!();
    };
    let new = new_deferred(alloc, p, k, t, f, is_final, place)?;
    keep_slot(alloc, &mut s.tasks, task.0)?;
    make(alloc, &mut s.tasks, task.0, new);
    Ok(())
}

/// A new task over a function starts at once, and the encountering task waits for it. Without room the state stays.
pub(crate) fn start_now(
    alloc: Global,
    p: &Program,
    s: &mut State,
    i: u8,
    task: Tid,
    f: u8,
    is_final: bool,
) -> Result<(), OutOfMemory>
    requires known { i < (state_of s.old).count }
    requires current { OfCurrent (state_of s.old) i (λ k t. ⊤) }
    ensures done { OnOk result (by_current (state_of s.old) i
        (started_now p.now (state_of s.old) i task f is_final) ≡ Some (state_of s.new)) }
    ensures refused { OnErr result (state_of s.new ≡ state_of s.old) }
{
    let Some((k, t)) = s.current(i as usize) else {
        unreachable!();
    };
    let deferred = new_deferred(alloc, p, k, t, f, is_final, 0)?;
    let new = scheduled_from(i, k, t, deferred);
    keep_slot(alloc, &mut s.tasks, task.0)?;
    make(alloc, &mut s.tasks, task.0, new);
    set_current(alloc, s, i as usize, Some(task));
    Ok(())
}
