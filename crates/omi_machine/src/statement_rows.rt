//! The rows of statements, put in front of a to-do list.

ghost use Rattle.std.specs.Prelude.{◌≡◌, ◌∷◌, ◌||◌, OnOk, if◌then◌else◌};
ghost use Rattle.omi_numbers.specs.declared.states.TheConstants.{OVERHEAD, WAIT_BARRIER_EXPLICIT, WAIT_TASKWAIT};
ghost use Rattle.omi_model.specs.Rows.{barrier_items, behind, call_items, shown, working};

use crate::first_lists::{push_barrier, push_function, push_shown, push_working};
use omi_model::{Encounter, Item, ItemList, Shape};
use omi_numbers::{
    OVERHEAD, WAIT_BARRIER_EXPLICIT, WAIT_CRITICAL, WAIT_TASKGROUP, WAIT_TASKWAIT, lock_wait,
};
use omi_script::{Program, Stmt};
use omi_word::OutOfMemory;

/// Puts a call of a function in front, behind the event of the call.
fn push_call(list: &mut ItemList, p: &Program, f: u8) -> Result<(), OutOfMemory>
    ensures { OnOk result (list.new ≡ call_items p.now f list.old) }
{
    list.push_front(Item::Ret)?;
    push_function(list, &p.funcs, f)
}

/// Puts the end of a row in front: the thread works again, and the task leaves the runtime.
fn push_leaving(list: &mut ItemList, at: Encounter) -> Result<(), OutOfMemory>
    ensures { OnOk result (list.new ≡ working at (Item.Leave ∷ list.old)) }
{
    list.push_front(Item::Leave)?;
    push_working(list, at)
}

/// Puts the row of a parallel construct in front.
fn push_parallel(
    list: &mut ItemList,
    at: Encounter,
    f: u8,
    num: Option<u8>,
) -> Result<(), OutOfMemory>
    ensures { OnOk result (list.new ≡ shown at OVERHEAD 0 (Item.Want num ∷ Item.Asks ∷ Item.Fork f
        ∷ working at (Item.Leave ∷ list.old))) }
{
    push_leaving(list, at)?;
    list.push_front(Item::Fork { f })?;
    list.push_front(Item::Asks)?;
    list.push_front(Item::Want { num })?;
    push_shown(list, at, OVERHEAD, 0)
}

/// The item of a new task: it starts at once where it is undeferred, or where its encountering task is final.
fn task_item(at: Encounter, f: u8, undeferred: bool, is_final: bool) -> Item
    ensures { result ≡ (if undeferred || at.is_final then Item.StartNow f (is_final || at.is_final)
        else Item.Defer 0 f (is_final || at.is_final)) }
{
    let is_final = is_final || at.is_final;
    if undeferred || at.is_final {
        Item::StartNow { f, is_final }
    } else {
        Item::Defer {
            seen: 0,
            f,
            is_final,
        }
    }
}

/// Puts the row of a task construct in front.
fn push_task(
    list: &mut ItemList,
    at: Encounter,
    f: u8,
    undeferred: bool,
    is_final: bool,
) -> Result<(), OutOfMemory>
    ensures { OnOk result (list.new
        ≡ (if undeferred || at.is_final then Item.StartNow f (is_final || at.is_final)
        else Item.Defer 0 f (is_final || at.is_final)) ∷ Item.Leave ∷ list.old) }
{
    list.push_front(Item::Leave)?;
    list.push_front(task_item(at, f, undeferred, is_final))
}

/// Puts the row of a taskwait in front.
fn push_taskwait(list: &mut ItemList, at: Encounter) -> Result<(), OutOfMemory>
    ensures { OnOk result (list.new ≡ shown at WAIT_TASKWAIT 0 (Item.Tasks WAIT_TASKWAIT
        ∷ Item.WaitDone ∷ working at (Item.Leave ∷ list.old))) }
{
    push_leaving(list, at)?;
    list.push_front(Item::WaitDone)?;
    list.push_front(Item::Tasks {
        state: WAIT_TASKWAIT,
    })?;
    push_shown(list, at, WAIT_TASKWAIT, 0)
}

/// Puts the row of a taskyield in front.
fn push_taskyield(list: &mut ItemList) -> Result<(), OutOfMemory>
    ensures { OnOk result (list.new ≡ Item.OneTask ∷ Item.Yield ∷ Item.Leave ∷ list.old) }
{
    list.push_front(Item::Leave)?;
    list.push_front(Item::Yield)?;
    list.push_front(Item::OneTask)
}

/// Puts the row of an explicit barrier in front.
fn push_explicit_barrier(list: &mut ItemList, at: Encounter) -> Result<(), OutOfMemory>
    ensures { OnOk result (list.new
        ≡ barrier_items at WAIT_BARRIER_EXPLICIT (working at (Item.Leave ∷ list.old))) }
{
    push_leaving(list, at)?;
    push_barrier(list, at, WAIT_BARRIER_EXPLICIT)
}

/// Puts the row of a critical construct in front.
fn push_critical(
    list: &mut ItemList,
    p: &Program,
    at: Encounter,
    k: u8,
    f: u8,
) -> Result<(), OutOfMemory>
    ensures { OnOk result (list.new ≡ behind p.now at (Stmt.Critical k f) list.old) }
{
    list.push_front(Item::Unlock { k })?;
    push_call(list, p, f)?;
    list.push_front(Item::Call { f })?;
    push_leaving(list, at)?;
    list.push_front(Item::Lock { k })?;
    push_shown(list, at, WAIT_CRITICAL, lock_wait(k))
}

/// Puts the row of a taskgroup construct in front.
fn push_group(list: &mut ItemList, p: &Program, at: Encounter, f: u8) -> Result<(), OutOfMemory>
    ensures { OnOk result (list.new ≡ behind p.now at (Stmt.Taskgroup f) list.old) }
{
    push_leaving(list, at)?;
    list.push_front(Item::GroupEnd)?;
    list.push_front(Item::Tasks {
        state: WAIT_TASKGROUP,
    })?;
    push_shown(list, at, WAIT_TASKGROUP, 0)?;
    list.push_front(Item::Enter)?;
    push_call(list, p, f)?;
    list.push_front(Item::Call { f })
}

/// Puts the calls of a repeated function in front, behind the event of the first.
fn push_repeat(
    list: &mut ItemList,
    p: &Program,
    at: Encounter,
    n: u16,
    f: u8,
) -> Result<(), OutOfMemory>
    ensures { OnOk result (list.new ≡ behind p.now at (Stmt.Repeat n f) list.old) }
{
    if n == 0 {
        return Ok(());
    }
    list.push_front(Item::Do(Stmt::Repeat { n: n - 1, f }))?;
    push_call(list, p, f)
}

/// Puts what stands behind the first item of a statement's row in front.
pub(crate) fn push_behind(
    list: &mut ItemList,
    p: &Program,
    at: Encounter,
    s: Stmt,
) -> Result<(), OutOfMemory>
    ensures { OnOk result (list.new ≡ behind p.now at s list.old) }
{
    match Shape::of(&s) {
        Shape::Parallel { f, num } => push_parallel(list, at, f, num),
        Shape::Task {
            f,
            undeferred,
            is_final,
        } => push_task(list, at, f, undeferred, is_final),
        Shape::Taskwait => push_taskwait(list, at),
        Shape::Taskyield => push_taskyield(list),
        Shape::Barrier => push_explicit_barrier(list, at),
        Shape::Critical { k, f } => push_critical(list, p, at, k, f),
        Shape::Taskgroup { f } => push_group(list, p, at, f),
        Shape::Call { f } => push_call(list, p, f),
        Shape::Only { m, f } => {
            if at.number == m as u64 {
                push_call(list, p, f)
            } else {
                Ok(())
            }
        }
        Shape::Repeat { n, f } => push_repeat(list, p, at, n, f),
        Shape::Sets { .. } | Shape::Tool(_) | Shape::Work => Ok(()),
    }
}
