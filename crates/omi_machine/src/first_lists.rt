//! The first lists: what a task has to do when it begins.

ghost use Rattle.std.specs.Prelude.{◌≡◌, OnOk, OnErr};
ghost use Rattle.omi_script.specs.Bodies.{body_of};
ghost use Rattle.omi_model.specs.Rows.{body_items, barrier_items, end_of_member, shown, working};

use omi_model::{Encounter, Item, ItemList};
use omi_numbers::{WAIT_BARRIER_IMPLICIT_PARALLEL, WORK_PARALLEL, WORK_SERIAL};
use omi_script::{FuncList, StmtList};
use omi_word::OutOfMemory;

/// Puts the statements of a body in front.
pub(crate) fn push_body(list: &mut ItemList, body: &StmtList) -> Result<(), OutOfMemory>
    ensures { OnOk result (list.new ≡ body_items body.now list.old) }
{
    for k in 0..body.len() {
        let statement = *body.get(body.len() - 1 - k);
        list.push_front(Item::Do(statement))?;
    }
    Ok(())
}

/// Puts the statements of a function in front.
pub(crate) fn push_function(list: &mut ItemList, funcs: &FuncList, f: u8) -> Result<(), OutOfMemory>
    ensures { OnOk result (list.new ≡ body_items (body_of funcs.now f) list.old) }
{
    match funcs.find(f as usize) {
        Some(func) => push_body(list, &func.body),
        None => Ok(()),
    }
}

/// Puts a state item in front, where states are kept.
pub(crate) fn push_shown(
    list: &mut ItemList,
    at: Encounter,
    state: u32,
    wait: u64,
) -> Result<(), OutOfMemory>
    ensures added { OnOk result (list.new ≡ shown at state wait list.old) }
    ensures refused { OnErr result (list.new ≡ list.old) }
{
    if at.debug {
        list.push_front(Item::State { state, wait })
    } else {
        Ok(())
    }
}

/// Puts a state item in front by which the thread works, where states are kept.
pub(crate) fn push_working(list: &mut ItemList, at: Encounter) -> Result<(), OutOfMemory>
    ensures added { OnOk result (list.new ≡ working at list.old) }
    ensures refused { OnErr result (list.new ≡ list.old) }
{
    if at.level == 0 {
        push_shown(list, at, WORK_SERIAL, 0)
    } else {
        push_shown(list, at, WORK_PARALLEL, 0)
    }
}

/// Puts a barrier in front, which waits in this state.
pub(crate) fn push_barrier(
    list: &mut ItemList,
    at: Encounter,
    state: u32,
) -> Result<(), OutOfMemory>
    ensures { OnOk result (list.new ≡ barrier_items at state list.old) }
{
    list.push_front(Item::Pass)?;
    if at.number == 0 {
        list.push_front(Item::Release)?;
    }
    list.push_front(Item::Tasks { state })?;
    list.push_front(Item::Arrive)?;
    push_shown(list, at, state, 0)
}

/// Puts the end of a member in front.
pub(crate) fn push_end_of_member(list: &mut ItemList, at: Encounter) -> Result<(), OutOfMemory>
    ensures { OnOk result (list.new ≡ end_of_member at list.old) }
{
    push_barrier(list, at, WAIT_BARRIER_IMPLICIT_PARALLEL)
}
