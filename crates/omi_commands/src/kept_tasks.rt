//! Tasks that are kept between two stops of a target, and what became of them.

ghost use Rattle.std.specs.Prelude.{◌≡◌, ◌++◌, IfErr, IsErrAnd, OnOk, Some, map, string_bytes};
ghost use Rattle.std.specs.FinMap.{get};
ghost use Rattle.omi_outside.specs.Outside.{HasCause};
ghost use Rattle.omi_session.specs.Made.{task_pair};
ghost use Rattle.omi_session.specs.Opened.{StaysWhole};
ghost use Rattle.omi_session.specs.Tells.{Tells};
ghost use Rattle.omi_commands.specs.Fates.{AreLines, HoldsEach, IsFate, fate_line, fate_of, fate_word, is_current};
ghost use Rattle.omi_commands.specs.Inquiries.{ComesOfWords};
ghost use Rattle.omi_frame.specs.Refusal.{IsReadFault};
ghost use Rattle.omi_walk.specs.Kept.{task_object};
ghost use Rattle.omi_word.specs.Words.{Words};

use crate::inquiries::refusal_of_code;
use omi_asktask::get_task_function;
use omi_calls::{Callbacks, ToHost};
use omi_frame::Refusal;
use omi_handle::TaskHandle;
use omi_model::{Id, Tid};
use omi_session::{Parted, Rc, Session};
use omi_walk::KeptList;
use std::alloc::{AllocError, Global};
use std::fmt::Write;

/// The tasks of a core's report, each with a handle, and what holds the handles.
#[derive(Drop)]
pub struct KeptTasks {
    pub parted: Parted,
    pub tasks: KeptList,
}

/// What is made of the answer of the inquiry for a task's function: the handle of a task that isn't current is stale.
fn fate_of(answer: Result<u64, Rc>) -> Result<bool, Refusal>
    ensures { result ≡ fate_of answer }
{
    match answer {
        Ok(_) => Ok(true),
        Err(Rc::StaleHandle) => Ok(false),
        Err(rc) => Err(refusal_of_code(rc)),
    }
}

/// Whether the task of a handle is current.
fn is_current<C: Callbacks, H: ToHost>(
    session: &mut Session<C, H>,
    task: TaskHandle,
) -> Result<bool, Refusal>
    ensures fate { (memory : Words) (k : Tid) → Tells (C.told session.old.table.calls) memory
        → get session.old.handles.held (task_pair task) ≡ Some (task_object session.old.layout k)
        → IsFate (is_current session.old.layout memory k) result }
    ensures words { IfErr result ComesOfWords }
    ensures same { StaysWhole C.told session.old session.new }
    ensures cause { HasCause (C.faults session.old.table.calls) (C.faults session.new.table.calls)
        (IsErrAnd result IsReadFault) }
{
    fate_of(get_task_function(session, task))
}

/// The word for what became of a task.
fn fate_word(current: bool) -> &'static str
    ensures { result.now ≡ fate_word current }
{
    if current { "current" } else { "stale" }
}

/// Adds the line on a task.
#[tactic(auto, unfolding(omi_text::specs::Ids::task_id, omi_text::specs::Ids::id_text))]
fn push_fate(text: &mut String, task: Tid, current: bool) -> Result<(), AllocError>
    ensures { OnOk result
        (string_bytes text.new ≡ string_bytes text.old ++ fate_line task current) }
{
    let Tid(
        Id {
            creator,
            slot,
            generation,
        },
    ) = task;
    let fate = fate_word(current);
    write!(text, "task k{creator}.{slot}.{generation} {fate}\n")
}

/// The lines on what became of tasks, in their order.
pub fn fates<C: Callbacks, H: ToHost>(
    session: &mut Session<C, H>,
    alloc: Global,
    tasks: &KeptList,
) -> Result<String, Refusal>
    ensures fates { (memory : Words) → Tells (C.told session.old.table.calls) memory
        → HoldsEach session.old.layout session.old.handles tasks.now
        → AreLines session.old.layout memory (map (λ k. k.0) tasks.now) result }
    ensures words { IfErr result ComesOfWords }
    ensures cause { HasCause (C.faults session.old.table.calls) (C.faults session.new.table.calls)
        (IsErrAnd result IsReadFault) }
{
    let mut text = String::new(alloc);
    for at in 0..tasks.len() {
        let (task, handle) = *tasks.get(at);
        let current = is_current(session, handle)?;
        push_fate(&mut text, task, current)?;
    }
    Ok(text)
}
