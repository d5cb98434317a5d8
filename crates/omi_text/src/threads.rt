//! The lines of contexts.

ghost use Rattle.std.specs.Prelude.{◌≡◌, ◌++◌, OnOk, string_bytes};
ghost use Rattle.std.specs.Fmt.{decimal};
ghost use Rattle.std.specs.List.{flat_map};
ghost use Rattle.omi_text.specs.Lines.{line, or_none};
ghost use Rattle.omi_text.specs.Parts.{spaced, thread_name, thread_state, thread_task};
ghost use Rattle.omi_text.specs.Threads.{thread_line, context_line};

use crate::OutOfMemory;
use crate::ids::push_task_or_none;
use crate::names::push_state;
use omi_model::{ThreadPart, ThreadRow, ThreadRows};
use std::fmt::Write;

/// Adds a state and its wait id, and a space.
#[tactic(auto, unfolding(crate::specs::Parts::thread_state))]
fn push_shown_state(text: &mut String, shown: Option<(u32, u64)>) -> Result<(), OutOfMemory>
    ensures { OnOk result (string_bytes text.new
        ≡ string_bytes text.old ++ spaced (thread_state shown)) }
{
    match shown {
        Some((state, wait)) => {
            text.push_str("state ")?;
            push_state(text, state)?;
            write!(text, " wait {wait} ")
        }
        None => text.push_str("state untracked wait 0 "),
    }
}

/// Adds a number, if there is one.
fn push_number_or_none(text: &mut String, number: Option<u64>) -> Result<(), OutOfMemory>
    ensures { OnOk result (string_bytes text.new
        ≡ string_bytes text.old ++ or_none decimal number) }
{
    match number {
        Some(n) => write!(text, "{n}"),
        None => text.push_str("none"),
    }
}

/// Adds the front of a thread's line: its number and its native id.
#[tactic(auto, unfolding(crate::specs::Parts::thread_name))]
fn push_name(text: &mut String, native: u64, part: &ThreadPart) -> Result<(), OutOfMemory>
    ensures { OnOk result (string_bytes text.new
        ≡ string_bytes text.old ++ spaced (thread_name native part.now)) }
{
    write!(text, "thread {} native {native} ", part.thread)
}

/// Adds the end of a thread's line: its number in the team, and its current task.
#[tactic(auto, unfolding(crate::specs::Parts::thread_task))]
fn push_thread_task(text: &mut String, part: &ThreadPart) -> Result<(), OutOfMemory>
    ensures { OnOk result (string_bytes text.new
        ≡ string_bytes text.old ++ line (thread_task part.now)) }
{
    text.push_str("thread-num-var=")?;
    push_number_or_none(text, part.number)?;
    text.push_str(" current ")?;
    push_task_or_none(text, part.current)?;
    text.push_str("\n")
}

/// Adds the line of a thread.
#[tactic(auto, unfolding(crate::specs::Threads::thread_line, crate::specs::Parts::thread_name, crate::specs::Parts::thread_state, crate::specs::Parts::thread_task))]
fn push_thread(text: &mut String, native: u64, part: &ThreadPart) -> Result<(), OutOfMemory>
    ensures { OnOk result (string_bytes text.new
        ≡ string_bytes text.old ++ thread_line native part.now) }
{
    push_name(text, native, part)?;
    push_shown_state(text, part.state)?;
    push_thread_task(text, part)
}

/// Adds the line of a context.
#[tactic(auto, unfolding(crate::specs::Threads::native_line))]
fn push_context(text: &mut String, row: &ThreadRow) -> Result<(), OutOfMemory>
    ensures { OnOk result (string_bytes text.new ≡ string_bytes text.old ++ context_line row.now) }
{
    let native = row.native;
    match &row.found {
        Some(part) => push_thread(text, native, part),
        None => write!(text, "native {native} none\n"),
    }
}

/// Adds the line of each context.
pub fn push_contexts(text: &mut String, rows: &ThreadRows) -> Result<(), OutOfMemory>
    ensures { OnOk result (string_bytes text.new
        ≡ string_bytes text.old ++ flat_map context_line rows.now) }
{
    for at in 0..rows.len() {
        push_context(text, rows.get(at))?;
    }
    Ok(())
}
