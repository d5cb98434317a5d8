//! The lines of tasks and their data environments.

ghost use Rattle.std.specs.Prelude.{◌≡◌, ◌≤◌, ◌++◌, OnErr, OnOk, length, string_bytes};
ghost use Rattle.std.specs.List.{flat_map};
ghost use Rattle.omi_text.specs.Lines.{line};
ghost use Rattle.omi_text.specs.Parts.{spaced, task_name, task_region, task_ancestors, task_frames, dynamic_variable, list_variables, task_variables};
ghost use Rattle.omi_text.specs.Tasks.{task_kind, task_line, schedule_text, environment_line, task_lines};

use crate::OutOfMemory;
use crate::ids::{push_region, push_task, push_task_or_none};
use crate::names::kind_text;
use crate::numbers::{push_hexadecimal, push_list};
use crate::short::ShortText;
use omi_model::{TaskRow, TaskRows};
use omi_numbers::CHUNK_PLACE;
use std::fmt::Write;

/// The word for the kind of a task.
fn kind_word(implicit: u64) -> &'static str
    ensures { result.now ≡ task_kind implicit }
{
    if implicit == 0 {
        "explicit"
    } else {
        "implicit"
    }
}

/// Adds the front of a task's line: its name, its thread and its kind.
#[tactic(auto, unfolding(crate::specs::Parts::task_name))]
fn push_name(text: &mut String, row: &TaskRow) -> Result<(), OutOfMemory>
    ensures { OnOk result (string_bytes text.new
        ≡ string_bytes text.old ++ spaced (task_name row.now)) }
{
    text.push_str("task ")?;
    push_task(text, row.task)?;
    let kind = kind_word(row.implicit);
    write!(text, " thread {} kind {kind} ", row.thread)
}

/// Adds the region of a task and its function.
#[tactic(auto, unfolding(crate::specs::Parts::task_region))]
fn push_task_region(text: &mut String, row: &TaskRow) -> Result<(), OutOfMemory>
    ensures { OnOk result (string_bytes text.new
        ≡ string_bytes text.old ++ spaced (task_region row.now)) }
{
    text.push_str("region ")?;
    push_region(text, row.region)?;
    text.push_str(" function ")?;
    push_hexadecimal(text, row.func)?;
    text.push_str(" ")
}

/// Adds the generating and the scheduling task of a task.
#[tactic(auto, unfolding(crate::specs::Parts::task_ancestors))]
fn push_ancestors(text: &mut String, row: &TaskRow) -> Result<(), OutOfMemory>
    ensures { OnOk result (string_bytes text.new
        ≡ string_bytes text.old ++ spaced (task_ancestors row.now)) }
{
    text.push_str("generating ")?;
    push_task_or_none(text, row.generating)?;
    text.push_str(" scheduling ")?;
    push_task_or_none(text, row.scheduling)?;
    text.push_str(" ")
}

/// Adds the end of a task's line: its frames and its tool word.
#[tactic(auto, unfolding(crate::specs::Parts::task_frames))]
fn push_frames(text: &mut String, row: &TaskRow) -> Result<(), OutOfMemory>
    ensures { OnOk result (string_bytes text.new
        ≡ string_bytes text.old ++ line (task_frames row.now)) }
{
    text.push_str("exit ")?;
    push_hexadecimal(text, row.exit)?;
    text.push_str(" enter ")?;
    push_hexadecimal(text, row.enter)?;
    write!(text, " tool {}\n", row.tool)
}

/// Adds the line of a task.
fn push_task_line(text: &mut String, row: &TaskRow) -> Result<(), OutOfMemory>
    ensures { OnOk result (string_bytes text.new ≡ string_bytes text.old ++ task_line row.now) }
{
    push_name(text, row)?;
    push_task_region(text, row)?;
    push_ancestors(text, row)?;
    push_frames(text, row)
}

/// The schedule of a word: its kind and its chunk.
#[tactic(auto, unfolding(crate::specs::Tasks::schedule_text))]
pub fn schedule_text(word: u64) -> ShortText
    ensures text { result ≡ schedule_text word }
    ensures short { length result ≤ 41 }
{
    let mut text = kind_text(word % CHUNK_PLACE);
    text.push_str(",");
    text.push_decimal(word / CHUNK_PLACE);
    text
}

/// Adds the schedule of a word. Where memory runs out, nothing is added.
pub fn push_schedule(text: &mut String, word: u64) -> Result<(), OutOfMemory>
    ensures schedule { OnOk result
        (string_bytes text.new ≡ string_bytes text.old ++ schedule_text word) }
    ensures kept { OnErr result (string_bytes text.new ≡ string_bytes text.old) }
{
    let schedule = schedule_text(word);
    text.push_str(schedule.as_str())
}

/// Adds the front of the line of a data environment: dyn-var.
#[tactic(auto, unfolding(crate::specs::Parts::dynamic_variable))]
fn push_dynamic(text: &mut String, row: &TaskRow) -> Result<(), OutOfMemory>
    ensures { OnOk result (string_bytes text.new
        ≡ string_bytes text.old ++ spaced (dynamic_variable row.now)) }
{
    write!(text, "icv dyn-var={} ", row.dyn_var)
}

/// Adds nthreads-var and run-sched-var of a task.
#[tactic(auto, unfolding(crate::specs::Parts::list_variables))]
fn push_list_variables(text: &mut String, row: &TaskRow) -> Result<(), OutOfMemory>
    ensures { OnOk result (string_bytes text.new
        ≡ string_bytes text.old ++ spaced (list_variables row.now)) }
{
    text.push_str("nthreads-var=")?;
    push_list(text, &row.nthreads)?;
    text.push_str(" run-sched-var=")?;
    push_schedule(text, row.sched)?;
    text.push_str(" ")
}

/// Adds the end of the line of a data environment: default-device-var, final-task-var and implicit-task-var.
#[tactic(auto, unfolding(crate::specs::Parts::task_variables))]
fn push_task_variables(text: &mut String, row: &TaskRow) -> Result<(), OutOfMemory>
    ensures { OnOk result (string_bytes text.new
        ≡ string_bytes text.old ++ line (task_variables row.now)) }
{
    write!(
        text,
        "default-device-var={} final-task-var={} implicit-task-var={}\n",
        row.device, row.final_task, row.implicit
    )
}

/// Adds the line of a task's data environment.
fn push_environment(text: &mut String, row: &TaskRow) -> Result<(), OutOfMemory>
    ensures { OnOk result (string_bytes text.new
        ≡ string_bytes text.old ++ environment_line row.now) }
{
    push_dynamic(text, row)?;
    push_list_variables(text, row)?;
    push_task_variables(text, row)
}

/// Adds the two lines of a task.
fn push_task_lines(text: &mut String, row: &TaskRow) -> Result<(), OutOfMemory>
    ensures { OnOk result (string_bytes text.new ≡ string_bytes text.old ++ task_lines row.now) }
{
    push_task_line(text, row)?;
    push_environment(text, row)
}

/// Adds the lines of each task.
pub fn push_tasks(text: &mut String, rows: &TaskRows) -> Result<(), OutOfMemory>
    ensures { OnOk result (string_bytes text.new
        ≡ string_bytes text.old ++ flat_map task_lines rows.now) }
{
    for at in 0..rows.len() {
        push_task_lines(text, rows.get(at))?;
    }
    Ok(())
}
