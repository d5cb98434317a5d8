//! What a run of threads prints.

ghost use Rattle.std.specs.Prelude.{◌≡◌, ◌++◌, IfOk, OnOk, string_bytes};
ghost use Rattle.omi_commands.specs.RunLines.{live_text, run_lines, runs_lines, steps_line};

use crate::event_lines::push_event_lines;
use omi_core::{RunList, ThreadRun};
use std::alloc::{AllocError, Global};
use std::fmt::Write;

/// Adds the line of a thread's number of steps. Where memory runs out, the text may hold a front of it.
pub fn push_steps_line(text: &mut String, thread: usize, steps: u64) -> Result<(), AllocError>
    ensures { OnOk result
        (string_bytes text.new ≡ string_bytes text.old ++ steps_line thread steps) }
{
    write!(text, "thread {thread} steps {steps}\n")
}

/// Adds the lines of one thread: its number of steps, and its events.
fn push_run(text: &mut String, thread: usize, run: &ThreadRun) -> Result<(), AllocError>
    ensures { OnOk result
        (string_bytes text.new ≡ string_bytes text.old ++ run_lines thread run.now) }
{
    push_steps_line(text, thread, run.steps)?;
    push_event_lines(text, &run.events)
}

/// Adds the lines of all threads.
fn push_runs(text: &mut String, runs: &RunList) -> Result<(), AllocError>
    ensures { OnOk result
        (string_bytes text.new ≡ string_bytes text.old ++ runs_lines 0 runs.now) }
{
    for thread in 0..runs.len() {
        push_run(text, thread, &runs.as_slice()[thread])?;
    }
    Ok(())
}

/// All that a run of threads with this budget prints.
pub fn runs_text(alloc: Global, runs: &RunList, budget: u64) -> Result<String, AllocError>
    ensures { IfOk result (λ text. string_bytes text ≡ live_text runs.now budget) }
{
    let mut text = String::new(alloc);
    push_runs(&mut text, runs)?;
    write!(text, "end budget {budget}\n")?;
    Ok(text)
}
