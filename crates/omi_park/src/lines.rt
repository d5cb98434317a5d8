//! The lines above the report of a stop.

ghost use Rattle.std.specs.Prelude.{◌≡◌, ◌++◌, IfOk, OnOk, string_bytes};
ghost use Rattle.omi_park.specs.Lines.{steps_lines, stop_head};

use omi_commands::push_steps_line;
use omi_script::NumList;
use omi_word::OutOfMemory;
use std::alloc::{AllocError, Global};
use std::fmt::Write;

/// Adds the line of each thread's number of steps.
fn push_steps(text: &mut String, steps: &NumList) -> Result<(), AllocError>
    ensures { OnOk result
        (string_bytes text.new ≡ string_bytes text.old ++ steps_lines 0 steps.now) }
{
    for thread in 0..steps.len() {
        push_steps_line(text, thread, *steps.get(thread))?;
    }
    Ok(())
}

/// The line of a stop's number, and those of the numbers of steps that each thread had made then.
pub fn head_of(alloc: Global, number: usize, steps: &NumList) -> Result<String, OutOfMemory>
    ensures { IfOk result (λ text. string_bytes text ≡ stop_head number steps.now) }
{
    let mut text = String::new(alloc);
    write!(text, "stop {number}\n")?;
    push_steps(&mut text, steps)?;
    Ok(text)
}
