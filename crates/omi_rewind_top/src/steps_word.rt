//! The steps that a word names.

ghost use Rattle.std.specs.Prelude.{◌≡◌, ◌==◌, ◌≤◌, IfOk, IfSome, map};
ghost use Rattle.std.specs.List.{All, slice_split};
ghost use Rattle.std.specs.Option.{option_map};
ghost use Rattle.omi_line.specs.Number.{number_between};
ghost use Rattle.omi_rewind.specs.declared.limits.TheConstants.{LAST_STEP};
ghost use Rattle.omi_rewind_top.specs.Command.{numbers_in, steps_of};

use crate::limits::MOST_JUMPS;
use omi_line::{Text, number};
use omi_rewind::LAST_STEP;
use omi_word::OutOfMemory;
use std::alloc::Global;

/// A word as a text of its own.
fn text_with(alloc: Global, word: &str) -> Result<Text, OutOfMemory>
    ensures { IfOk result (λ text. text ≡ word.now) }
{
    let mut text = Text::new(alloc);
    for byte in word.as_bytes() {
        text.push(*byte)?;
    }
    Ok(text)
}

/// The parts of a word between its commas.
fn parts_of(alloc: Global, word: &str) -> Result<Vec<&str>, OutOfMemory>
    ensures { IfOk result (λ parts.
        map (λ part. part.now) parts.items ≡ slice_split (λ b. b == 44) word.entry.now) }
{
    word.split(',').collect(alloc)
}

/// The step that a part names. None where it is no number up to the last step.
fn step_in(alloc: Global, part: &str) -> Result<Option<u64>, OutOfMemory>
    ensures { IfOk result (λ step. step ≡ number_between part.now 0 LAST_STEP) }
{
    let text = text_with(alloc, part)?;
    Ok(number(&text, 0, LAST_STEP))
}

/// The steps that parts name. None where one of them names none.
fn numbers_of(alloc: Global, parts: &[&str]) -> Result<Option<Vec<u64>>, OutOfMemory>
    ensures { IfOk result (λ steps. option_map (λ v. v.items) steps
        ≡ numbers_in (map (λ part. part.now) parts.now)) }
{
    let mut steps = Vec::new(alloc);
    for part in parts {
        let Some(step) = step_in(alloc, part)? else {
            return Ok(None);
        };
        steps.push(step)?;
    }
    Ok(Some(steps))
}

/// The steps that a word names, with commas between them. None where one of them is no number up to the last step, or where there are
/// too many.
pub fn steps_of(alloc: Global, word: &str) -> Result<Option<Vec<u64>>, OutOfMemory>
    ensures { IfOk result (λ steps. option_map (λ v. v.items) steps ≡ steps_of word.now) }
{
    let parts = parts_of(alloc, word)?;
    if parts.len() > MOST_JUMPS {
        return Ok(None);
    }
    numbers_of(alloc, &parts)
}
