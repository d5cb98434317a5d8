//! The lines of a step that is gone to and of a step that is found.

ghost use Rattle.std.specs.Prelude.{◌≡◌, IfOk, string_bytes};
ghost use Rattle.omi_rewind_top.specs.Lines.{first_line, place_line};

use omi_rewind::At;
use omi_word::OutOfMemory;
use std::alloc::Global;
use std::fmt::Write;

/// The line of a step that was gone to, by where the image stands then.
pub fn place_line(alloc: Global, step: u64, at: At) -> Result<String, OutOfMemory>
    ensures { IfOk result (λ line. string_bytes line ≡ place_line step at) }
{
    let mut line = String::new(alloc);
    match at {
        At::Here => write!(line, "step {step}\n")?,
        At::Done(done) => write!(line, "step {step} done {done}\n")?,
    }
    Ok(line)
}

/// The line of a first step, or of none.
pub fn first_line(alloc: Global, first: Option<u64>) -> Result<String, OutOfMemory>
    ensures { IfOk result (λ line. string_bytes line ≡ first_line first) }
{
    let mut line = String::new(alloc);
    match first {
        Some(step) => write!(line, "first {step}\n")?,
        None => write!(line, "none\n")?,
    }
    Ok(line)
}
