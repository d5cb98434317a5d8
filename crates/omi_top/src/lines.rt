//! What a run prints.

ghost use Rattle.std.specs.Prelude.{◌≡◌, ◌++◌, IfOk, string_bytes};
ghost use Rattle.omi_top.specs.Lines.{end_word, end_line};

use omi_commands::Lines;
use omi_core::End;
use std::alloc::AllocError;
use std::fmt::Write;

/// The word for why a run ended.
pub fn word_of(why: End) -> &'static str
    ensures { result.now ≡ end_word why }
{
    match why {
        End::Steps => "steps",
        End::Break => "break",
        End::Done => "done",
    }
}

/// All that a run of so many steps prints: the lines of its events, and the end line.
pub fn text_of(lines: Lines, steps: u64, why: End) -> Result<String, AllocError>
    ensures { IfOk result (λ text. string_bytes text
        ≡ string_bytes lines.text ++ end_line steps lines.count why) }
{
    let Lines { text, count, .. } = lines;
    let mut text = text;
    let why = word_of(why);
    write!(text, "end steps {steps} events {count} by {why}\n")?;
    Ok(text)
}
