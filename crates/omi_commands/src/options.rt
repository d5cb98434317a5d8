//! Options that several programs have.

ghost use Rattle.std.specs.Prelude.{◌≡◌, ◌≤◌, IfSome};
ghost use Rattle.omi_commands.specs.Options.{break_named, has_option, layout_of};

use crate::limits::MOST_LAYOUT;
use omi_core::Break;
use omi_line::{Line, number};

/// The kind of event that a breakpoint's name stands for.
pub fn break_named(name: &str) -> Option<Break>
    ensures { result ≡ break_named name.now }
{
    match name {
        "parallel_begin" => Some(Break::ParallelBegin),
        "parallel_end" => Some(Break::ParallelEnd),
        "task_begin" => Some(Break::TaskBegin),
        "task_end" => Some(Break::TaskEnd),
        "thread_begin" => Some(Break::ThreadBegin),
        _ => None,
    }
}

/// What `--layout` says, and family 0 without it. None where it is no number in its range.
pub fn layout_of(line: &Line) -> Option<u8>
    ensures said { result ≡ layout_of line.now.layout }
    ensures few { IfSome result (λ k. k ≤ MOST_LAYOUT) }
{
    match &line.layout {
        Some(text) => Some(number(text, 0, MOST_LAYOUT)? as u8),
        None => Some(0),
    }
}

/// Whether a line has an option.
pub fn has_option(line: &Line) -> bool
    ensures { result ≡ has_option line.now }
{
    line.seed.is_some() || line.on.is_some() || line.count.is_some() || line.layout.is_some()
}
