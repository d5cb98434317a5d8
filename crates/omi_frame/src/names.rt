//! The names of files in a command.

ghost use Rattle.std.specs.Prelude.{◌≡◌, ◌≤◌, ◌<◌, length};
ghost use Rattle.omi_frame.specs.Refusal.{input_name, named};

use crate::refusal::Input;

/// The names that a command gives to a script, to a core and to a later core of the same target. One that it does not give is empty.
#[derive(Clone, Copy)]
pub struct Names<'a> {
    pub script: &'a str,
    pub core: &'a str,
    pub later: &'a str,
}

/// The name of what a command reads.
pub(crate) fn name_of(names: Names<'_>, input: Input) -> &str
    ensures { result.now ≡ input_name (named names.entry) input }
{
    match input {
        Input::Script => names.script,
        Input::Core => names.core,
        Input::Later => names.later,
    }
}

/// The number of bytes of the longest name.
pub(crate) fn longest(names: Names<'_>) -> usize
    ensures script { length names.entry.script.now ≤ result }
    ensures core { length names.entry.core.now ≤ result }
    ensures later { length names.entry.later.now ≤ result }
    ensures small { result < 9223372036854775808 }
{
    names
        .script
        .len()
        .max(names.core.len())
        .max(names.later.len())
}
