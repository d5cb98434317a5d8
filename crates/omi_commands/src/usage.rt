//! What the values of options are to be that several programs have.

ghost use Rattle.std.specs.Prelude.{◌≡◌};
ghost use Rattle.omi_usage.specs.Form.{want_of};
ghost use Rattle.omi_commands.specs.Forms.{a_breakpoint, a_layout};

use crate::limits::MOST_LAYOUT;
use omi_usage::Wanted;

/// The value of `--break`.
pub fn breakpoint_wanted() -> Wanted
    ensures { want_of result ≡ a_breakpoint }
{
    Wanted::OneOf {
        name: "NAME",
        names: &[
            "parallel_begin",
            "parallel_end",
            "task_begin",
            "task_end",
            "thread_begin",
        ],
    }
}

/// The value of `--layout`.
pub fn layout_wanted() -> Wanted
    ensures { want_of result ≡ a_layout }
{
    Wanted::Number {
        name: "K",
        least: 0,
        most: MOST_LAYOUT,
    }
}
