//! The header lines.

ghost use Rattle.std.specs.Prelude.{◌≡◌, ◌++◌, OnOk, string_bytes};
ghost use Rattle.omi_text.specs.Head.{debug_text, head_lines};

use crate::OutOfMemory;
use omi_model::HeadRow;
use std::fmt::Write;

/// The word for debug-var.
pub fn debug_word(debug: u64) -> &'static str
    ensures { result.now ≡ debug_text debug }
{
    if debug == 0 { "disabled" } else { "enabled" }
}

/// Adds the two header lines.
pub fn push_head(text: &mut String, head: &HeadRow) -> Result<(), OutOfMemory>
    ensures { OnOk result (string_bytes text.new ≡ string_bytes text.old ++ head_lines head.now) }
{
    let debug = debug_word(head.debug);
    write!(
        text,
        "ompd {} threads {} debug {debug}\n",
        head.version, head.threads
    )?;
    write!(
        text,
        "icv num-procs-var={} max-active-levels-var={}\n",
        head.procs, head.max_active
    )
}
