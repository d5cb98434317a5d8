//! States and schedule kinds by name, or by number where they have none.

ghost use Rattle.std.specs.Prelude.{◌≡◌, ◌≤◌, ◌++◌, OnOk, length, string_bytes};
ghost use Rattle.omi_text.specs.Names.{state_text, kind_text};

use crate::OutOfMemory;
use crate::numbers::push_hexadecimal;
use crate::short::ShortText;
use omi_numbers::{kind_name, state_name};

/// Adds a state by its name, or by its number where it has none.
#[tactic(auto, unfolding(crate::specs::Names::state_text))]
pub fn push_state(text: &mut String, state: u32) -> Result<(), OutOfMemory>
    ensures { OnOk result (string_bytes text.new ≡ string_bytes text.old ++ state_text state) }
{
    match state_name(state) {
        Some(name) => text.push_str(name),
        None => push_hexadecimal(text, u64::from(state)),
    }
}

/// A schedule kind by its name, or by its number where it has none.
#[tactic(auto, unfolding(crate::specs::Names::kind_text))]
pub fn kind_text(kind: u64) -> ShortText
    ensures text { result ≡ kind_text kind }
    ensures short { length result ≤ 20 }
{
    let mut text = ShortText::new();
    match kind_name(kind) {
        Some(name) => text.push_str(name),
        None => text.push_decimal(kind),
    }
    text
}
