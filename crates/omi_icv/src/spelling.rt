//! How the value of a control variable is spelled.

ghost use Rattle.std.specs.Prelude.{◌≡◌, ◌+◌, ◌≤◌, ◌++◌, drop, length};
ghost use Rattle.omi_script.specs.declared.limits.TheConstants.{MAX_SIZES};
ghost use Rattle.omi_text.specs.declared.short.TheConstants.{SHORT_TEXT};
ghost use Rattle.omi_icv.specs.Spellings.{number_text, value_text, after_commas};

use crate::variable::Spelling;
use omi_text::{ShortText, debug_word, schedule_text};

/// Adds a number of a value.
fn push_number(text: &mut ShortText, spelling: Spelling, number: u64)
    requires { length text.old + 41 ≤ SHORT_TEXT }
    ensures text { text.new ≡ text.old ++ number_text spelling number }
    ensures short { length text.new ≤ length text.old + 41 }
{
    match spelling {
        Spelling::Decimal => text.push_decimal(number),
        Spelling::Schedule => text.push_str(schedule_text(number).as_str()),
        Spelling::Switch => text.push_str(debug_word(number)),
    }
}

/// Adds each number but the first behind a comma.
fn push_others(text: &mut ShortText, spelling: Spelling, numbers: &[u64])
    requires few { length numbers.now ≤ MAX_SIZES }
    requires short { length text.old ≤ 41 }
    ensures { text.new ≡ text.old ++ after_commas spelling (drop 1 numbers.now) }
{
    for at in 1..numbers.len() {
        text.push_str(",");
        push_number(text, spelling, numbers[at]);
    }
}

/// The text of a value: its numbers, joined by commas.
pub fn value_text(spelling: Spelling, numbers: &[u64]) -> ShortText
    requires { length numbers.now ≤ MAX_SIZES }
    ensures { result ≡ value_text spelling numbers.now }
{
    let mut text = ShortText::new();
    if numbers.len() > 0 {
        push_number(&mut text, spelling, numbers[0]);
        push_others(&mut text, spelling, numbers);
    }
    text
}
