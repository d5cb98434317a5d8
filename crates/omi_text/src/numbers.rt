//! Numbers and lists of numbers.

ghost use Rattle.std.specs.Prelude.{◌≡◌, ◌++◌, OnOk, string_bytes, drop};
ghost use Rattle.std.specs.Fmt.{decimal};
ghost use Rattle.omi_text.specs.Numbers.{hexadecimal, decimals, after_commas};

use crate::OutOfMemory;
use itoa::Buffer;
use omi_script::NumList;
use std::fmt::Write;

/// Adds a number in decimal, without a formatter.
pub fn push_decimal(text: &mut String, number: u64) -> Result<(), OutOfMemory>
    ensures { OnOk result (string_bytes text.new ≡ string_bytes text.old ++ decimal number) }
{
    let mut buffer = Buffer::new();
    text.push_str(buffer.format(number))
}

/// Adds a number in hexadecimal, as addresses are printed.
#[tactic(auto, unfolding(crate::specs::Numbers::hexadecimal))]
pub fn push_hexadecimal(text: &mut String, number: u64) -> Result<(), OutOfMemory>
    ensures { OnOk result (string_bytes text.new ≡ string_bytes text.old ++ hexadecimal number) }
{
    write!(text, "0x{number:x}")
}

/// Adds each number but the first behind a comma.
fn push_others(text: &mut String, list: &NumList) -> Result<(), OutOfMemory>
    ensures { OnOk result (string_bytes text.new
        ≡ string_bytes text.old ++ after_commas (drop 1 list.now)) }
{
    for at in 1..list.len() {
        let number = *list.get(at);
        write!(text, ",{number}")?;
    }
    Ok(())
}

/// Adds numbers, joined by commas.
#[tactic(auto, unfolding(crate::specs::Numbers::decimals))]
pub fn push_list(text: &mut String, list: &NumList) -> Result<(), OutOfMemory>
    ensures { OnOk result (string_bytes text.new ≡ string_bytes text.old ++ decimals list.now) }
{
    if list.len() == 0 {
        return Ok(());
    }
    let first = *list.get(0);
    write!(text, "{first}")?;
    push_others(text, list)
}
