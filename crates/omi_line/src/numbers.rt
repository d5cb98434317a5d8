//! Numbers in decimal digits, within a range.

ghost use Rattle.std.specs.Prelude.{◌≡◌};
ghost use Rattle.std.specs.Char.{is_ascii_digit};
ghost use Rattle.std.specs.List.{list_all};
ghost use Rattle.omi_line.specs.Number.{is_decimal_text, number_between};

use crate::Text;
use std::str;

fn has_only_digits(bytes: &[u8]) -> bool
    ensures { result ≡ list_all is_ascii_digit bytes.now }
{
    bytes.iter().all(|byte| byte.is_ascii_digit())
}

/// Whether the bytes are decimal digits, without a leading 0 but for 0 itself.
fn is_numeral(bytes: &[u8]) -> bool
    ensures { result ≡ is_decimal_text bytes.now }
{
    if bytes.len() > 1 && bytes[0] == b'0' {
        return false;
    }
    !bytes.is_empty() && has_only_digits(bytes)
}

/// The number that the text writes in decimal digits, without a sign and without a leading 0 but
/// for 0 itself. None where it writes none, or one outside `least` to `most`.
pub fn number(t: &Text, least: u64, most: u64) -> Option<u64>
    ensures { result ≡ number_between t.now least most }
{
    number_of(t.bytes(), least, most)
}

/// The number that bytes write, as `number` of a text.
pub fn number_of(bytes: &[u8], least: u64, most: u64) -> Option<u64>
    ensures { result ≡ number_between bytes.now least most }
{
    if !is_numeral(bytes) {
        return None;
    }
    let Ok(text) = str::from_utf8(bytes) else {
        return None;
    };
    let Ok(number) = text.parse::<u64>() else {
        return None;
    };
    if least <= number && number <= most {
        Some(number)
    } else {
        None
    }
}
