//! Words that are numbers.
ghost use Rattle.std.specs.Prelude.{◌≡◌, ◌≤◌, ◌<◌, ◌^◌, ℕ, true, IfSome, IfNone, length};
ghost use Rattle.std.specs.Fmt.{decimal};
ghost use Rattle.std.specs.List.{list_all};
ghost use Rattle.omi_script.specs.Names.{is_digit};
ghost use Rattle.omi_script.specs.Numbers.{is_decimal, number_of, value_of};

pub fn is_digit_byte(b: u8) -> bool
    ensures { result ≡ is_digit b }
{
    b'0' <= b && b <= b'9'
}

fn are_digits(word: &[u8]) -> bool
    ensures { result ≡ list_all is_digit word.now }
{
    word.iter().all(|b| is_digit_byte(*b))
}

fn is_number(word: &[u8]) -> bool
    ensures { result ≡ is_decimal word.now }
{
    !word.is_empty() && are_digits(word) && (word.len() == 1 || word[0] != b'0')
}

/// What digits stand for. None where it does not fit.
fn value(word: &[u8]) -> Option<u64>
    requires digits { list_all is_digit word.now ≡ true }
    requires some { 0 < length word.now }
    ensures some { IfSome result (λ n. n ≡ value_of word.now) }
    ensures none { IfNone result (2 ^ 64 ≤ value_of word.now) }
{
    match str::from_utf8(word) {
        Ok(text) => text.parse::<u64>().ok(),
        Err(_) => None,
    }
}

/// The number of a range that a word is.
fn number_in(word: &[u8], least: u64, most: u64) -> Option<u64>
    ensures { result ≡ number_of least most word.now }
{
    if !is_number(word) {
        return None;
    }
    match value(word) {
        Some(n) if least <= n && n <= most => Some(n),
        _ => None,
    }
}

/// The decimal number that a word is, without a leading 0 but for 0 itself. None also where it
/// isn't in the range.
pub fn number(word: &[u8], least: u64, most: u64) -> Option<u64>
    ensures value { result ≡ number_of least most word.now }
    ensures in_range { IfSome result (λ n. (least ≤ n) × (n ≤ most)) }
    // a number is how std writes it, and where there is none std writes no number of the range so
    ensures written { IfSome result (λ n. word.now ≡ decimal n) }
    ensures none { IfNone result ((n : ℕ) → least ≤ n → n ≤ most → word.now ≡ decimal n → ⊥) }
{
    number_in(word, least, most)
}

/// A number that fits in a byte.
pub fn number_u8(word: &[u8], least: u8, most: u8) -> Option<u8>
    ensures { result ≡ number_of least most word.now }
{
    match number(word, least as u64, most as u64) {
        Some(n) => Some(n as u8),
        None => None,
    }
}

/// A number that fits in two bytes.
pub fn number_u16(word: &[u8], least: u16, most: u16) -> Option<u16>
    ensures { result ≡ number_of least most word.now }
{
    match number(word, least as u64, most as u64) {
        Some(n) => Some(n as u16),
        None => None,
    }
}
