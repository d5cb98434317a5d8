//! Names of functions.
ghost use Rattle.std.specs.Prelude.{◌≡◌, ◌≤◌, ◌-◌, ◌++◌, length, replicate, Some, None, if◌then◌else◌};
ghost use Rattle.std.specs.List.{list_all};
ghost use Rattle.omi_script.specs.Names.{begins_name, continues_name, is_digit, is_name_text, name_of, text_of};

use crate::limits::MAX_NAME;
use crate::numbers::is_digit_byte;

/// A function's name: its first `len` bytes. In a program the bytes past them are 0.
#[derive(Clone, Copy, Debug, PartialEq, Eq)]
pub struct Name {
    pub len: u8,
    pub bytes: [u8; MAX_NAME],
}

fn begins_name(b: u8) -> bool
    ensures { result ≡ begins_name b }
{
    (b'a' <= b && b <= b'z') || b == b'_'
}

fn continues_name(b: u8) -> bool
    ensures { result ≡ continues_name b }
{
    begins_name(b) || is_digit_byte(b)
}

fn all_continue_name(bytes: &[u8]) -> bool
    ensures { result ≡ list_all continues_name bytes.now }
{
    bytes.iter().all(|b| continues_name(*b))
}

fn is_name_text(word: &[u8]) -> bool
    ensures { result ≡ is_name_text word.now }
{
    match word {
        [first, rest @ ..] => begins_name(*first)
            && all_continue_name(rest)
            && rest.len() < MAX_NAME,
        [] => false,
    }
}

/// The bytes with zeros behind them.
#[tactic(auto, using(crate::proofs::NamingLemmas::zeros_behind))]
fn padded(word: &[u8]) -> [u8; MAX_NAME]
    requires { length word.now ≤ MAX_NAME }
    ensures { result ≡ word.now ++ replicate (MAX_NAME - length word.now) 0 }
{
    let mut bytes = [0; MAX_NAME];
    bytes[..word.len()].copy_from_slice(word);
    bytes
}

impl Name {
    /// The name of these bytes. None where they are none.
    #[tactic(auto, using(crate::proofs::SoundLines::short))]
    pub fn of(word: &[u8]) -> Option<Name>
        ensures { result ≡ (if is_name_text word.now then Some (name_of word.now) else None) }
    {
        if !is_name_text(word) {
            return None;
        }
        Some(Name {
            len: word.len() as u8,
            bytes: padded(word),
        })
    }

    /// The bytes of the name.
    pub fn text(&self) -> &[u8]
        ensures text { result.now ≡ text_of self.now }
        ensures width { length self.now.bytes ≡ MAX_NAME }
    {
        let len = usize::from(self.len);
        if len < MAX_NAME {
            &self.bytes[..len]
        } else {
            &self.bytes
        }
    }
}
