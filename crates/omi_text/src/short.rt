//! A short text by value, which takes no memory.

ghost use Rattle.std.specs.Prelude.{◌≡◌, ◌+◌, ◌≤◌, ◌++◌, [], length};
ghost use Rattle.std.specs.Fmt.{decimal};

use arrayvec::ArrayString;
use itoa::Buffer;
use std::marker::Model;

/// How many bytes a short text has room for: four schedules, each of a kind, a comma and a chunk of at most 20 digits each, joined by
/// commas, have 167.
pub const SHORT_TEXT: usize = 168;

/// A text of at most `SHORT_TEXT` bytes, which contracts see as the list of its bytes.
#[derive(Drop)]
pub struct ShortText {
    text: ArrayString<SHORT_TEXT>,
}

impl Model for ShortText {
    ghost use Rattle.std.specs.Prelude.{List, ℕ};

    ghost Value = { List ℕ };

    ghost view = { λ a. a.text.bytes };
}

impl ShortText {
    /// No text.
    pub fn new() -> ShortText
        ensures { result ≡ [] }
    {
        ShortText {
            text: ArrayString::new(),
        }
    }

    /// Adds a text at the end.
    pub fn push_str(&mut self, text: &str)
        requires { length self.old + length text.now ≤ SHORT_TEXT }
        ensures { self.new ≡ self.old ++ text.now }
    {
        self.text.push_str(text);
    }

    /// Adds a number in decimal.
    pub fn push_decimal(&mut self, number: u64)
        requires { length self.old + 20 ≤ SHORT_TEXT }
        ensures text { self.new ≡ self.old ++ decimal number }
        ensures short { length self.new ≤ length self.old + 20 }
    {
        let mut buffer = Buffer::new();
        self.push_str(buffer.format(number));
    }

    /// The text.
    pub fn as_str(&self) -> &str
        ensures text { result.now ≡ self.now }
        ensures fits { length result.now ≤ SHORT_TEXT }
    {
        self.text.as_str()
    }
}
