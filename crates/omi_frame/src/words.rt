//! The words of a command line: the line that they make, and a word as text.

ghost use Rattle.std.specs.Prelude.{◌≡◌, map, string_bytes, IfOk, IfSome};
ghost use Rattle.std.specs.Str.{IsUtf8};
ghost use Rattle.omi_line.specs.Line.{IsText, split_of};

use omi_line::{Line, LineError, OutOfMemory, Text, split};
use std::alloc::{AllocError, Global};
use std::str;

/// The line that words make. None where the rules of words and options refuse them.
pub fn line_in(alloc: Global, words: &Vec<String>) -> Result<Option<Line>, OutOfMemory>
    ensures line { IfOk result (λ line. line ≡ split_of (map string_bytes words.now.items)) }
    ensures text { IfOk result (λ line. IfSome line IsText) }
{
    match split(alloc, words) {
        Ok(line) => Ok(Some(line)),
        Err(LineError::Usage) => Ok(None),
        Err(LineError::OutOfMemory) => Err(AllocError),
    }
}

/// The text of a word.
pub fn text_of(word: &Text) -> &str
    requires { IsUtf8 word.now }
    ensures { result.now ≡ word.now }
{
    match str::from_utf8(word.bytes()) {
        Ok(text) => text,
        Err(_) => unreachable!(),
    }
}
