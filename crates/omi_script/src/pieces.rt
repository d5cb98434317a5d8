//! Texts cut into lines, lines into words, and lists into their elements.
ghost use Rattle.std.specs.Prelude.{◌≡◌, ◌+◌, ◌<◌, ◌≤◌, [], ◌∷◌, length, take, drop, IfSome, IfNone, option_copied};
ghost use Rattle.std.specs.List.{before_first, after_first, list_all, position, position_or_len, slice_split};
ghost use Rattle.omi_script.specs.Lines.{is_blank, is_text, words};
ghost use Rattle.omi_script.specs.Numbers.{is_comma, items_left};
ghost use Rattle.omi_script.specs.Separators.{separates};

use std::marker::Model;

/// What stands between the pieces of a text.
#[derive(Clone, Copy, Debug)]
pub enum Separator {
    /// A line feed stands between lines.
    LineFeed,
    /// A space, a tab or a carriage return stands between words.
    Blank,
    /// A comma stands between the numbers of a list.
    Comma,
}

impl Separator {
    fn is(self, b: u8) -> bool
        ensures { result ≡ separates self b }
    {
        match self {
            Separator::LineFeed => b == b'\n',
            Separator::Blank => b == b' ' || b == b'\t' || b == b'\r',
            Separator::Comma => b == b',',
        }
    }
}

fn is_text_byte(b: u8) -> bool
    ensures { result ≡ is_text b }
{
    Separator::LineFeed.is(b) || Separator::Blank.is(b) || (b'!' <= b && b <= b'~')
}

/// Whether a script may have these bytes.
pub fn are_text(bytes: &[u8]) -> bool
    ensures { result ≡ list_all is_text bytes.now }
{
    bytes.iter().all(|b| is_text_byte(*b))
}

/// The place of the first separator.
fn first(separator: Separator, bytes: &[u8]) -> Option<usize>
    ensures { result ≡ position (separates separator) bytes.now }
{
    bytes.iter().position(|b| separator.is(*b))
}

/// The place of the first separator, or the length.
#[tactic(auto, using(crate::proofs::PieceLemmas::first_place))]
fn end(separator: Separator, bytes: &[u8]) -> usize
    ensures place { result ≡ position_or_len (separates separator) bytes.now }
    ensures within { result ≤ length bytes.now }
{
    first(separator, bytes).unwrap_or(bytes.len())
}

/// What stands before a place, and what after it.
fn cut_at(bytes: &[u8], at: usize) -> (&[u8], &[u8])
    requires { at ≤ length bytes.now }
    ensures first { result.0.now ≡ take at bytes.now }
    ensures rest { result.1.now ≡ drop (at + 1) bytes.now }
{
    let after = if at < bytes.len() { at + 1 } else { at };
    (&bytes[..at], &bytes[after..])
}

/// What stands before the first separator, and what after it.
pub fn cut(separator: Separator, bytes: &[u8]) -> (&[u8], &[u8])
    ensures first { result.0.now ≡ before_first (separates separator) bytes.now }
    ensures rest { result.1.now ≡ after_first (separates separator) bytes.now }
{
    cut_at(bytes, end(separator, bytes))
}

/// What stands before the first comma, and, if there is one, what after it.
#[tactic(auto, using(crate::proofs::PieceLemmas::items_step))]
pub fn cut_item(bytes: &[u8]) -> (&[u8], Option<&[u8]>)
    ensures { slice_split is_comma bytes.now ≡ result.0.now ∷ items_left (option_copied result.1) }
{
    let at = end(Separator::Comma, bytes);
    let (item, rest) = cut_at(bytes, at);
    (item, if at < bytes.len() { Some(rest) } else { None })
}

/// The first word of a line, and what stands after it.
#[tactic(auto, using(crate::proofs::PieceLemmas::words_step))]
fn next_word(line: &[u8]) -> Option<(&[u8], &[u8])>
    ensures some { IfSome result (λ found. words line.now ≡ found.0.now ∷ words found.1.now) }
    ensures none { IfNone result (words line.now ≡ []) }
    ensures whole { IfSome result (λ found. 0 < length found.0.now) }
{
    let mut rest = line;
    while !rest.is_empty() {
        let (word, after) = cut(Separator::Blank, rest);
        if !word.is_empty() {
            return Some((word, after));
        }
        rest = after;
    }
    None
}

/// A word of a line.
#[derive(Drop)]
pub struct Word<'a> {
    bytes: &'a [u8],
}

impl<'a> Model for Word<'a> {
    ghost use Rattle.std.specs.Prelude.{List, ℕ};

    ghost Value = { List ℕ };

    ghost view = { λ a. a.bytes.now };
}

impl<'a> Word<'a> {
    pub fn new(bytes: &'a [u8]) -> Word<'a>
        ensures { result ≡ bytes.now }
    {
        Word { bytes }
    }

    /// The bytes of the word.
    pub fn bytes(&self) -> &'a [u8]
        ensures { result.now ≡ self.now }
    {
        self.bytes
    }
}

/// The words of a line that are not read yet.
#[derive(Drop)]
pub struct Words<'a> {
    rest: &'a [u8],
}

impl<'a> Model for Words<'a> {
    ghost use Rattle.std.specs.Prelude.{List, ℕ};
    ghost use Rattle.omi_script.specs.Lines.{words};

    ghost Value = { List (List ℕ) };

    ghost view = { λ a. words a.rest.now };
}

impl<'a> Words<'a> {
    pub fn new(line: &'a [u8]) -> Words<'a>
        ensures { result ≡ words line.now }
    {
        Words { rest: line }
    }

    /// The next word.
    pub fn next(&mut self) -> Option<&'a [u8]>
        ensures some { IfSome result (λ word. self.old ≡ word.now ∷ self.new) }
        ensures none { IfNone result (self.old ≡ []) }
        ensures ended { IfNone result (self.new ≡ []) }
        ensures whole { IfSome result (λ word. 0 < length word.now) }
    {
        let (word, rest) = next_word(self.rest)?;
        self.rest = rest;
        Some(word)
    }
}
