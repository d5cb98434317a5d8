//! The form of a command: what each of its words is to be.

ghost use Rattle.std.specs.Prelude.{◌≡◌, map};
ghost use Rattle.std.specs.Option.{option_map};
ghost use Rattle.omi_usage.specs.Form.{Numbers, bare_form, fits, form_of, is_one_of, is_verb, no_form, value_wanted, want_of};
ghost use Rattle.omi_usage.specs.Reading.{cause_of};

use crate::complaint::{Cause, LineOption};
use omi_line::number_of;

/// What a word of a command is to be. The names stand for it in texts.
#[derive(Clone, Copy)]
pub enum Wanted {
    /// The verb.
    Verb(&'static str),
    /// A verb where none is known: no word is it.
    NoVerb,
    /// The name of a file.
    File(&'static str),
    /// A number.
    Number {
        name: &'static str,
        least: u64,
        most: u64,
    },
    /// One of these names.
    OneOf {
        name: &'static str,
        names: &'static [&'static str],
    },
    /// Numbers from 0 to `most`, one or more and up to `many`, with a comma between two.
    Numbers {
        name: &'static str,
        many: usize,
        most: u64,
    },
}

/// The form of a command.
#[derive(Clone, Copy)]
pub struct Form {
    /// Its words, in order.
    pub words: &'static [Wanted],
    /// The value of `--seed`, if it has this option.
    pub seed: Option<Wanted>,
    /// The value of `--break`, if it has this option.
    pub on: Option<Wanted>,
    /// The value of `--count`, if it has this option. With `--break`, both or neither stand in a line.
    pub count: Option<Wanted>,
    /// The value of `--layout`, if it has this option.
    pub layout: Option<Wanted>,
}

/// The form that no words have.
pub(crate) fn no_form() -> Form
    ensures { form_of result ≡ no_form }
{
    let any = Some(Wanted::File(""));
    Form {
        words: &[Wanted::NoVerb],
        seed: any,
        on: any,
        count: any,
        layout: any,
    }
}

/// Whether a word is one of these names.
fn is_one_of(word: &str, names: &[&str]) -> bool
    ensures { result ≡ is_one_of word.now (map (λ name. name.now) names.now) }
{
    match names {
        [first, rest @ ..] => word == *first || is_one_of(word, rest),
        [] => false,
    }
}

/// Whether a word is numbers from 0 to `most`, up to `many` of them, with a comma between two.
fn are_numbers(word: &str, many: usize, most: u64) -> bool
    ensures { result ≡ fits (Numbers many most) word.now }
{
    if many == 0 {
        return false;
    }
    match word.split_once(',') {
        Some((first, rest)) => {
            number_of(first.as_bytes(), 0, most).is_some() && are_numbers(rest, many - 1, most)
        }
        None => number_of(word.as_bytes(), 0, most).is_some(),
    }
}

impl Wanted {
    /// Whether a word is what it is to be.
    pub(crate) fn fits(&self, word: &str) -> bool
        ensures { result ≡ fits (want_of self.now) word.now }
    {
        match self {
            Wanted::Verb(name) => word == *name,
            Wanted::NoVerb => false,
            Wanted::File(_) => true,
            Wanted::Number {
                name: _,
                least,
                most,
            } => number_of(word.as_bytes(), *least, *most).is_some(),
            Wanted::OneOf { name: _, names } => is_one_of(word, names),
            Wanted::Numbers {
                name: _,
                many,
                most,
            } => are_numbers(word, *many, *most),
        }
    }

    /// Why a word isn't what it is to be.
    pub(crate) fn cause(&self) -> Cause
        ensures { result ≡ cause_of (want_of self.now) }
    {
        match self {
            Wanted::Verb(_) | Wanted::NoVerb => Cause::UnknownVerb,
            Wanted::File(_) | Wanted::OneOf { .. } => Cause::NoName,
            Wanted::Number {
                name: _,
                least,
                most,
            } => Cause::NoNumber {
                least: *least,
                most: *most,
            },
            Wanted::Numbers {
                name: _,
                many,
                most,
            } => Cause::NoNumbers {
                many: *many,
                most: *most,
            },
        }
    }
}

impl Form {
    /// The form of a command with these words, without options.
    pub fn bare(words: &'static [Wanted]) -> Form
        ensures { form_of result ≡ bare_form (map want_of words.now) }
    {
        Form {
            words,
            seed: None,
            on: None,
            count: None,
            layout: None,
        }
    }

    /// What the value of an option is to be, where the command has the option.
    pub(crate) fn value(&self, option: LineOption) -> Option<Wanted>
        ensures { option_map want_of result ≡ value_wanted (form_of self.now) option }
    {
        match option {
            LineOption::Seed => self.seed,
            LineOption::Break => self.on,
            LineOption::Count => self.count,
            LineOption::Layout => self.layout,
        }
    }

    /// Whether this is its verb.
    pub(crate) fn has_verb(&self, word: &str) -> bool
        ensures { result ≡ is_verb (form_of self.now).words word.now }
    {
        match self.words {
            [first, ..] => first.fits(word),
            [] => false,
        }
    }
}
