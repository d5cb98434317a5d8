//! What a word of a command line is, where it stands before the first `--`.

ghost use Rattle.std.specs.Prelude.{◌≡◌};
ghost use Rattle.std.specs.Option.{option_map};
ghost use Rattle.omi_line.specs.Word.{long_kind, option_named, word_kind};
ghost use Rattle.omi_usage.specs.Form.{name_of};
ghost use Rattle.omi_usage.specs.Reading.{kind_as};

use crate::complaint::LineOption;

/// What a word is.
#[derive(Clone, Copy)]
pub(crate) enum WordKind<'a> {
    Positional,
    /// `--`, behind which all words are positional.
    Rest,
    /// An option with its value, as `--seed=5`.
    Given(LineOption, &'a str),
    /// An option whose value is the next word, as `--seed`.
    Named(LineOption),
    /// It begins with `-`, and is no option.
    Refused,
}

/// The option of a name.
fn option_named(name: &str) -> Option<LineOption>
    ensures { option_map name_of result ≡ option_named name.now }
{
    match name {
        "seed" => Some(LineOption::Seed),
        "break" => Some(LineOption::Break),
        "count" => Some(LineOption::Count),
        "layout" => Some(LineOption::Layout),
        _ => None,
    }
}

/// What the word is that is `--` and then this text.
fn long_kind(text: &str) -> WordKind<'_>
    ensures { kind_as result ≡ long_kind text.now }
{
    if text.is_empty() {
        return WordKind::Rest;
    }
    match text.split_once('=') {
        Some((name, value)) => match option_named(name) {
            Some(option) => WordKind::Given(option, value),
            None => WordKind::Refused,
        },
        None => match option_named(text) {
            Some(option) => WordKind::Named(option),
            None => WordKind::Refused,
        },
    }
}

/// What a word is.
pub(crate) fn kind_of(word: &str) -> WordKind<'_>
    ensures { kind_as result ≡ word_kind word.now }
{
    let Some(text) = word.strip_prefix('-') else {
        return WordKind::Positional;
    };
    match text.strip_prefix('-') {
        Some(text) => long_kind(text),
        None if text.is_empty() => WordKind::Positional,
        None => WordKind::Refused,
    }
}
