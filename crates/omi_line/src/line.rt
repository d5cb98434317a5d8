//! Splitting the words of a command line.

ghost use Rattle.std.specs.Prelude.{◌≡◌, [], IfOk, IsErrOf, Some, None, codes, false, map};
ghost use Rattle.std.specs.Prelude.{option_map, string_bytes, unwrap_or};
ghost use Rattle.clap.specs.Words.{app_of, first_value, found_of, matched_of, raw_values, rule_of};
ghost use Rattle.clap.specs.Words.{kind_of as error_kind};
ghost use Rattle.omi_line.specs.declared.line.LineError.TheVariants.{OutOfMemory as NoMemory};
ghost use Rattle.omi_line.specs.Command.{bare_app, line_app, option_rule, words_rule};
ghost use Rattle.omi_line.specs.Hyphen.{gives_hyphen, is_named};
ghost use Rattle.omi_line.specs.Line.{IsText, split_of};
ghost use Rattle.omi_line.specs.LineError.{line_error_of};
ghost use Rattle.omi_line.specs.Word.{word_kind};

use crate::{OutOfMemory, Text, TextList};
use clap::error::ErrorKind;
use clap::{Arg, ArgAction, ArgMatches, Command};
use std::alloc::Global;
use thiserror::Error;

/// A command line that was split.
#[derive(Drop)]
pub struct Line {
    /// The positional words, in order.
    pub words: TextList,
    /// The value of `--seed`.
    pub seed: Option<Text>,
    /// The value of `--break`.
    pub on: Option<Text>,
    /// The value of `--count`.
    pub count: Option<Text>,
    /// The value of `--layout`.
    pub layout: Option<Text>,
}

/// Why a command line isn't split.
#[derive(Clone, Copy, Debug, PartialEq, Eq, Error)]
pub enum LineError {
    /// The rules of words and options refuse it.
    #[error("usage")]
    Usage,
    /// Memory ran out.
    #[error("out of memory")]
    OutOfMemory,
}

impl From<OutOfMemory> for LineError {
    ghost from_gives = { λ _ e. e ≡ NoMemory };

    fn from(_: OutOfMemory) -> LineError {
        LineError::OutOfMemory
    }
}

impl From<clap::Error> for LineError {
    ghost from_gives = { λ error e. e ≡ line_error_of (error_kind error) };

    fn from(error: clap::Error) -> LineError {
        match error.kind() {
            ErrorKind::OutOfMemory => LineError::OutOfMemory,
            _ => LineError::Usage,
        }
    }
}

/// A command without arguments, without help and version flags.
fn bare_command<'a>(alloc: Global) -> Command<'a>
    ensures { app_of result ≡ bare_app }
{
    Command::new(alloc, "line")
        .no_binary_name(true)
        .disable_help_flag(true)
        .disable_version_flag(true)
}

/// The option `--name`, which has one value.
fn option<'a>(alloc: Global, name: &'a str) -> Arg<'a>
    ensures rule { rule_of result ≡ option_rule name.entry.now }
    ensures local { result.global ≡ false }
{
    Arg::new(alloc, name).long(name)
}

/// Takes all positional words.
fn words_argument<'a>(alloc: Global) -> Arg<'a>
    ensures rule { rule_of result ≡ words_rule }
    ensures local { result.global ≡ false }
{
    Arg::new(alloc, "words").action(ArgAction::Append)
}

/// One simple command: the four options, and any number of positional words.
fn command<'a>(alloc: Global) -> Result<Command<'a>, OutOfMemory>
    ensures { IfOk result (λ command. app_of command ≡ line_app) }
{
    bare_command(alloc)
        .arg(option(alloc, "seed"))?
        .arg(option(alloc, "break"))?
        .arg(option(alloc, "count"))?
        .arg(option(alloc, "layout"))?
        .arg(words_argument(alloc))
}

/// Whether the word is an option whose value is to be the next word.
fn is_option(word: &str) -> bool
    ensures { result ≡ is_named (word_kind word.now) }
{
    matches!(word, "--seed" | "--break" | "--count" | "--layout")
}

/// Whether the word `-` stands for an option's value, before the first `--`. `clap` alone would
/// take it as the value.
fn has_hyphen_value(words: &[String]) -> bool
    ensures { result ≡ gives_hyphen (map string_bytes words.now) false }
{
    let mut is_waiting = false;
    for word in words {
        let word = word.as_str();
        if word == "--" {
            return false;
        }
        if is_waiting && word == "-" {
            return true;
        }
        is_waiting = is_option(word);
    }
    false
}

/// The text of an option's value, where it is there.
fn value_of(alloc: Global, matches: &ArgMatches<'_>, id: &str) -> Result<Option<Text>, OutOfMemory>
    ensures { IfOk result (λ value. value ≡ first_value (found_of matches.now) id.now) }
{
    match matches.get_str(id) {
        Some(value) => Ok(Some(Text::of(alloc, value)?)),
        None => Ok(None),
    }
}

/// The texts of words, in order.
fn texts_of(alloc: Global, words: &[&str]) -> Result<TextList, OutOfMemory>
    ensures { IfOk result (λ texts. texts ≡ map (λ word. word.now) words.now) }
{
    let mut texts = TextList::new(alloc);
    for word in words {
        texts.push(Text::of(alloc, word)?)?;
    }
    Ok(texts)
}

/// The positional words.
fn words_of(alloc: Global, matches: &ArgMatches<'_>) -> Result<TextList, OutOfMemory>
    ensures { IfOk result (λ words.
        words ≡ unwrap_or
        (option_map raw_values (matched_of (found_of matches.now) (codes "words"))) []) }
{
    match matches.get_strs("words") {
        Some(words) => texts_of(alloc, words),
        None => Ok(TextList::new(alloc)),
    }
}

/// Splits the words of a command line, which are those after the program's name: the positional
/// words in order, and `--seed`, `--break`, `--count` and `--layout`, each at most once, as
/// `--seed=5` or `--seed 5`. After the first `--` all words are positional.
pub fn split(alloc: Global, words: &Vec<String>) -> Result<Line, LineError>
    ensures line { IfOk result (λ line. split_of (map string_bytes words.now.items) ≡ Some line) }
    // Positional words and values are text, as the words are.
    ensures text { IfOk result (λ line. IsText line) }
    ensures usage { IsErrOf result LineError.Usage
        → split_of (map string_bytes words.now.items) ≡ None }
{
    if has_hyphen_value(words) {
        return Err(LineError::Usage);
    }
    let matches = command(alloc)?.try_get_matches_from(words.as_slice())?;
    Ok(Line {
        words: words_of(alloc, &matches)?,
        seed: value_of(alloc, &matches, "seed")?,
        on: value_of(alloc, &matches, "break")?,
        count: value_of(alloc, &matches, "count")?,
        layout: value_of(alloc, &matches, "layout")?,
    })
}
