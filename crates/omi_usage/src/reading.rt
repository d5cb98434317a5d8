//! The words of a command line, read one after the other until one is refused.

ghost use Rattle.std.specs.Prelude.{◌≡◌, ◌<◌, map, string_bytes, MatchResult};
ghost use Rattle.std.specs.Option.{is_none, option_map};
ghost use Rattle.omi_line.specs.Line.{split_of};
ghost use Rattle.omi_usage.specs.Form.{form_of, form_of_verb, is_command, is_command_of, value_wanted};
ghost use Rattle.omi_usage.specs.Reading.{alone, complain, complaint_about, end_of, first_from, form_in, mode_after, none_seen, option_fault, place_in, positional_step, settled, state_of, step_of, with_place, word_step};
ghost use Rattle.omi_line.specs.Word.{word_kind};

use crate::complaint::{Cause, Complaint, LineOption};
use crate::form::{Form, Wanted, no_form};
use crate::word::{WordKind, kind_of};

/// How the next word is read.
#[derive(Clone, Copy)]
pub(crate) enum Mode {
    /// By what it is.
    Word,
    /// As the value of an option.
    Value(LineOption),
    /// As a positional word: it stands behind `--`.
    Behind,
}

/// The places of the options that were there so far.
#[derive(Clone, Copy)]
pub(crate) struct Seen {
    seed: Option<usize>,
    on: Option<usize>,
    count: Option<usize>,
    layout: Option<usize>,
}

impl Seen {
    fn nothing() -> Seen
        ensures { result ≡ none_seen }
    {
        Seen {
            seed: None,
            on: None,
            count: None,
            layout: None,
        }
    }

    /// The place of an option.
    fn place(&self, option: LineOption) -> Option<usize>
        ensures { result ≡ place_in option self.now }
    {
        match option {
            LineOption::Seed => self.seed,
            LineOption::Break => self.on,
            LineOption::Count => self.count,
            LineOption::Layout => self.layout,
        }
    }

    /// With the place of one more option.
    fn with(self, option: LineOption, place: usize) -> Seen
        ensures { result ≡ with_place option place self }
    {
        let place = Some(place);
        match option {
            LineOption::Seed => Seen {
                seed: place,
                ..self
            },
            LineOption::Break => Seen { on: place, ..self },
            LineOption::Count => Seen {
                count: place,
                ..self
            },
            LineOption::Layout => Seen {
                layout: place,
                ..self
            },
        }
    }
}

/// How far the words were read.
#[derive(Clone, Copy)]
pub(crate) struct Reading {
    /// What is still wanted of positional words.
    left: &'static [Wanted],
    mode: Mode,
    seen: Seen,
}

/// A complaint about the word at a place.
fn complaint(place: usize, cause: Cause) -> Complaint
    ensures { result ≡ complain place cause }
{
    Complaint { place, cause }
}

/// Reads the next positional word.
fn positional(reading: Reading, mode: Mode, place: usize, word: &str) -> Result<Reading, Complaint>
    ensures { MatchResult result
        (λ next. positional_step (state_of reading).left mode reading.seen place word.now ≡ Ok (state_of next))
        (λ found. positional_step (state_of reading).left mode reading.seen place word.now ≡ Err found) }
{
    let [wanted, left @ ..] = reading.left else {
        return Err(complaint(place, Cause::TooMany));
    };
    if wanted.fits(word) {
        Ok(Reading {
            left,
            mode,
            seen: reading.seen,
        })
    } else {
        Err(complaint(place, wanted.cause()))
    }
}

/// Why an option may not be here, by its place so far and by what its value is to be.
fn option_fault(form: &Form, seen: Seen, option: LineOption) -> Option<Cause>
    ensures { result ≡ option_fault (form_of form.now) seen option }
{
    if seen.place(option).is_some() {
        Some(Cause::Twice(option))
    } else if form.value(option).is_none() {
        Some(Cause::Foreign(option))
    } else {
        None
    }
}

/// Reads the value of an option, which stands at the place `at`.
fn settled(
    form: &Form,
    option: LineOption,
    reading: Reading,
    at: usize,
    place: usize,
    value: &str,
) -> Result<Reading, Complaint>
    ensures { MatchResult result
        (λ next. settled (value_wanted (form_of form.now) option) option (state_of reading) at place value.now ≡ Ok (state_of next))
        (λ found. settled (value_wanted (form_of form.now) option) option (state_of reading) at place value.now ≡ Err found) }
{
    let Some(wanted) = form.value(option) else {
        return Err(complaint(at, Cause::Foreign(option)));
    };
    if wanted.fits(value) {
        Ok(Reading {
            left: reading.left,
            mode: Mode::Word,
            seen: reading.seen.with(option, at),
        })
    } else {
        Err(complaint(place, wanted.cause()))
    }
}

/// Reads a word that stands before the first `--`.
#[tactic(auto, using(crate::proofs::Options::named_again))]
fn word_step(form: &Form, reading: Reading, place: usize, word: &str) -> Result<Reading, Complaint>
    ensures { MatchResult result
        (λ next. word_step (word_kind word.now) (form_of form.now) (state_of reading) place word.now ≡ Ok (state_of next))
        (λ found. word_step (word_kind word.now) (form_of form.now) (state_of reading) place word.now ≡ Err found) }
{
    match kind_of(word) {
        WordKind::Positional => positional(reading, Mode::Word, place, word),
        WordKind::Rest => Ok(Reading {
            left: reading.left,
            mode: Mode::Behind,
            seen: reading.seen,
        }),
        WordKind::Given(option, value) => match option_fault(form, reading.seen, option) {
            Some(cause) => Err(complaint(place, cause)),
            None => settled(form, option, reading, place, place, value),
        },
        WordKind::Named(option) => match option_fault(form, reading.seen, option) {
            Some(cause) => Err(complaint(place, cause)),
            None => Ok(Reading {
                left: reading.left,
                mode: Mode::Value(option),
                seen: reading.seen,
            }),
        },
        WordKind::Refused => Err(complaint(place, Cause::UnknownOption)),
    }
}

/// Reads the word behind `place` others.
fn step(form: &Form, reading: Reading, place: usize, word: &str) -> Result<Reading, Complaint>
    requires { place < 9223372036854775808 }
    ensures { MatchResult result
        (λ next. step_of (form_of form.now) (state_of reading) place word.now ≡ Ok (state_of next))
        (λ found. step_of (form_of form.now) (state_of reading) place word.now ≡ Err found) }
{
    match reading.mode {
        Mode::Word => word_step(form, reading, place + 1, word),
        Mode::Behind => positional(reading, Mode::Behind, place + 1, word),
        Mode::Value(option) => {
            if word.starts_with('-') {
                Err(complaint(place, Cause::NoValue(option)))
            } else {
                settled(form, option, reading, place, place + 1, word)
            }
        }
    }
}

/// `--break` without `--count`, or the other way round, where a command has both.
fn alone(form: &Form, seen: Seen) -> Option<Complaint>
    ensures { result ≡ alone (form_of form.now).on (form_of form.now).count seen.on seen.count }
{
    match (form.on, form.count, seen.on, seen.count) {
        (Some(_), Some(_), Some(place), None) => Some(complaint(
            place,
            Cause::Alone(LineOption::Break),
        )),
        (Some(_), Some(_), None, Some(place)) => Some(complaint(
            place,
            Cause::Alone(LineOption::Count),
        )),
        _ => None,
    }
}

/// What is wrong behind the last of `place` words.
fn end(form: &Form, reading: Reading, place: usize) -> Option<Complaint>
    requires { place < 9223372036854775808 }
    ensures { result ≡ end_of (form_of form.now) (state_of reading) place }
{
    if let Mode::Value(option) = reading.mode {
        return Some(complaint(place, Cause::NoValue(option)));
    }
    if let Some(found) = alone(form, reading.seen) {
        return Some(found);
    }
    if reading.left.is_empty() {
        None
    } else {
        Some(complaint(place + 1, Cause::TooFew))
    }
}

/// The first complaint about words that are to have a form.
fn first_complaint(form: &Form, words: &[String]) -> Option<Complaint>
    ensures { result ≡ complaint_about (form_of form.now) (map string_bytes words.now) }
{
    let mut reading = Reading {
        left: form.words,
        mode: Mode::Word,
        seen: Seen::nothing(),
    };
    let mut place = 0;
    for word in words {
        match step(form, reading, place, word.as_str()) {
            Ok(next) => reading = next,
            Err(found) => return Some(found),
        }
        place += 1;
    }
    end(form, reading, place)
}

/// The first complaint about words that are to have a form. None exactly where they are a command of this form.
pub fn complaint_of_one(form: &Form, words: &[String]) -> Option<Complaint>
    ensures silent { is_none result
        ≡ is_command (form_of form.now) (split_of (map string_bytes words.now)) }
    ensures first { result ≡ complaint_about (form_of form.now) (map string_bytes words.now) }
{
    first_complaint(form, words)
}

/// How the word behind this one is read. None where this one is positional.
#[tactic(auto, using(crate::proofs::Options::named_again))]
fn mode_after(mode: Mode, word: &str) -> Option<Mode>
    ensures { result ≡ mode_after mode word.now }
{
    match mode {
        Mode::Behind => None,
        Mode::Value(_) => Some(Mode::Word),
        Mode::Word => match kind_of(word) {
            WordKind::Positional => None,
            WordKind::Rest => Some(Mode::Behind),
            WordKind::Named(option) => Some(Mode::Value(option)),
            WordKind::Given(_, _) | WordKind::Refused => Some(Mode::Word),
        },
    }
}

/// The first positional word.
fn first_of(words: &[String]) -> Option<&str>
    ensures { option_map (λ word. word.now) result
        ≡ first_from (map string_bytes words.now) Mode.Word }
{
    let mut mode = Mode::Word;
    for word in words {
        let word = word.as_str();
        match mode_after(mode, word) {
            Some(next) => mode = next,
            None => return Some(word),
        }
    }
    None
}

/// The first form with this verb, and the form that no words have where none has it.
fn form_of_verb(forms: &[Form], verb: &str) -> Form
    ensures { form_of result ≡ form_of_verb (map form_of forms.now) verb.now }
{
    match forms {
        [first, rest @ ..] => {
            if first.has_verb(verb) {
                *first
            } else {
                form_of_verb(rest, verb)
            }
        }
        [] => no_form(),
    }
}

/// The form by the verb that words have.
fn form_in(forms: &[Form], words: &[String]) -> Form
    ensures { form_of result ≡ form_in (map form_of forms.now) (map string_bytes words.now) }
{
    match first_of(words) {
        Some(verb) => form_of_verb(forms, verb),
        None => no_form(),
    }
}

/// The first complaint about words that are to be a command of one of these forms, each of which begins with its verb: the form is the one
/// with the verb that the words have. None exactly where they are a command.
pub fn complaint_of(forms: &[Form], words: &[String]) -> Option<Complaint>
    ensures silent { is_none result
        ≡ is_command_of (map form_of forms.now) (split_of (map string_bytes words.now)) }
    ensures first { result ≡ complaint_about
        (form_in (map form_of forms.now) (map string_bytes words.now))
        (map string_bytes words.now) }
{
    first_complaint(&form_in(forms, words), words)
}
