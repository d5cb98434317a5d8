//! The text that a program writes about refused words: the complaint, and the forms of its commands.

use crate::complaint::{Cause, Complaint, LineOption};
use crate::form::{Form, Wanted};
use std::alloc::{AllocError, Global};
use std::fmt::Write;

/// The version of the programs.
const VERSION: &str = "1.0";

/// A program: its name, and the forms of its commands.
#[derive(Clone, Copy)]
pub struct Program<'a> {
    pub name: &'a str,
    pub forms: &'a [Form],
}

/// The word of an option.
fn word_of(option: LineOption) -> &'static str {
    match option {
        LineOption::Seed => "--seed",
        LineOption::Break => "--break",
        LineOption::Count => "--count",
        LineOption::Layout => "--layout",
    }
}

/// Adds a word. A byte that is no visible character of ASCII and no space is `\x` and two digits, so that a terminal does nothing but show it.
fn push_word(text: &mut String, word: &str) -> Result<(), AllocError> {
    for byte in word.as_bytes() {
        match byte {
            0x20..=0x7e => text.push(char::from(*byte))?,
            _ => write!(text, "\\x{byte:02x}")?,
        }
    }
    Ok(())
}

/// Adds why a word is refused.
fn push_cause(text: &mut String, cause: Cause) -> Result<(), AllocError> {
    match cause {
        Cause::UnknownVerb => text.push_str("no such verb"),
        Cause::UnknownOption => {
            text.push_str("no such option (a name that begins with - stands behind --)")
        }
        Cause::Foreign(option) => write!(text, "the command has no {}", word_of(option)),
        Cause::Twice(option) => write!(text, "{} a second time", word_of(option)),
        Cause::NoValue(option) => write!(text, "{} without its value", word_of(option)),
        Cause::Alone(LineOption::Break) => text.push_str("--break without --count"),
        Cause::Alone(option) => write!(text, "{} without --break", word_of(option)),
        Cause::TooFew => text.push_str("missing"),
        Cause::TooMany => text.push_str("one word too many"),
        Cause::NoNumber { least, most } => write!(text, "not a number from {least} to {most}"),
        Cause::NoNumbers { many, most } => write!(
            text,
            "not 1 to {many} numbers from 0 to {most} with commas between them"
        ),
        Cause::NoName => text.push_str("none of the names that may stand here"),
    }
}

/// Adds the line of a complaint about these words.
fn push_complaint(
    text: &mut String,
    words: &[String],
    complaint: Complaint,
) -> Result<(), AllocError> {
    let Complaint { place, cause } = complaint;
    if words.is_empty() {
        return text.push_str("no words, or one that is no text in UTF-8\n");
    }
    write!(text, "word {place}")?;
    if let Some(before) = place.checked_sub(1)
        && let Some(word) = words.get(before)
    {
        text.push_str(" `")?;
        push_word(text, word.as_str())?;
        text.push_str("`")?;
    }
    text.push_str(": ")?;
    push_cause(text, cause)?;
    text.push_str("\n")
}

/// The name that stands for a word.
fn name_of(wanted: &Wanted) -> &'static str {
    match wanted {
        Wanted::Verb(name) | Wanted::File(name) => name,
        Wanted::NoVerb => "",
        Wanted::Number { name, .. } | Wanted::OneOf { name, .. } | Wanted::Numbers { name, .. } => {
            name
        }
    }
}

/// Adds a line of what may stand for a word, where not every word may. `front` is the option whose value it is, with a space, or nothing.
fn push_range(text: &mut String, front: &str, wanted: &Wanted) -> Result<(), AllocError> {
    match wanted {
        Wanted::Verb(_) | Wanted::NoVerb | Wanted::File(_) => Ok(()),
        Wanted::Number { name, least, most } => write!(
            text,
            "      {front}{name}: a number from {least} to {most}\n"
        ),
        Wanted::Numbers { name, many, most } => write!(
            text,
            "      {front}{name}: 1 to {many} numbers from 0 to {most}\n"
        ),
        Wanted::OneOf { name, names } => {
            write!(text, "      {front}{name}:")?;
            for one in *names {
                write!(text, " {one}")?;
            }
            text.push_str("\n")
        }
    }
}

/// Adds an option with the name of its value, where a command has it.
fn push_option(
    text: &mut String,
    front: &str,
    option: LineOption,
    value: &Option<Wanted>,
    back: &str,
) -> Result<(), AllocError> {
    match value {
        Some(wanted) => write!(text, "{front}{} {}{back}", word_of(option), name_of(wanted)),
        None => Ok(()),
    }
}

/// Adds the options of a form. `--break` and `--count` stand together where it has both.
fn push_options(text: &mut String, form: &Form) -> Result<(), AllocError> {
    push_option(text, " [", LineOption::Seed, &form.seed, "]")?;
    if form.on.is_some() && form.count.is_some() {
        push_option(text, " [", LineOption::Break, &form.on, "")?;
        push_option(text, " ", LineOption::Count, &form.count, "]")?;
    } else {
        push_option(text, " [", LineOption::Break, &form.on, "]")?;
        push_option(text, " [", LineOption::Count, &form.count, "]")?;
    }
    push_option(text, " [", LineOption::Layout, &form.layout, "]")
}

/// Adds the lines of a form.
fn push_form(text: &mut String, program: &str, form: &Form) -> Result<(), AllocError> {
    write!(text, "  {program}")?;
    for wanted in form.words {
        write!(text, " {}", name_of(wanted))?;
    }
    push_options(text, form)?;
    text.push_str("\n")?;
    for wanted in form.words {
        push_range(text, "", wanted)?;
    }
    for (front, value) in [
        ("--seed ", form.seed),
        ("--break ", form.on),
        ("--count ", form.count),
        ("--layout ", form.layout),
    ] {
        if let Some(wanted) = value {
            push_range(text, front, &wanted)?;
        }
    }
    Ok(())
}

/// What a program writes about refused words: the complaint, where there is one, the forms of its commands, and its version. Without a
/// complaint the words are a command, which asks for a thread that the workload's program does not have.
pub fn help(
    alloc: Global,
    program: Program<'_>,
    words: &[String],
    complaint: Option<Complaint>,
) -> Result<String, AllocError> {
    let mut text = String::new(alloc);
    write!(&mut text, "{}: ", program.name)?;
    match complaint {
        Some(complaint) => push_complaint(&mut text, words, complaint)?,
        None => text.push_str("the program has no such thread\n")?,
    }
    text.push_str("commands:\n")?;
    for form in program.forms {
        push_form(&mut text, program.name, form)?;
    }
    write!(&mut text, "{}, version {VERSION}\n", program.name)?;
    Ok(text)
}

/// Writes this to standard error. What can't be written, or has no room, is left out.
pub fn explain<R: Eprint + AllocGlobal>(
    rt: &R,
    program: Program<'_>,
    words: &[String],
    complaint: Option<Complaint>,
) {
    if let Ok(text) = help(rt.alloc(), program, words, complaint) {
        let _ = rt.eprint(text);
    }
}
