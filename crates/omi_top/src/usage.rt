//! What is wrong with the words behind the program's name.

ghost use Rattle.std.specs.Prelude.{◌≡◌, map, string_bytes};
ghost use Rattle.std.specs.Option.{is_none};
ghost use Rattle.omi_usage.specs.Form.{form_of, want_of};
ghost use Rattle.omi_usage.specs.Reading.{complaint_about, form_in};
ghost use Rattle.omi_top.specs.Command.{command_in};
ghost use Rattle.omi_top.specs.Forms.{audit_form, elf_form, follow_form, is_asked, make_form, recode_form, run_form, run_forms, show_form, stop_form, with_options};

use crate::limits::{MOST_COUNT, MOST_NODES, MOST_SEED, MOST_STEPS};
use omi_commands::{breakpoint_wanted, layout_wanted};
use omi_usage::{Complaint, Form, Wanted, complaint_of};

/// A command with these words and the options of a run.
fn with_options(words: &'static [Wanted]) -> Form
    ensures { form_of result ≡ with_options (map want_of words.now) }
{
    Form {
        words,
        seed: Some(Wanted::Number {
            name: "N",
            least: 0,
            most: MOST_SEED,
        }),
        on: Some(breakpoint_wanted()),
        count: Some(Wanted::Number {
            name: "K",
            least: 1,
            most: MOST_COUNT,
        }),
        layout: Some(layout_wanted()),
    }
}

/// `stop STEPS SCRIPT CORE`, with options.
fn stop_form() -> Form
    ensures { form_of result ≡ stop_form }
{
    with_options(&[
        Wanted::Verb("stop"),
        Wanted::Number {
            name: "STEPS",
            least: 0,
            most: MOST_STEPS,
        },
        Wanted::File("SCRIPT"),
        Wanted::File("CORE"),
    ])
}

/// `run STEPS SCRIPT CORE`, with options.
fn run_form() -> Form
    ensures { form_of result ≡ run_form }
{
    with_options(&[
        Wanted::Verb("run"),
        Wanted::Number {
            name: "STEPS",
            least: 0,
            most: MOST_STEPS,
        },
        Wanted::File("SCRIPT"),
        Wanted::File("CORE"),
    ])
}

/// `make N SCRIPT`.
fn make_form() -> Form
    ensures { form_of result ≡ make_form }
{
    Form::bare(&[
        Wanted::Verb("make"),
        Wanted::Number {
            name: "N",
            least: 1,
            most: MOST_NODES,
        },
        Wanted::File("SCRIPT"),
    ])
}

/// `show CORE`.
fn show_form() -> Form
    ensures { form_of result ≡ show_form }
{
    Form::bare(&[Wanted::Verb("show"), Wanted::File("CORE")])
}

/// `recode ORDER CORE CORE2`.
fn recode_form() -> Form
    ensures { form_of result ≡ recode_form }
{
    Form::bare(&[
        Wanted::Verb("recode"),
        Wanted::Number {
            name: "ORDER",
            least: 0,
            most: 1,
        },
        Wanted::File("CORE"),
        Wanted::File("CORE2"),
    ])
}

/// `elf CORE CORE2`.
fn elf_form() -> Form
    ensures { form_of result ≡ elf_form }
{
    Form::bare(&[
        Wanted::Verb("elf"),
        Wanted::File("CORE"),
        Wanted::File("CORE2"),
    ])
}

/// `audit CORE`.
fn audit_form() -> Form
    ensures { form_of result ≡ audit_form }
{
    Form::bare(&[Wanted::Verb("audit"), Wanted::File("CORE")])
}

/// `follow CORE CORE2`.
fn follow_form() -> Form
    ensures { form_of result ≡ follow_form }
{
    Form::bare(&[
        Wanted::Verb("follow"),
        Wanted::File("CORE"),
        Wanted::File("CORE2"),
    ])
}

/// The forms of the program's commands.
pub fn run_forms() -> [Form; 8]
    ensures { map form_of result ≡ run_forms }
{
    [
        stop_form(),
        make_form(),
        show_form(),
        run_form(),
        recode_form(),
        elf_form(),
        audit_form(),
        follow_form(),
    ]
}

/// Which of the words behind the program's name is refused first, and why. None exactly where they are a command.
pub fn run_complaint(words: &Vec<String>) -> Option<Complaint>
    ensures silent { is_none result ≡ is_asked (command_in words.now) }
    ensures first { result ≡ complaint_about
        (form_in run_forms (map string_bytes words.now.items)) (map string_bytes words.now.items) }
{
    complaint_of(&run_forms(), words.as_slice())
}
