//! What is wrong with the words behind the program's name.

ghost use Rattle.std.specs.Prelude.{◌≡◌, ◌∷◌, [], is_some, map, string_bytes};
ghost use Rattle.std.specs.Option.{is_none};
ghost use Rattle.omi_usage.specs.Form.{form_of};
ghost use Rattle.omi_usage.specs.Reading.{complaint_about, form_in};
ghost use Rattle.omi_rewind_top.specs.Command.{rewind_command_in};
ghost use Rattle.omi_rewind_top.specs.Forms.{at_form, rewind_forms, when_form};

use crate::limits::{MOST_JUMPS, MOST_NUMBER};
use omi_rewind::LAST_STEP;
use omi_usage::{Complaint, Form, Wanted, complaint_of};

/// `at N,N,.. SCRIPT`
fn at_form() -> Form
    ensures { form_of result ≡ at_form }
{
    Form::bare(&[
        Wanted::Verb("at"),
        Wanted::Numbers {
            name: "N,N,..",
            many: MOST_JUMPS,
            most: LAST_STEP,
        },
        Wanted::File("SCRIPT"),
    ])
}

/// `when I STATE STEPS SCRIPT`
fn when_form() -> Form
    ensures { form_of result ≡ when_form }
{
    Form::bare(&[
        Wanted::Verb("when"),
        Wanted::Number {
            name: "I",
            least: 0,
            most: MOST_NUMBER,
        },
        Wanted::OneOf {
            name: "STATE",
            names: &[
                "work_serial",
                "work_parallel",
                "wait_barrier_implicit_parallel",
                "wait_barrier_explicit",
                "wait_taskwait",
                "wait_taskgroup",
                "wait_critical",
                "idle",
                "overhead",
            ],
        },
        Wanted::Number {
            name: "STEPS",
            least: 0,
            most: LAST_STEP,
        },
        Wanted::File("SCRIPT"),
    ])
}

/// The forms of the program's commands.
pub fn rewind_forms() -> [Form; 2]
    ensures { map form_of result ≡ rewind_forms }
{
    [at_form(), when_form()]
}

/// Which of the words behind the program's name is refused first, and why. None exactly where they are a command.
pub fn rewind_complaint(words: &Vec<String>) -> Option<Complaint>
    ensures silent { is_none result ≡ is_some (rewind_command_in words.now) }
    ensures first { result ≡ complaint_about
        (form_in rewind_forms (map string_bytes words.now.items)) (map string_bytes words.now.items) }
{
    complaint_of(&rewind_forms(), words.as_slice())
}
