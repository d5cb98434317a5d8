//! What is wrong with the words behind the program's name.

ghost use Rattle.std.specs.Prelude.{◌≡◌, is_some, map, string_bytes};
ghost use Rattle.std.specs.Option.{is_none};
ghost use Rattle.omi_usage.specs.Form.{form_of};
ghost use Rattle.omi_usage.specs.Reading.{complaint_about};
ghost use Rattle.omi_live.specs.Command.{live_command_in};
ghost use Rattle.omi_live.specs.Forms.{live_form};

use omi_commands::{breakpoint_wanted, layout_wanted};
use omi_seat::MOST_BUDGET;
use omi_usage::{Complaint, Form, Wanted, complaint_of_one};

/// The form of the program's command.
pub fn live_form() -> Form
    ensures { form_of result ≡ live_form }
{
    Form {
        words: &[
            Wanted::Number {
                name: "BUDGET",
                least: 0,
                most: MOST_BUDGET,
            },
            Wanted::File("SCRIPT"),
            Wanted::File("CORE"),
        ],
        seed: None,
        on: Some(breakpoint_wanted()),
        count: None,
        layout: Some(layout_wanted()),
    }
}

/// Which of the words behind the program's name is refused first, and why. None exactly where they are a command.
pub fn live_complaint(words: &Vec<String>) -> Option<Complaint>
    ensures silent { is_none result ≡ is_some (live_command_in words.now) }
    ensures first { result ≡ complaint_about live_form (map string_bytes words.now.items) }
{
    complaint_of_one(&live_form(), words.as_slice())
}
