//! What is wrong with the words behind the program's name.

ghost use Rattle.std.specs.Prelude.{◌≡◌, is_some, map, string_bytes};
ghost use Rattle.std.specs.Option.{is_none};
ghost use Rattle.omi_usage.specs.Form.{form_of};
ghost use Rattle.omi_usage.specs.Reading.{complaint_about};
ghost use Rattle.omi_park.specs.Command.{park_command_in};
ghost use Rattle.omi_park.specs.Forms.{park_form};

use crate::limits::MOST_STOPS;
use omi_seat::MOST_BUDGET;
use omi_usage::{Complaint, Form, Wanted, complaint_of_one};

/// The form of the program's command.
pub fn park_form() -> Form
    ensures { form_of result ≡ park_form }
{
    Form::bare(&[
        Wanted::Number {
            name: "BUDGET",
            least: 0,
            most: MOST_BUDGET,
        },
        Wanted::Number {
            name: "STOPS",
            least: 0,
            most: MOST_STOPS as u64,
        },
        Wanted::File("SCRIPT"),
    ])
}

/// Which of the words behind the program's name is refused first, and why. None exactly where they are a command.
pub fn park_complaint(words: &Vec<String>) -> Option<Complaint>
    ensures silent { is_none result ≡ is_some (park_command_in words.now) }
    ensures first { result ≡ complaint_about park_form (map string_bytes words.now.items) }
{
    complaint_of_one(&park_form(), words.as_slice())
}
