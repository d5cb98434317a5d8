//! What a command line asks for.

ghost use Rattle.std.specs.Prelude.{◌≡◌, option_and_then, IfSome};
ghost use Rattle.std.specs.Option.{option_map};
ghost use Rattle.omi_line.specs.Line.{IsText};
ghost use Rattle.omi_park.specs.Asked.{asked, IsPossible};
ghost use Rattle.omi_park.specs.Answer.{park_verb};
ghost use Rattle.omi_park.specs.Command.{park_command_by, park_plan_of};
ghost use Rattle.omi_frame.specs.Refusal.{named};

use crate::limits::MOST_STOPS;
use omi_commands::has_option;
use omi_frame::{Names, text_of};
use omi_line::{Line, Text, number};
use omi_seat::MOST_BUDGET;

/// What a run of threads with stops is to be.
#[derive(Clone, Copy)]
pub struct ParkPlan {
    /// The most steps of each thread.
    pub budget: u64,
    /// How often all threads are stopped.
    pub stops: u8,
}

/// What a command line asks for.
#[derive(Clone, Copy)]
pub struct Request<'a> {
    pub plan: ParkPlan,
    pub script: &'a str,
}

impl<'a> Request<'a> {
    /// The names of its files.
    pub fn names(&self) -> Names<'a>
        ensures { named result ≡ (park_verb (asked self.now)).names }
    {
        Names {
            script: self.script,
            core: "",
            later: "",
        }
    }
}

/// The run that two words ask for.
fn plan_of(budget: &Text, stops: &Text) -> Option<ParkPlan>
    ensures plan { result ≡ park_plan_of budget.now stops.now }
    ensures possible { IfSome result IsPossible }
{
    Some(ParkPlan {
        budget: number(budget, 0, MOST_BUDGET)?,
        stops: number(stops, 0, u64::from(MOST_STOPS))? as u8,
    })
}

/// The request that a line makes, if it makes one.
fn request_by(line: &Line) -> Option<Request<'_>>
    requires { IsText line.now }
    ensures asked { option_map asked result ≡ park_command_by line.entry.now }
    ensures possible { IfSome result (λ request. IsPossible request.plan) }
{
    let [budget, stops, script] = line.words.as_slice() else {
        return None;
    };
    if has_option(line) {
        return None;
    }
    Some(Request {
        plan: plan_of(budget, stops)?,
        script: text_of(script),
    })
}

/// The request that a line makes, where words make one.
pub fn request_of(line: &Option<Line>) -> Option<Request<'_>>
    requires { IfSome line.now IsText }
    ensures asked { option_map asked result ≡ option_and_then park_command_by line.entry.now }
    ensures possible { IfSome result (λ request. IsPossible request.plan) }
{
    match line {
        Some(line) => request_by(line),
        None => None,
    }
}
