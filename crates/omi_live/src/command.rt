//! What a command line asks for.

ghost use Rattle.std.specs.Prelude.{◌≡◌, option_and_then, IfSome};
ghost use Rattle.std.specs.Option.{option_map};
ghost use Rattle.omi_line.specs.Line.{IsText};
ghost use Rattle.omi_live.specs.Asked.{asked, IsPossible};
ghost use Rattle.omi_live.specs.Answer.{live_verb};
ghost use Rattle.omi_live.specs.Command.{live_break_of, live_command_by, live_plan_of};
ghost use Rattle.omi_frame.specs.Refusal.{named};

use omi_commands::{break_named, layout_of};
use omi_core::Break;
use omi_frame::{Names, text_of};
use omi_line::{Line, Text, number};
use omi_seat::MOST_BUDGET;

/// What a run of threads is to be.
#[derive(Clone, Copy)]
pub struct LivePlan {
    /// The family of its layout.
    pub layout: u8,
    /// The most steps of each thread.
    pub budget: u64,
    /// The kind of event at which all threads stop.
    pub on: Option<Break>,
}

/// What a command line asks for.
#[derive(Clone, Copy)]
pub struct Request<'a> {
    pub plan: LivePlan,
    pub script: &'a str,
    pub core: &'a str,
}

impl<'a> Request<'a> {
    /// The names of its files.
    pub fn names(&self) -> Names<'a>
        ensures { named result ≡ (live_verb (asked self.now)).names }
    {
        Names {
            script: self.script,
            core: self.core,
            later: "",
        }
    }
}

/// What `--break` says, if it is there. None where there is no such breakpoint.
fn break_of(line: &Line) -> Option<Option<Break>>
    requires { IsText line.now }
    ensures { result ≡ live_break_of line.now.on }
{
    match &line.on {
        Some(name) => Some(Some(break_named(text_of(name))?)),
        None => Some(None),
    }
}

/// The run that a line asks for, with this budget.
fn plan_of(budget: &Text, line: &Line) -> Option<LivePlan>
    requires { IsText line.now }
    ensures plan { result ≡ live_plan_of budget.now line.now }
    ensures possible { IfSome result IsPossible }
{
    Some(LivePlan {
        layout: layout_of(line)?,
        budget: number(budget, 0, MOST_BUDGET)?,
        on: break_of(line)?,
    })
}

/// The request that a line makes, if it makes one.
fn request_by(line: &Line) -> Option<Request<'_>>
    requires { IsText line.now }
    ensures asked { option_map asked result ≡ live_command_by line.entry.now }
    ensures possible { IfSome result (λ request. IsPossible request.plan) }
{
    let [budget, script, core] = line.words.as_slice() else {
        return None;
    };
    if line.seed.is_some() || line.count.is_some() {
        return None;
    }
    Some(Request {
        plan: plan_of(budget, line)?,
        script: text_of(script),
        core: text_of(core),
    })
}

/// The request that a line makes, where words make one.
pub fn request_of(line: &Option<Line>) -> Option<Request<'_>>
    requires { IfSome line.now IsText }
    ensures asked { option_map asked result ≡ option_and_then live_command_by line.entry.now }
    ensures possible { IfSome result (λ request. IsPossible request.plan) }
{
    match line {
        Some(line) => request_by(line),
        None => None,
    }
}
