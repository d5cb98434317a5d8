//! What a run of `stop` is to be, by the words and options of its line.

ghost use Rattle.std.specs.Prelude.{◌≡◌, ◌≤◌, IfSome};
ghost use Rattle.omi_top.specs.Plan.{break_of, plan_of, seed_of};
ghost use Rattle.omi_top.specs.Asked.{IsPossible};
ghost use Rattle.omi_top.specs.Run.{thread_schedule};
ghost use Rattle.omi_line.specs.Line.{IsText};

use crate::limits::{MOST_COUNT, MOST_SEED, MOST_STEPS};
use omi_commands::{break_named, layout_of};
use omi_core::{Break, Schedule, Stop};
use omi_frame::text_of;
use omi_line::{Line, Text, number};

/// What a run is to be.
#[derive(Clone, Copy)]
pub struct Plan {
    /// The family of its layout.
    pub layout: u8,
    /// The seed of the numbers by which threads make its steps. Without one they make them in turn.
    pub seed: Option<u64>,
    /// Where it stops.
    pub stop: Stop,
}

impl Plan {
    /// Which thread makes each step.
    pub fn schedule(&self) -> Schedule
        ensures { result ≡ thread_schedule self.now.seed }
    {
        match self.seed {
            Some(seed) => Schedule::Seed(seed),
            None => Schedule::RoundRobin,
        }
    }
}

/// What `--seed` says, if it is there. None where it is no number in its range.
fn seed_of(line: &Line) -> Option<Option<u64>>
    ensures { result ≡ seed_of line.now.seed }
{
    match &line.seed {
        Some(text) => Some(Some(number(text, 0, MOST_SEED)?)),
        None => Some(None),
    }
}

/// What `--break` and `--count` say, if they are there. None where one of them is missing, there is no such breakpoint, or the
/// count is no number in its range.
fn break_of(line: &Line) -> Option<Option<(Break, u32)>>
    requires { IsText line.now }
    ensures said { result ≡ break_of line.now.on line.now.count }
    ensures some { IfSome result (λ on. IfSome on (λ k. 1 ≤ k.1)) }
{
    match (&line.on, &line.count) {
        (Some(name), Some(count)) => {
            let kind = break_named(text_of(name))?;
            let count = number(count, 1, MOST_COUNT)?;
            Some(Some((kind, count as u32)))
        }
        (None, None) => Some(None),
        _ => None,
    }
}

/// The run that a line asks for, with this number of steps.
pub fn plan_of(steps: &Text, line: &Line) -> Option<Plan>
    requires { IsText line.now }
    ensures plan { result ≡ plan_of steps.now line.now }
    ensures possible { IfSome result IsPossible }
{
    Some(Plan {
        layout: layout_of(line)?,
        seed: seed_of(line)?,
        stop: Stop {
            steps: number(steps, 0, MOST_STEPS)?,
            on: break_of(line)?,
        },
    })
}
