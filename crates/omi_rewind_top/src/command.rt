//! What a command line asks for.

ghost use Rattle.std.specs.Prelude.{◌≡◌, map, option_and_then, IfOk, IfSome};
ghost use Rattle.std.specs.List.{All};
ghost use Rattle.std.specs.Option.{option_map};
ghost use Rattle.std.specs.Str.{IsUtf8};
ghost use Rattle.omi_line.specs.Line.{IsText};
ghost use Rattle.omi_numbers.specs.Names.{number_in};
ghost use Rattle.omi_numbers.specs.States.{states};
ghost use Rattle.omi_rewind_top.specs.Asked.{asked, IsPossible};
ghost use Rattle.omi_rewind_top.specs.Answer.{rewind_verb};
ghost use Rattle.omi_rewind_top.specs.Command.{at_of, command_by, script_of, verb_of, when_of};
ghost use Rattle.omi_frame.specs.Refusal.{named};

use crate::limits::MOST_NUMBER;
use crate::steps_word::steps_of;
use omi_commands::has_option;
use omi_frame::{Names, text_of};
use omi_line::{Line, Text, number};
use omi_numbers::{
    IDLE, OVERHEAD, WAIT_BARRIER_EXPLICIT, WAIT_BARRIER_IMPLICIT_PARALLEL, WAIT_CRITICAL,
    WAIT_TASKGROUP, WAIT_TASKWAIT, WORK_PARALLEL, WORK_SERIAL,
};
use omi_rewind::LAST_STEP;
use omi_word::OutOfMemory;
use std::alloc::Global;

/// What a command line asks for.
#[derive(Drop)]
pub enum Request<'a> {
    /// To go to these steps, one after the other.
    GoTo {
        steps: Vec<u64>,
        script: &'a str,
    },
    /// To find the first step, up to a last one, at which a thread is in a state.
    FindState {
        thread: u64,
        state: u32,
        last: u64,
        script: &'a str,
    },
}

impl<'a> Request<'a> {
    /// The name of its script.
    pub fn script(&self) -> &'a str
        ensures { result.now ≡ script_of (asked self.now) }
    {
        match self {
            Request::GoTo { steps: _, script } => script,
            Request::FindState {
                thread: _,
                state: _,
                last: _,
                script,
            } => script,
        }
    }

    /// The names of its files.
    pub fn names(&self) -> Names<'a>
        ensures { named result ≡ (rewind_verb (asked self.now)).names }
    {
        Names {
            script: self.script(),
            core: "",
            later: "",
        }
    }
}

/// The state of a name. None where no state has this name.
fn state_named(name: &str) -> Option<u32>
    ensures { result ≡ number_in states name.now }
{
    match name {
        "work_serial" => Some(WORK_SERIAL),
        "work_parallel" => Some(WORK_PARALLEL),
        "wait_barrier_implicit_parallel" => Some(WAIT_BARRIER_IMPLICIT_PARALLEL),
        "wait_barrier_explicit" => Some(WAIT_BARRIER_EXPLICIT),
        "wait_taskwait" => Some(WAIT_TASKWAIT),
        "wait_taskgroup" => Some(WAIT_TASKGROUP),
        "wait_critical" => Some(WAIT_CRITICAL),
        "idle" => Some(IDLE),
        "overhead" => Some(OVERHEAD),
        _ => None,
    }
}

/// What `at` with these names asks for.
fn at_of<'a>(alloc: Global, names: &'a [Text]) -> Result<Option<Request<'a>>, OutOfMemory>
    requires { All IsUtf8 names.now }
    ensures asked { IfOk result (λ request. option_map asked request ≡ at_of names.entry.now) }
    ensures possible { IfOk result (λ request. IfSome request IsPossible) }
{
    let [steps, script] = names else {
        return Ok(None);
    };
    let Some(steps) = steps_of(alloc, text_of(steps))? else {
        return Ok(None);
    };
    let script = text_of(script);
    Ok(Some(Request::GoTo { steps, script }))
}

/// What `when` with these names asks for.
fn when_of<'a>(names: &'a [Text]) -> Option<Request<'a>>
    requires { All IsUtf8 names.now }
    ensures asked { option_map asked result ≡ when_of names.entry.now }
    ensures possible { IfSome result IsPossible }
{
    let [thread, state, last, script] = names else {
        return None;
    };
    Some(Request::FindState {
        thread: number(thread, 0, MOST_NUMBER)?,
        state: state_named(text_of(state))?,
        last: number(last, 0, LAST_STEP)?,
        script: text_of(script),
    })
}

/// What a verb with the names behind it asks for.
fn verb_of<'a>(alloc: Global, words: &'a [Text]) -> Result<Option<Request<'a>>, OutOfMemory>
    requires { All IsUtf8 words.now }
    ensures asked { IfOk result (λ request. option_map asked request ≡ verb_of words.entry.now) }
    ensures possible { IfOk result (λ request. IfSome request IsPossible) }
{
    let [verb, names @ ..] = words else {
        return Ok(None);
    };
    match text_of(verb) {
        "at" => at_of(alloc, names),
        "when" => Ok(when_of(names)),
        _ => Ok(None),
    }
}

/// The request that a line makes, if it makes one.
fn request_by<'a>(alloc: Global, line: &'a Line) -> Result<Option<Request<'a>>, OutOfMemory>
    requires { IsText line.now }
    ensures asked { IfOk result (λ request. option_map asked request ≡ command_by line.entry.now) }
    ensures possible { IfOk result (λ request. IfSome request IsPossible) }
{
    if has_option(line) {
        return Ok(None);
    }
    verb_of(alloc, line.words.as_slice())
}

/// The request that a line makes, where words make one.
pub fn request_of<'a>(
    alloc: Global,
    line: &'a Option<Line>,
) -> Result<Option<Request<'a>>, OutOfMemory>
    requires { IfSome line.now IsText }
    ensures asked { IfOk result
        (λ request. option_map asked request ≡ option_and_then command_by line.entry.now) }
    ensures possible { IfOk result (λ request. IfSome request IsPossible) }
{
    match line {
        Some(line) => request_by(alloc, line),
        None => Ok(None),
    }
}
