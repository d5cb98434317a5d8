//! What is asked of a task itself: its function and its frames.

ghost use Rattle.std.specs.Prelude.{◌≡◌};
ghost use Rattle.omi_calls.specs.Kept.{TakesAll, GivesNumbers};
ghost use Rattle.omi_asktask.specs.TaskWords as words;
ghost use Rattle.omi_handle.specs.declared.handle.Kind.TheVariants as object;
ghost use Rattle.omi_c.specs.Answers.{frames_of as frames_answered, number_of};
ghost use Rattle.omi_c.specs.Objects as objects;
ghost use Rattle.omi_c.specs.Replies.{asked_in};

use crate::answers::{Number, Object, TaskFrames};
use crate::causes::{Cause, replied};
use crate::judged::Judged;
use crate::known::Known;
use crate::opening::{held_in, lowest_first, open};
use omi_asktask::{Frames, frames_of, function_of};
use omi_calls::ToHost;
use omi_handle::Kind;

/// The entry address of a task's function. By a conversion of a word's bytes.
fn task_function<H: ToHost>(
    table: &Judged,
    known: &[Known],
    task: Object,
    to_host: H,
) -> Result<u64, Cause>
    requires takes { TakesAll (H.takes to_host) }
    requires gives { GivesNumbers (H.gives to_host) 0 }
    ensures { result ≡ asked_in table.now known.now
        (λ w. words.function w (objects.held_in w object.Task task)) }
{
    let mut s = open(table, known, to_host)?;
    let task = held_in(&s, Kind::Task, task);
    let function = function_of(&mut s, task);
    replied(s, function)
}

/// The entry address of a task's function.
#[unsafe(no_mangle)]
pub extern "C" fn omi_task_function(table: &Judged, known: &[Known], task: Object) -> Number
    ensures { result ≡ number_of (asked_in table.now known.now
        (λ w. words.function w (objects.held_in w object.Task task))) }
{
    Number::of(task_function(table, known, task, lowest_first))
}

/// The frames of a task. By a conversion of a word's bytes.
fn task_frame<H: ToHost>(
    table: &Judged,
    known: &[Known],
    task: Object,
    to_host: H,
) -> Result<Frames, Cause>
    requires takes { TakesAll (H.takes to_host) }
    requires gives { GivesNumbers (H.gives to_host) 0 }
    ensures { result ≡ asked_in table.now known.now
        (λ w. words.frames w (objects.held_in w object.Task task)) }
{
    let mut s = open(table, known, to_host)?;
    let task = held_in(&s, Kind::Task, task);
    let frames = frames_of(&mut s, task);
    replied(s, frames)
}

/// The frames of a task.
#[unsafe(no_mangle)]
pub extern "C" fn omi_task_frame(table: &Judged, known: &[Known], task: Object) -> TaskFrames
    ensures { result ≡ frames_answered (asked_in table.now known.now
        (λ w. words.frames w (objects.held_in w object.Task task))) }
{
    TaskFrames::of(task_frame(table, known, task, lowest_first))
}
