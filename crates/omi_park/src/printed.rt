//! What is printed of the stops of a run.

ghost use Rattle.std.specs.Prelude.{◌≡◌, ◌≤◌, ℕ, [], List, IfOk, IsTrue, length, Ok, string_bytes};
ghost use Rattle.omi_corefile.specs.Limits.{rises_from};
ghost use Rattle.omi_model.specs.declared.id.Tid.{Tid};
ghost use Rattle.omi_commands.specs.Cores.{thread_ids};
ghost use Rattle.omi_commands.specs.Fates.{look_fates};
ghost use Rattle.omi_word.specs.Words.{words_of};
ghost use Rattle.omi_park.specs.Kept.{AreCopies, AreStopsLooked, HoldsBefore, IsCopy, IsStopPushed};

use crate::copies::{fates_of, tasks_of};
use crate::lines::head_of;
use crate::stopped::{StopList, Stopped};
use omi_commands::{KeptTasks, contexts_of, view_of};
use omi_text::report_text;
use omi_word::{Image, Natives, OutOfMemory};
use std::alloc::Global;

/// The lines on the tasks that were kept at the stop before, if there was one.
fn fates_behind(
    alloc: Global,
    before: Option<KeptTasks>,
    image: &Image,
    contexts: &Natives,
) -> Result<String, OutOfMemory>
    requires few { length contexts.now ≤ 64 }
    requires rising { IsTrue (rises_from 0 contexts.now) }
    requires copy { (w : List ℕ) × (names : List Tid) × IsCopy w image.now
        × HoldsBefore w names before }
    ensures { (w : List ℕ) (names : List Tid) → IsCopy w image.now → HoldsBefore w names before
        → IfOk result (λ text. look_fates w (words_of image.now) names ≡ Ok (string_bytes text)) }
{
    match before {
        Some(before) => fates_of(alloc, before, image, contexts),
        None => Ok(String::new(alloc)),
    }
}

/// Adds what is printed of a stop, and answers the tasks of its report, each with a handle.
fn push_stop(
    alloc: Global,
    number: usize,
    stop: &Stopped,
    before: Option<KeptTasks>,
    contexts: &Natives,
    text: &mut Vec<u8>,
) -> Result<KeptTasks, OutOfMemory>
    requires few { length contexts.now ≤ 64 }
    requires rising { IsTrue (rises_from 0 contexts.now) }
    requires copy { (w : List ℕ) × (names : List Tid) × IsCopy w stop.now.image
        × HoldsBefore w names before }
    ensures { (w : List ℕ) (names : List Tid) → IsCopy w stop.now.image → HoldsBefore w names before
        → IfOk result (λ kept.
        IsStopPushed w contexts.now number names stop.now text.old.items text.new.items kept) }
{
    let head = head_of(alloc, number, &stop.steps)?;
    let view = view_of(alloc, &stop.image, contexts)?;
    let report = report_text(alloc, &view)?;
    let fates = fates_behind(alloc, before, &stop.image, contexts)?;
    text.extend_from_slice(head.as_bytes())?;
    text.extend_from_slice(&report)?;
    text.extend_from_slice(fates.as_bytes())?;
    tasks_of(alloc, &stop.image, contexts)
}

/// What is printed of stops in turn, for the contexts of so many threads.
pub fn stops_text(alloc: Global, stops: &StopList, threads: u8) -> Result<Vec<u8>, OutOfMemory>
    requires few { threads ≤ 64 }
    requires copies { (w : List ℕ) × AreCopies w stops.now }
    ensures { (w : List ℕ) → AreCopies w stops.now → IfOk result (λ text. (last : List Tid)
        × AreStopsLooked w (thread_ids threads) 1 [] stops.now text.items last) }
{
    let contexts = contexts_of(alloc, threads)?;
    let mut text = Vec::new(alloc);
    let mut before = None;
    for at in 0..stops.len() {
        let kept = push_stop(alloc, at + 1, stops.get(at), before, &contexts, &mut text)?;
        before = Some(kept);
    }
    Ok(text)
}
