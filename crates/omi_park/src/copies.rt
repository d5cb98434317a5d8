//! What the library says of the words of a stop: the tasks of their report, and what became of those of the report before.

ghost use Rattle.std.specs.Prelude.{◌≡◌, ◌≤◌, Ok, IfOk, IsTrue, List, ℕ, length, map, string_bytes};
ghost use Rattle.std.specs.Int.{from_le_bytes, w64};
ghost use Rattle.omi_calls.specs.Kept.{GivesNumbers, TakesAll};
ghost use Rattle.omi_corefile.specs.Limits.{rises_from};
ghost use Rattle.omi_model.specs.declared.id.Tid.{Tid};
ghost use Rattle.omi_model.specs.declared.view.View.{View};
ghost use Rattle.omi_rep.specs.LookView.{look_view};
ghost use Rattle.omi_commands.specs.Fates.{look_fates};
ghost use Rattle.omi_walk.specs.Kept.{task_names};
ghost use Rattle.omi_word.specs.Words.{words_of};
ghost use Rattle.omi_park.specs.Kept.{HoldsTasks, IsCopy};

use omi::session_over;
use omi_calls::{CoreCalls, Table, ToHost};
use omi_commands::{KeptTasks, fates};
use omi_corefile::core_of;
use omi_frame::Refusal;
use omi_walk::{WalkFault, kept};
use omi_word::{Image, Natives, OutOfMemory};
use std::alloc::{AllocError, Global};

/// The tasks of the report of words, each with a handle, by a conversion of the bytes of a word.
fn tasks_by<H: ToHost>(
    alloc: Global,
    image: &Image,
    contexts: &Natives,
    to_host: H,
) -> Result<KeptTasks, OutOfMemory>
    requires few { length contexts.now ≤ 64 }
    requires rising { IsTrue (rises_from 0 contexts.now) }
    requires copy { (w : List ℕ) × IsCopy w image.now }
    requires takes { TakesAll (H.takes to_host) }
    requires gives { GivesNumbers (H.gives to_host) 0 }
    ensures { (w : List ℕ) (v : View) → IsCopy w image.now
        → look_view w (words_of image.now) contexts.now ≡ Ok v
        → IfOk result (HoldsTasks w (task_names v)) }
{
    let core = core_of(alloc, image, contexts, 0)?;
    let Ok(mut session) = session_over(alloc, core, to_host) else {
        unreachable!();
    };
    match kept(&mut session, alloc, contexts) {
        Ok(tasks) => {
            let (parted, _table) = session.part();
            Ok(KeptTasks { parted, tasks })
        }
        Err(fault) => match fault {
            WalkFault::OutOfMemory => Err(AllocError),
            _ => unreachable!(),
        },
    }
}

/// The tasks of the report of the words of a stop, each with a handle.
pub fn tasks_of(alloc: Global, image: &Image, contexts: &Natives) -> Result<KeptTasks, OutOfMemory>
    requires few { length contexts.now ≤ 64 }
    requires rising { IsTrue (rises_from 0 contexts.now) }
    requires copy { (w : List ℕ) × IsCopy w image.now }
    ensures { (w : List ℕ) (v : View) → IsCopy w image.now
        → look_view w (words_of image.now) contexts.now ≡ Ok v
        → IfOk result (HoldsTasks w (task_names v)) }
{
    tasks_by(
        alloc,
        image,
        contexts,
        |bytes: [u8; 8]| -> u64
            ensures { result ≡ from_le_bytes w64 bytes }
        { u64::from_le_bytes(bytes) },
    )
}

/// The lines on tasks that were kept at an earlier stop, by a conversion of the bytes of a word.
fn fates_by<H: ToHost>(
    alloc: Global,
    before: KeptTasks,
    image: &Image,
    contexts: &Natives,
    to_host: H,
) -> Result<String, OutOfMemory>
    requires few { length contexts.now ≤ 64 }
    requires rising { IsTrue (rises_from 0 contexts.now) }
    requires copy { (w : List ℕ) × (names : List Tid) × IsCopy w image.now
        × HoldsTasks w names before }
    requires takes { TakesAll (H.takes to_host) }
    requires gives { GivesNumbers (H.gives to_host) 0 }
    ensures { (w : List ℕ) (names : List Tid) → IsCopy w image.now → HoldsTasks w names before
        → IfOk result (λ text. look_fates w (words_of image.now) names ≡ Ok (string_bytes text)) }
{
    let KeptTasks { parted, tasks } = before;
    let core = core_of(alloc, image, contexts, 0)?;
    let table = Table::new(CoreCalls::over(alloc, core), 0, to_host);
    let Ok(mut session) = parted.over(table) else {
        unreachable!();
    };
    match fates(&mut session, alloc, &tasks) {
        Ok(text) => Ok(text),
        Err(refusal) => match refusal {
            Refusal::OutOfMemory => Err(AllocError),
            _ => unreachable!(),
        },
    }
}

/// The lines on tasks that were kept at an earlier stop: their session goes on over the words of this one.
pub fn fates_of(
    alloc: Global,
    before: KeptTasks,
    image: &Image,
    contexts: &Natives,
) -> Result<String, OutOfMemory>
    requires few { length contexts.now ≤ 64 }
    requires rising { IsTrue (rises_from 0 contexts.now) }
    requires copy { (w : List ℕ) × (names : List Tid) × IsCopy w image.now
        × HoldsTasks w names before }
    ensures { (w : List ℕ) (names : List Tid) → IsCopy w image.now → HoldsTasks w names before
        → IfOk result (λ text. look_fates w (words_of image.now) names ≡ Ok (string_bytes text)) }
{
    fates_by(
        alloc,
        before,
        image,
        contexts,
        |bytes: [u8; 8]| -> u64
            ensures { result ≡ from_le_bytes w64 bytes }
        { u64::from_le_bytes(bytes) },
    )
}
