//! The core that a run leaves.

ghost use Rattle.std.specs.Prelude.{◌≡◌, ◌≢◌, ◌<◌, ◌≤◌, List, ℕ, length, IfOk, OnOk, OnErr, IsErrOf};
ghost use Rattle.omi_corefile.specs.Spelling.{core_bytes};
ghost use Rattle.omi_outside.specs.Outside.{holding, HasCause, IsCut};
ghost use Rattle.omi_outside.specs.declared.files.Refused.{Refused};
ghost use Rattle.omi_script.specs.declared.limits.TheConstants.{MAX_THREADS};
ghost use Rattle.omi_commands.specs.Cores.{thread_ids};

use omi_corefile::{put_front, put_image};
use omi_numbers::native_id;
use omi_outside::{Files, PIECE, Refused};
use omi_word::{Image, Natives, OutOfMemory};
use std::alloc::Global;

/// The native ids of so many threads, which rise.
pub fn contexts_of(alloc: Global, threads: u8) -> Result<Natives, OutOfMemory>
    ensures { IfOk result (λ ids. ids ≡ thread_ids threads) }
{
    let mut ids = Natives::new(alloc);
    for thread in 0..threads {
        ids.push(native_id(thread))?;
    }
    Ok(ids)
}

/// Writes the core of an image that has a word, with these contexts, and in pieces of `PIECE` bytes, as `write_whole` would. Of its bytes no more than a piece stands in memory.
pub fn write_core<F: Files>(
    alloc: Global,
    image: &Image,
    contexts: &Natives,
    files: &mut F,
    name: &str,
) -> Result<(), Refused>
    requires some { 0 < length image.now }
    requires few { length contexts.now ≤ MAX_THREADS }
    ensures written { OnOk result (F.told files.new name.now
        ≡ holding (F.told files.old name.now) (core_bytes contexts.now image.now)) }

    // What is left where the call is refused, too. No other name changes.
    ensures cut { OnErr result (IsCut (F.told files.old name.now)
        (F.told files.new name.now) (core_bytes contexts.now image.now)) }
    ensures others { (other : List ℕ) → other ≢ name.now
        → F.told files.new other ≡ F.told files.old other }

    // A fault is counted as one of writing.
    ensures cause { HasCause (F.writes files.old) (F.writes files.new)
        (IsErrOf result Refused.Failed) }
    ensures reads { F.reads files.new ≡ F.reads files.old }
{
    let mut piece = Vec::with_capacity(alloc, PIECE)?;
    put_front(&mut piece, contexts, image.len())?;
    files.create(name)?;
    let mut at = 0;
    while at < image.len() {
        let room = (PIECE - piece.len()) / 8;
        at = put_image(&mut piece, image, at, room)?;
        files.append(name, &piece)?;
        piece.clear();
    }
    Ok(())
}
