//! The view of the words of an image.

ghost use Rattle.std.specs.Prelude.{◌≡◌, ◌≤◌, Ok, IfOk, IsTrue, List, ℕ, length};
ghost use Rattle.std.specs.Int.{from_le_bytes, w64};
ghost use Rattle.omi_calls.specs.Kept.{GivesNumbers, TakesAll};
ghost use Rattle.omi_corefile.specs.Limits.{rises_from};
ghost use Rattle.omi_layout.specs.Given.{GivesLayout};
ghost use Rattle.omi_rep.specs.LookView.{look_view};
ghost use Rattle.omi_commands.specs.Imaged.{ShowsSome};
ghost use Rattle.omi_word.specs.Words.{words_of};

use omi::session_over;
use omi_calls::ToHost;
use omi_corefile::core_of;
use omi_model::View;
use omi_walk::{WalkFault, walk};
use omi_word::{Image, Natives, OutOfMemory};
use std::alloc::{AllocError, Global};

/// The view of words that show a state, for contexts with these native ids, by a conversion of the bytes of a word.
fn view_by<H: ToHost>(
    alloc: Global,
    image: &Image,
    contexts: &Natives,
    to_host: H,
) -> Result<View, OutOfMemory>
    requires few { length contexts.now ≤ 64 }
    requires rising { IsTrue (rises_from 0 contexts.now) }
    requires shown { ShowsSome image.now }
    requires takes { TakesAll (H.takes to_host) }
    requires gives { GivesNumbers (H.gives to_host) 0 }
    ensures { (w : List ℕ) → GivesLayout (words_of image.now) w → IfOk result
        (λ v. look_view w (words_of image.now) contexts.now ≡ Ok v) }
{
    let core = core_of(alloc, image, contexts, 0)?;
    let Ok(mut session) = session_over(alloc, core, to_host) else {
        unreachable!();
    };
    match walk(&mut session, alloc, contexts) {
        Ok(view) => Ok(view),
        Err(fault) => match fault {
            WalkFault::OutOfMemory => Err(AllocError),
            _ => unreachable!(),
        },
    }
}

/// The view of words that show a state, for contexts with these native ids.
pub fn view_of(alloc: Global, image: &Image, contexts: &Natives) -> Result<View, OutOfMemory>
    requires few { length contexts.now ≤ 64 }
    requires rising { IsTrue (rises_from 0 contexts.now) }
    requires shown { ShowsSome image.now }
    ensures { (w : List ℕ) → GivesLayout (words_of image.now) w → IfOk result
        (λ v. look_view w (words_of image.now) contexts.now ≡ Ok v) }
{
    view_by(
        alloc,
        image,
        contexts,
        |bytes: [u8; 8]| -> u64
            ensures { result ≡ from_le_bytes w64 bytes }
        { u64::from_le_bytes(bytes) },
    )
}
