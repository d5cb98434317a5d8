//! A session over the words of a core.

ghost use Rattle.std.specs.Prelude.{◌≡◌, ◌≤◌, IfOk, IfErr, MatchResult};
ghost use Rattle.omi_calls.specs.Kept.{GivesNumbers, IsOrderOf, TakesAll};
ghost use Rattle.omi_calls.specs.Memory.{told_by};
ghost use Rattle.omi_corefile.specs.declared.core_image.CoreImage.{CoreImage};
ghost use Rattle.omi_layout.specs.Given.{GivesLayout};
ghost use Rattle.omi_layout.specs.Valid.{IsValid};
ghost use Rattle.omi_outside.specs.Outside.{HasCause};
ghost use Rattle.omi_session.specs.Opened.{IsFresh};
ghost use Rattle.omi_top.specs.Cores.{words_of_core};
ghost use Rattle.omi_top.specs.Questions.{IsUnopened};
ghost use Rattle.omi_commands.specs.Inquiries.{ComesOfWords, refusal_of_code};
ghost use Rattle.omi_frame.specs.Refusal.{IsReadFault};

use omi::session_of;
use omi_calls::{Callbacks, ToHost};
use omi_commands::refusal_of_code;
use omi_frame::Refusal;
use omi_session::Session;
use std::alloc::Global;

/// The layout in a session is one that a type keeps, so it is valid.
pub fn has_valid_layout<C: Callbacks, H: ToHost>(session: &Session<C, H>)
    ensures { IsValid session.now.layout }
{
    let _layout = session.layout();
}

/// A session over the words that callbacks tell, by a conversion of the bytes of a word in their order. A refusal hands the callbacks
/// back.
pub fn opened<C: Callbacks + Drop, H: ToHost>(
    alloc: Global,
    calls: C,
    order: u8,
    to_host: H,
) -> Result<Session<C, H>, (Refusal, C)>
    requires order { IsOrderOf (C.told calls) order }
    requires takes { TakesAll (H.takes to_host) }
    requires gives { GivesNumbers (H.gives to_host) order }
    ensures layout { (core : CoreImage) → C.told calls ≡ told_by core
        → IfOk result (λ s. GivesLayout (words_of_core core) s.layout) }
    ensures told { IfOk result (λ s. C.told s.table.calls ≡ C.told calls) }
    ensures fresh { IfOk result (λ s. IsFresh s.handles) }
    ensures refused { (core : CoreImage) → C.told calls ≡ told_by core
        → IfErr result (λ back. IsUnopened core back.0) }
    ensures words { IfErr result (λ back. ComesOfWords back.0) }
    ensures cause { MatchResult result (λ s. C.faults calls ≤ C.faults s.table.calls)
        (λ back. HasCause (C.faults calls) (C.faults back.1) (IsReadFault back.0)) }
{
    match session_of(alloc, calls, order, to_host) {
        Ok(session) => Ok(session),
        Err((rc, calls)) => Err((refusal_of_code(rc), calls)),
    }
}
