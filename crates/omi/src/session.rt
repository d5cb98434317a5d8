//! A session over the words that callbacks tell: the one place in which one is opened.

ghost use Rattle.std.specs.Prelude.{◌≡◌, ◌≤◌, IfErr, IfOk, MatchResult};
ghost use Rattle.omi_calls.specs.CoreCalls.{told_of_core};
ghost use Rattle.omi_calls.specs.Kept.{GivesNumbers, IsOrderOf, TakesAll};
ghost use Rattle.omi_calls.specs.Memory.{told_by, usual_sizes};
ghost use Rattle.omi_layout.specs.Given.{GivesLayout};
ghost use Rattle.omi_outside.specs.Outside.{HasCause};
ghost use Rattle.omi_session.specs.Opened.{IsFresh};
ghost use Rattle.omi_session.specs.Opening.{IsRefusal, Refuses};
ghost use Rattle.omi_session.specs.Tells.{Tells};
ghost use Rattle.omi_word.specs.Words.{Words};
ghost use Rattle.omi.specs.Opened.{IsNoTarget, words_of_core};

use crate::fault::OpenError;
use omi_calls::{Callbacks, CoreCalls, Table, ToHost};
use omi_corefile::CoreImage;
use omi_session::{API_VERSION, Rc, Session, initialize};
use std::alloc::Global;

/// A session over the words that callbacks tell, by a conversion of the bytes of a word in their order. A refusal hands the callbacks
/// back, with its code.
pub fn session_of<C: Callbacks + Drop, H: ToHost>(
    alloc: Global,
    calls: C,
    order: u8,
    to_host: H,
) -> Result<Session<C, H>, (Rc, C)>
    requires order { IsOrderOf (C.told calls) order }
    requires takes { TakesAll (H.takes to_host) }
    requires gives { GivesNumbers (H.gives to_host) order }
    ensures words { (memory : Words) → Tells (C.told calls) memory
        → (C.told calls).sizes ≡ usual_sizes
        → MatchResult result (λ s. GivesLayout memory s.layout) (λ back. Refuses memory back.0) }
    ensures told { IfOk result (λ s. C.told s.table.calls ≡ C.told calls) }
    ensures back { IfErr result (λ back. C.told back.1 ≡ C.told calls) }
    ensures fresh { IfOk result (λ s. IsFresh s.handles) }
    ensures refusals { IfErr result (λ back. IsRefusal back.0) }
    ensures cause { MatchResult result (λ s. C.faults calls ≤ C.faults s.table.calls)
        (λ back. HasCause (C.faults calls) (C.faults back.1) (back.0 ≡ Rc.CallbackError)) }
{
    let table = Table::new(calls, order, to_host);
    let Ok(library) = initialize(API_VERSION, table) else {
        unreachable!();
    };
    match library.process_initialize(alloc) {
        Ok(session) => Ok(session),
        Err((rc, library)) => Err((rc, library.finalize().into_calls())),
    }
}

/// A session with the words of a core of order 0 in memory, by a conversion of the bytes of a word. The error is NoTarget, where the
/// core's words publish no layout that this library knows.
pub fn session_over<F: ToHost>(
    alloc: Global,
    core: CoreImage,
    to_host: F,
) -> Result<Session<CoreCalls, F>, OpenError>
    requires order { core.order ≡ 0 }
    requires takes { TakesAll (F.takes to_host) }
    requires gives { GivesNumbers (F.gives to_host) 0 }
    ensures layout { IfOk result (λ s. GivesLayout (words_of_core core) s.layout) }
    ensures told { IfOk result (λ s. told_of_core s.table.calls ≡ told_by core) }
    ensures fresh { IfOk result (λ s. IsFresh s.handles) }
    ensures refused { IfErr result (IsNoTarget core) }
{
    match session_of(alloc, CoreCalls::over(alloc, core), 0, to_host) {
        Ok(session) => Ok(session),
        Err((rc, _)) => Err(OpenError::NoTarget(rc)),
    }
}
