//! A library before its session: the debugger's callbacks alone.

ghost use Rattle.std.specs.Prelude.{◌≡◌, ◌≢◌, MatchResult, IfErr, IsErrAnd, IsOk};
ghost use Rattle.omi_outside.specs.Outside.{HasCause};
ghost use Rattle.omi_calls.specs.Memory.{usual_sizes};
ghost use Rattle.omi_word.specs.Words.{Words};
ghost use Rattle.omi_layout.specs.Given.{GivesLayout};
ghost use Rattle.omi_session.specs.Tells.{Tells, KeepsTold};
ghost use Rattle.omi_session.specs.Opened.{IsFresh};
ghost use Rattle.omi_session.specs.Opening.{Refuses, IsRefusal, Opens};

use crate::opening::published;
use crate::rc::Rc;
use crate::session::Session;
use crate::version::API_VERSION;
use omi_calls::{Callbacks, Table, ToHost};
use std::alloc::Global;
use std::marker::Model;

/// A library that was initialized with a debugger's callbacks. Contracts see the table of callbacks.
#[derive(Drop)]
pub struct Library<C: Callbacks, F: ToHost> {
    table: Table<C, F>,
}

impl<C: Callbacks, F: ToHost> Model for Library<C, F> {
    ghost use Rattle.omi_calls.specs.Kept.{Kept};

    ghost Value = { Kept C F };

    ghost view = { λ a. a.table };
}

/// A library over these callbacks, for the version of the API that the debugger speaks. Any other version than 201811 is
/// Unsupported, with the callbacks handed back.
pub fn initialize<C: Callbacks, F: ToHost>(
    api: u64,
    t: Table<C, F>,
) -> Result<Library<C, F>, (Rc, Table<C, F>)>
    ensures known { api ≡ API_VERSION → IsOk result }
    ensures kept { MatchResult result (λ library. library ≡ t) (λ back. back.1 ≡ t) }
    ensures unsupported { IfErr result (λ back. (api ≢ API_VERSION)
        × (back.0 ≡ Rc.Unsupported)) }
{
    if api == API_VERSION {
        Ok(Library { table: t })
    } else {
        Err((Rc::Unsupported, t))
    }
}

impl<C: Callbacks, F: ToHost> Library<C, F> {
    /// Opens a session with the target: reads the layout that its words publish. Any refusal hands the library back.
    pub fn process_initialize(self, alloc: Global) -> Result<Session<C, F>, (Rc, Library<C, F>)>
        ensures sizes { (C.told self.calls).sizes ≢ usual_sizes
            → IsErrAnd result (λ back. back.0 ≡ Rc.Incompatible) }
        ensures words { (memory : Words) → Tells (C.told self.calls) memory
            → (C.told self.calls).sizes ≡ usual_sizes
            → MatchResult result (λ session. GivesLayout memory session.layout)
            (λ back. Refuses memory back.0) }
        ensures refusals { IfErr result (λ back. IsRefusal back.0) }
        ensures same { MatchResult result (λ session. KeepsTold C.told self session.table)
            (λ back. KeepsTold C.told self back.1) }
        ensures asked { MatchResult result (λ session. Opens C.told C.asked self session.table ⊥)
            (λ back. Opens C.told C.asked self back.1 (back.0 ≡ Rc.CallbackError)) }
        ensures cause { MatchResult result
            (λ session. HasCause (C.faults self.calls) (C.faults session.table.calls) ⊥)
            (λ back. HasCause (C.faults self.calls) (C.faults back.1.calls)
            (back.0 ≡ Rc.CallbackError)) }
        ensures fresh { MatchResult result (λ session. IsFresh session.handles)
            (λ back. Unit {0}) }
    {
        let mut table = self.table;
        match published(&mut table) {
            Ok(layout) => Ok(Session::in_layout(alloc, table, layout)),
            Err(rc) => Err((rc, Library { table })),
        }
    }

    /// Ends the library, and hands the callbacks back.
    pub fn finalize(self) -> Table<C, F>
        ensures { result ≡ self }
    {
        self.table
    }

    /// A library over these callbacks, of whatever version.
    pub(crate) fn of(table: Table<C, F>) -> Library<C, F>
        ensures { result ≡ table }
    {
        Library { table }
    }
}
