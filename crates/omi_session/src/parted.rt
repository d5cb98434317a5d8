//! A session without its callbacks, between two stops of the target.

ghost use Rattle.std.specs.Prelude.{◌≡◌, ◌≢◌, MatchResult, IfErr, IsErrAnd};
ghost use Rattle.omi_outside.specs.Outside.{HasCause};
ghost use Rattle.omi_calls.specs.Memory.{usual_sizes};
ghost use Rattle.omi_word.specs.Words.{Words};
ghost use Rattle.omi_layout.specs.Given.{GivesLayout};
ghost use Rattle.omi_session.specs.Tells.{Tells, KeepsTold};
ghost use Rattle.omi_session.specs.Named.{AreNamed};
ghost use Rattle.omi_session.specs.Opening.{RefusesOver, IsRefusal, Opens};

use crate::opening::published;
use crate::rc::Rc;
use crate::session::Session;
use omi_calls::{Callbacks, Table, ToHost};
use omi_handle::Handles;
use omi_layout::Layout;
use std::marker::Model;

/// The layout and the handles of a session that was parted from its callbacks.
#[derive(Drop)]
pub struct Parted {
    layout: Layout,
    handles: Handles,
}

impl Model for Parted {
    ghost use Rattle.omi_session.specs.Opened.{Apart, apart_code};

    ghost Value = { Apart };

    ghost coded = { apart_code };

    ghost use Rattle.omi_session.specs.Named.{AreNamed};

    ghost view = { λ a. record { layout = a.layout.table; handles = a.handles } };

    ghost invariant = { λ a. AreNamed a.layout.table a.handles };
}

impl Parted {
    /// The parts of a session.
    pub(crate) fn of(layout: Layout, handles: Handles) -> Parted
        requires { AreNamed layout.table handles }
        ensures layout { result.layout ≡ layout.table }
        ensures handles { result.handles ≡ handles }
    {
        Parted { layout, handles }
    }

    /// Goes on over other callbacks, as at the next stop, with all handles. Where the target publishes no layout or another one, both
    /// are handed back.
    pub fn over<C: Callbacks, F: ToHost>(
        self,
        t: Table<C, F>,
    ) -> Result<Session<C, F>, (Rc, Parted, Table<C, F>)>
        ensures sizes { (C.told t.calls).sizes ≢ usual_sizes
            → IsErrAnd result (λ back. back.0 ≡ Rc.Incompatible) }
        ensures words { (memory : Words) → Tells (C.told t.calls) memory
            → (C.told t.calls).sizes ≡ usual_sizes
            → MatchResult result (λ session. GivesLayout memory self.layout)
            (λ back. RefusesOver self.layout memory back.0) }
        ensures refusals { IfErr result (λ back. IsRefusal back.0) }
        ensures layout { MatchResult result (λ session. session.layout ≡ self.layout)
            (λ back. back.1.layout ≡ self.layout) }
        ensures handles { MatchResult result (λ session. session.handles ≡ self.handles)
            (λ back. back.1.handles ≡ self.handles) }
        ensures same { MatchResult result (λ session. KeepsTold C.told t session.table)
            (λ back. KeepsTold C.told t back.2) }
        ensures asked { MatchResult result (λ session. Opens C.told C.asked t session.table ⊥)
            (λ back. Opens C.told C.asked t back.2 (back.0 ≡ Rc.CallbackError)) }
        ensures cause { MatchResult result
            (λ session. HasCause (C.faults t.calls) (C.faults session.table.calls) ⊥)
            (λ back. HasCause (C.faults t.calls) (C.faults back.2.calls)
            (back.0 ≡ Rc.CallbackError)) }
    {
        let mut table = t;
        match published(&mut table) {
            Ok(layout) => {
                if layout.table == self.layout.table {
                    Ok(Session::over(table, layout, self.handles))
                } else {
                    Err((Rc::Incompatible, self, table))
                }
            }
            Err(rc) => Err((rc, self, table)),
        }
    }
}
