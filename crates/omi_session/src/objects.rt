//! The object of a handle, and the live object to which a field of it points: by what is held, and by the pair of key and serial under
//! which it is held. Each answers what the definition of its reads does.

ghost use Rattle.std.specs.Prelude.{◌≡◌, ◌≢◌, Err, IfOk, IfSome};
ghost use Rattle.std.specs.FinMap.{get};
ghost use Rattle.omi_outside.specs.Outside.{HasCause};
ghost use Rattle.omi_session.specs.Named.{IsNamed, IsOfKind};
ghost use Rattle.omi_session.specs.Opened.{StaysWhole};
ghost use Rattle.omi_session.specs.Reads.{Answers};
ghost use Rattle.omi_session.specs.Inquiry as inquiry;

use crate::asking::{follow_some, unchanged};
use crate::rc::Rc;
use crate::session::Session;
use omi_calls::{Callbacks, ToHost};
use omi_handle::{Held, Kind};
use omi_layout::{Field, Layout};

/// What is held, where it is of this kind. BadInput where nothing is held, or an object of another kind.
pub fn live_handle_of(layout: &Layout, kind: Kind, found: Option<Held>) -> Result<Held, Rc>
    requires { IfSome found (IsNamed layout.now.table) }
    ensures value { result ≡ inquiry.live_handle kind found }
    ensures named { IfOk result (IsOfKind layout.now.table kind) }
    ensures memory { result ≢ Err Rc.NoMem }
{
    match found {
        Some(held) if held.kind == kind => Ok(held),
        _ => Err(Rc::BadInput),
    }
}

/// What is held under a pair of key and serial for this kind.
pub fn live_handle<C: Callbacks, F: ToHost>(
    s: &Session<C, F>,
    kind: Kind,
    key: u64,
    serial: u64,
) -> Result<Held, Rc>
    ensures value { result
        ≡ inquiry.live_handle kind (get s.now.handles.held (key, serial)) }
    ensures named { IfOk result (IsOfKind s.now.layout kind) }
    ensures memory { result ≢ Err Rc.NoMem }
{
    let found = s.find(key, serial);
    live_handle_of(s.layout(), kind, found)
}

/// The object of what is held: it is of this kind, and its record still has the life word that is held with it.
pub fn object_of<C: Callbacks, F: ToHost>(
    s: &mut Session<C, F>,
    kind: Kind,
    found: Option<Held>,
) -> Result<Held, Rc>
    requires { IfSome found (IsNamed s.old.layout) }
    ensures answer { Answers C.told C.asked s.old s.new result
        (inquiry.object_of s.old.layout kind found) }
    ensures named { IfOk result (IsOfKind s.old.layout kind) }
    ensures memory { result ≢ Err Rc.NoMem }
    ensures same { StaysWhole C.told s.old s.new }
    ensures cause { HasCause (C.faults s.old.table.calls) (C.faults s.new.table.calls)
        (result ≡ Err Rc.CallbackError) }
{
    let held = live_handle_of(s.layout(), kind, found)?;
    unchanged(s, held)
}

/// The object of the handle under a pair of key and serial: the handle is held, for this kind, and its record still has the life word
/// that the handle keeps.
pub fn object<C: Callbacks, F: ToHost>(
    s: &mut Session<C, F>,
    kind: Kind,
    key: u64,
    serial: u64,
) -> Result<Held, Rc>
    ensures answer { Answers C.told C.asked s.old s.new result
        (inquiry.object_of s.old.layout kind (get s.old.handles.held (key, serial))) }
    ensures named { IfOk result (IsOfKind s.old.layout kind) }
    ensures memory { result ≢ Err Rc.NoMem }
    ensures same { StaysWhole C.told s.old s.new }
    ensures cause { HasCause (C.faults s.old.table.calls) (C.faults s.new.table.calls)
        (result ≡ Err Rc.CallbackError) }
{
    let found = s.find(key, serial);
    object_of(s, kind, found)
}

/// The live object of a kind to which a field of the object of what is held points. Where the field holds 0, Unavailable.
pub fn related_of<C: Callbacks, F: ToHost>(
    s: &mut Session<C, F>,
    kind: Kind,
    found: Option<Held>,
    other: Kind,
    field: Field,
) -> Result<Held, Rc>
    requires { IfSome found (IsNamed s.old.layout) }
    ensures answer { Answers C.told C.asked s.old s.new result
        (inquiry.related s.old.layout kind found other field) }
    ensures named { IfOk result (IsOfKind s.old.layout other) }
    ensures memory { result ≢ Err Rc.NoMem }
    ensures same { StaysWhole C.told s.old s.new }
    ensures cause { HasCause (C.faults s.old.table.calls) (C.faults s.new.table.calls)
        (result ≡ Err Rc.CallbackError) }
{
    let from = object_of(s, kind, found)?;
    follow_some(s, other, from.addr, field)
}

/// The live object of a kind to which a field of the object of a handle points, under its pair of key and serial. Where the field
/// holds 0, Unavailable.
pub fn related<C: Callbacks, F: ToHost>(
    s: &mut Session<C, F>,
    kind: Kind,
    pair: (u64, u64),
    other: Kind,
    field: Field,
) -> Result<Held, Rc>
    ensures answer { Answers C.told C.asked s.old s.new result (inquiry.related
        s.old.layout kind (get s.old.handles.held pair) other field) }
    ensures named { IfOk result (IsOfKind s.old.layout other) }
    ensures memory { result ≢ Err Rc.NoMem }
    ensures same { StaysWhole C.told s.old s.new }
    ensures cause { HasCause (C.faults s.old.table.calls) (C.faults s.new.table.calls)
        (result ≡ Err Rc.CallbackError) }
{
    let found = s.find(pair.0, pair.1);
    related_of(s, kind, found, other, field)
}
