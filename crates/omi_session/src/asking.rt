//! The parts of inquiries, over the public calls of a session: the word of a field, and the live object to which a word points. Each
//! answers what the definition of its reads does.

ghost use Rattle.std.specs.Prelude.{◌≡◌, ◌≢◌, ◌≤◌, true, Err, IfOk, IfSome, is_some};
ghost use Rattle.omi_outside.specs.Outside.{HasCause};
ghost use Rattle.omi_layout.specs.declared.limits.TheConstants.{LAST_END};
ghost use Rattle.omi_rep.specs.Look.{slot_at, life_of};
ghost use Rattle.omi_rep.specs.Look.{is_live as is_live_word};
ghost use Rattle.omi_session.specs.Named.{record_kind, IsNamed, IsOfKind};
ghost use Rattle.omi_session.specs.Opened.{StaysWhole};
ghost use Rattle.omi_session.specs.Reads.{Answers};
ghost use Rattle.omi_session.specs.Inquiry as inquiry;

use crate::rc::Rc;
use crate::session::Session;
use omi_calls::{Callbacks, ToHost};
use omi_handle::{Held, Kind};
use omi_layout::{Field, Layout};
use omi_numbers::LIFE_END;

/// The field that has the life word of the records of a kind of object.
pub fn life_field(kind: Kind) -> Field
    ensures { result ≡ life_of (record_kind kind) }
{
    match kind {
        Kind::Thread => Field::ThreadLife,
        Kind::Region => Field::RegionLife,
        Kind::Task => Field::TaskLife,
    }
}

/// Whether a life word is that of a live record of a kind of object.
fn is_live(kind: Kind, life: u64) -> bool
    ensures { result ≡ is_live_word (record_kind kind) life }
{
    match kind {
        Kind::Thread => life == 1,
        Kind::Region | Kind::Task => life % 2 == 1 && life < LIFE_END,
    }
}

/// Whether a record of a kind of object begins at a byte address.
pub(crate) fn is_place(layout: &Layout, kind: Kind, addr: u64) -> bool
    ensures value { result ≡ is_some (slot_at layout.now.table (record_kind kind) addr) }
    ensures low { result ≡ true → addr ≤ LAST_END }
{
    match kind {
        Kind::Thread => layout.thread_of(addr).is_some(),
        Kind::Region => layout.region_of(addr).is_some(),
        Kind::Task => layout.task_of(addr).is_some(),
    }
}

/// The object of a kind whose record begins at a byte address and has this life word. None where no record of the kind begins there,
/// or the life word is not that of a live one.
pub fn object_at(layout: &Layout, kind: Kind, addr: u64, life: u64) -> Option<Held>
    ensures value { result ≡ inquiry.object_at layout.now.table kind addr life }
    ensures named { IfSome result (IsNamed layout.now.table) }
{
    if is_place(layout, kind, addr) && is_live(kind, life) {
        Some(Held { kind, addr, life })
    } else {
        None
    }
}

/// A word at a place of a field of the record at a byte address. An Error where it isn't mapped.
pub fn word<C: Callbacks, F: ToHost>(
    s: &mut Session<C, F>,
    address: u64,
    field: Field,
    at: u64,
) -> Result<u64, Rc>
    requires low { address ≤ LAST_END }
    requires few { at ≤ 64 }
    ensures answer { Answers C.told C.asked s.old s.new result
        (inquiry.word_of s.old.layout address field at) }
    ensures memory { result ≢ Err Rc.NoMem }
    ensures same { StaysWhole C.told s.old s.new }
    ensures cause { HasCause (C.faults s.old.table.calls) (C.faults s.new.table.calls)
        (result ≡ Err Rc.CallbackError) }
{
    let number = field.number();
    let front = u64::from(s.layout().offset(number)) + at;
    let Ok(found) = s.peek(address + 8 * front) else {
        return Err(Rc::CallbackError);
    };
    found.ok_or(Rc::Error {
        addr: address,
        field: number,
    })
}

/// What a handle stands for, where its record still has the life word that the handle keeps. A StaleHandle where it has another.
pub fn unchanged<C: Callbacks, F: ToHost>(s: &mut Session<C, F>, held: Held) -> Result<Held, Rc>
    requires { held.addr ≤ LAST_END }
    ensures answer { Answers C.told C.asked s.old s.new result
        (inquiry.unchanged s.old.layout held) }
    ensures is { IfOk result (λ h. h ≡ held) }
    ensures memory { result ≢ Err Rc.NoMem }
    ensures same { StaysWhole C.told s.old s.new }
    ensures cause { HasCause (C.faults s.old.table.calls) (C.faults s.new.table.calls)
        (result ≡ Err Rc.CallbackError) }
{
    let life = word(s, held.addr, life_field(held.kind), 0)?;
    if life == held.life {
        Ok(held)
    } else {
        Err(Rc::StaleHandle)
    }
}

/// The live object of a kind to which an address leads that a field held. An Error where no live record of the kind begins there.
pub fn lead<C: Callbacks, F: ToHost>(
    s: &mut Session<C, F>,
    kind: Kind,
    field: Field,
    pointer: u64,
) -> Result<Held, Rc>
    ensures answer { Answers C.told C.asked s.old s.new result
        (inquiry.lead s.old.layout kind field pointer) }
    ensures named { IfOk result (IsOfKind s.old.layout kind) }
    ensures memory { result ≢ Err Rc.NoMem }
    ensures same { StaysWhole C.told s.old s.new }
    ensures cause { HasCause (C.faults s.old.table.calls) (C.faults s.new.table.calls)
        (result ≡ Err Rc.CallbackError) }
{
    let damaged = Rc::Error {
        addr: pointer,
        field: field.number(),
    };
    if !is_place(s.layout(), kind, pointer) {
        return Err(damaged);
    }
    let front = u64::from(s.layout().offset(life_field(kind).number()));
    let Ok(found) = s.peek(pointer + 8 * front) else {
        return Err(Rc::CallbackError);
    };
    match found {
        Some(life) if is_live(kind, life) => Ok(Held {
            kind,
            addr: pointer,
            life,
        }),
        _ => Err(damaged),
    }
}

/// The live object of a kind to which a word points.
pub fn follow<C: Callbacks, F: ToHost>(
    s: &mut Session<C, F>,
    kind: Kind,
    address: u64,
    field: Field,
    at: u64,
) -> Result<Held, Rc>
    requires low { address ≤ LAST_END }
    requires few { at ≤ 64 }
    ensures answer { Answers C.told C.asked s.old s.new result
        (inquiry.follow s.old.layout kind address field at) }
    ensures named { IfOk result (IsOfKind s.old.layout kind) }
    ensures memory { result ≢ Err Rc.NoMem }
    ensures same { StaysWhole C.told s.old s.new }
    ensures cause { HasCause (C.faults s.old.table.calls) (C.faults s.new.table.calls)
        (result ≡ Err Rc.CallbackError) }
{
    let pointer = word(s, address, field, at)?;
    lead(s, kind, field, pointer)
}

/// The live object of a kind to which a word points that may be 0. Where it is 0, Unavailable.
pub fn follow_some<C: Callbacks, F: ToHost>(
    s: &mut Session<C, F>,
    kind: Kind,
    address: u64,
    field: Field,
) -> Result<Held, Rc>
    requires { address ≤ LAST_END }
    ensures answer { Answers C.told C.asked s.old s.new result
        (inquiry.follow_some s.old.layout kind address field) }
    ensures named { IfOk result (IsOfKind s.old.layout kind) }
    ensures memory { result ≢ Err Rc.NoMem }
    ensures same { StaysWhole C.told s.old s.new }
    ensures cause { HasCause (C.faults s.old.table.calls) (C.faults s.new.table.calls)
        (result ≡ Err Rc.CallbackError) }
{
    let pointer = word(s, address, field, 0)?;
    if pointer == 0 {
        return Err(Rc::Unavailable);
    }
    lead(s, kind, field, pointer)
}
