//! The native ids that the records of threads hold.

ghost use Rattle.std.specs.Prelude.{◌≡◌, ◌<◌, ◌≤◌, ◌+◌, ◌++◌, ◌∷◌, [], Err, IfOk, None, OnOk, length};
ghost use Rattle.std.specs.List.{filter_map};
ghost use Rattle.omi_layout.specs.Valid.{IsValid};
ghost use Rattle.omi_layout.specs.Table.{thread_count};
ghost use Rattle.omi_outside.specs.Outside.{HasCause};
ghost use Rattle.omi_rep.specs.LookView.{read_thread};
ghost use Rattle.omi_session.specs.Opened.{StaysWhole};
ghost use Rattle.omi_walk.specs.Gives.{Looks};
ghost use Rattle.omi_ps.specs.Recorded.{look_id, look_recorded};
ghost use Rattle.omi_walk.specs.Fault.{fault_of};

use omi_calls::{Callbacks, ToHost};
use omi_layout::Field;
use omi_session::{Rc, Session, word};
use omi_walk::WalkFault;
use omi_word::{Natives, OutOfMemory};
use std::alloc::Global;

/// What the refusal of a word is: it isn't mapped, or a callback failed. There is no other one where words are told.
fn word_fault(rc: Rc) -> WalkFault
    ensures { result ≡ fault_of None rc }
{
    match rc {
        Rc::Error { addr, field } => WalkFault::Damaged { addr, field },
        Rc::CallbackError => WalkFault::Callback,
        Rc::NoMem => WalkFault::OutOfMemory,
        _ => WalkFault::Damaged { addr: 0, field: 0 },
    }
}

/// A word of the record of a thread.
fn thread_word<C: Callbacks, F: ToHost>(
    s: &mut Session<C, F>,
    i: u8,
    field: Field,
) -> Result<u64, WalkFault>
    requires { i < thread_count s.old.layout }
    ensures look { Looks C.told s.old result (λ w words. read_thread w words i field) }
    ensures same { StaysWhole C.told s.old s.new }
    ensures cause { HasCause (C.faults s.old.table.calls) (C.faults s.new.table.calls)
        (result ≡ Err WalkFault.Callback) }
{
    let addr = s.layout().thread_at(i);
    match word(s, addr, field, 0) {
        Ok(found) => Ok(found),
        Err(rc) => Err(word_fault(rc)),
    }
}

/// The native id in the record of a thread, if the thread has begun.
fn recorded_id<C: Callbacks, F: ToHost>(
    s: &mut Session<C, F>,
    i: u8,
) -> Result<Option<u64>, WalkFault>
    requires { i < thread_count s.old.layout }
    ensures look { Looks C.told s.old result (λ w words. look_id w words i) }
    ensures same { StaysWhole C.told s.old s.new }
    ensures cause { HasCause (C.faults s.old.table.calls) (C.faults s.new.table.calls)
        (result ≡ Err WalkFault.Callback) }
{
    let life = thread_word(s, i, Field::ThreadLife)?;
    if life != 1 {
        return Ok(None);
    }
    let id = thread_word(s, i, Field::ThreadNative)?;
    Ok(Some(id))
}

/// Adds an id, if there is one.
fn push_some(ids: &mut Natives, id: Option<u64>) -> Result<(), OutOfMemory>
    ensures added { OnOk result (ids.new ≡ ids.old ++ filter_map (λ id. id) (id ∷ [])) }
    ensures few { OnOk result (length ids.new ≤ length ids.old + 1) }
{
    match id {
        Some(id) => ids.push(id),
        None => Ok(()),
    }
}

/// How many threads the layout of a session has, which is valid.
fn threads_of<C: Callbacks, F: ToHost>(s: &Session<C, F>) -> u8
    ensures count { result ≡ thread_count s.now.layout }
    ensures valid { IsValid s.now.layout }
{
    s.layout().threads()
}

/// The native ids in the records of the threads that have begun, in the order of the threads' numbers.
pub fn recorded_ids<C: Callbacks, F: ToHost>(
    s: &mut Session<C, F>,
    alloc: Global,
) -> Result<Natives, WalkFault>
    ensures look { Looks C.told s.old result look_recorded }
    ensures few { IfOk result (λ ids. length ids ≤ 64) }
    ensures same { StaysWhole C.told s.old s.new }
    ensures cause { HasCause (C.faults s.old.table.calls) (C.faults s.new.table.calls)
        (result ≡ Err WalkFault.Callback) }
{
    let mut ids = Natives::new(alloc);
    for i in 0..threads_of(s) {
        let id = recorded_id(s, i)?;
        push_some(&mut ids, id)?;
    }
    Ok(ids)
}
