//! Control variables as texts.

ghost use Rattle.std.specs.Prelude.{◌≡◌, ◌≢◌, Err, IfSome, string_bytes};
ghost use Rattle.std.specs.FinMap.{get};
ghost use Rattle.omi_outside.specs.Outside.{HasCause};
ghost use Rattle.omi_session.specs.Named.{IsNamed};
ghost use Rattle.omi_session.specs.Opened.{StaysWhole};
ghost use Rattle.omi_session.specs.Reads.{Answers};
ghost use Rattle.omi_icv.specs.Icvs as inquiry;
ghost use Rattle.omi_icv.specs.Scopes.{any_of};
ghost use Rattle.omi_icv.specs.StateValues.{text_of};
ghost use Rattle.omi_icv.specs.Subjects.{OfScoped};
ghost use Rattle.omi_icv.specs.Written.{Written, IsWritten, as_bytes};

use crate::numbers::Numbers;
use crate::scoped::{Scope, Scoped, found_of, record_of};
use crate::spelling::value_text;
use crate::value::numbers;
use crate::variable::{Spelling, variable_in};
use omi_calls::{Callbacks, ToHost};
use omi_handle::Held;
use omi_session::{Rc, Session};
use omi_text::ShortText;
use std::alloc::Global;

/// The numbers of a variable's value, and how they are spelled.
#[derive(Drop)]
pub struct Value {
    pub spelling: Spelling,
    pub numbers: Numbers,
}

/// The value of a control variable as it stands, of the address space or of what is held for an object of a scope: its numbers, and how
/// they are spelled.
pub fn icv_value_of<C: Callbacks, F: ToHost>(
    s: &mut Session<C, F>,
    scope: Scope,
    found: Option<Held>,
    icv: u32,
) -> Result<Value, Rc>
    requires { IfSome found (IsNamed s.old.layout) }
    ensures answer { Answers C.told C.asked s.old s.new result
        (inquiry.icv_value s.old.layout (λ _. found) (any_of scope) icv) }
    ensures memory { result ≢ Err Rc.NoMem }
    ensures same { StaysWhole C.told s.old s.new }
    ensures cause { HasCause (C.faults s.old.table.calls) (C.faults s.new.table.calls)
        (result ≡ Err Rc.CallbackError) }
{
    let address = record_of(s, scope, found)?;
    let variable = variable_in(scope, icv)?;
    let numbers = numbers(s, variable.source, address)?;
    Ok(Value {
        spelling: variable.spelling,
        numbers,
    })
}

/// The same as a text, which takes no memory.
pub fn icv_text_of<C: Callbacks, F: ToHost>(
    s: &mut Session<C, F>,
    scope: Scope,
    found: Option<Held>,
    icv: u32,
) -> Result<ShortText, Rc>
    requires { IfSome found (IsNamed s.old.layout) }
    ensures answer { Answers C.told C.asked s.old s.new result
        (inquiry.icv_string_from_scope s.old.layout (λ _. found) (any_of scope) icv) }
    ensures memory { result ≢ Err Rc.NoMem }
    ensures same { StaysWhole C.told s.old s.new }
    ensures cause { HasCause (C.faults s.old.table.calls) (C.faults s.new.table.calls)
        (result ≡ Err Rc.CallbackError) }
{
    let value = icv_value_of(s, scope, found, icv)?;
    Ok(value_text(value.spelling, value.numbers.as_slice()))
}

/// The value of a control variable as it stands: its numbers, and how they are spelled. A part of inquiries that other crates can use.
pub fn icv_value<C: Callbacks, F: ToHost>(
    s: &mut Session<C, F>,
    of: Scoped,
    icv: u32,
) -> Result<Value, Rc>
    ensures answer { Answers C.told C.asked s.old s.new result
        (inquiry.icv_value s.old.layout (get s.old.handles.held) of icv) }
    ensures memory { result ≢ Err Rc.NoMem }
    ensures same { StaysWhole C.told s.old s.new }
    ensures cause { HasCause (C.faults s.old.table.calls) (C.faults s.new.table.calls)
        (result ≡ Err Rc.CallbackError) }
{
    let found = found_of(s, of);
    icv_value_of(s, of.scope(), found, icv)
}

/// The value of a control variable as a text, with all numbers where it has several. It is refused as `get_icv_from_scope` is, but never
/// with Incomplete.
pub fn get_icv_string_from_scope<C: Callbacks, F: ToHost>(
    s: &mut Session<C, F>,
    alloc: Global,
    of: Scoped,
    icv: u32,
) -> Result<String, Rc>
    ensures answer { Written C.told C.asked s.old s.new (as_bytes string_bytes result)
        (inquiry.icv_string_from_scope s.old.layout (get s.old.handles.held) of icv) }
    ensures shown { OfScoped (C.told s.old.table.calls) s.old.layout (get s.old.handles.held) of
        (λ state subject. IsWritten (as_bytes string_bytes result) (text_of state subject icv)) }
    ensures same { StaysWhole C.told s.old s.new }
    ensures cause { HasCause (C.faults s.old.table.calls) (C.faults s.new.table.calls)
        (result ≡ Err Rc.CallbackError) }
{
    let found = found_of(s, of);
    let text = icv_text_of(s, of.scope(), found, icv)?;
    match String::from_str(alloc, text.as_str()) {
        Ok(text) => Ok(text),
        Err(_) => Err(Rc::NoMem),
    }
}
