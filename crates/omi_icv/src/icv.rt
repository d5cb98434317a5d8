//! Control variables as numbers.

ghost use Rattle.std.specs.Prelude.{◌≡◌, ◌≢◌, Err, IfSome};
ghost use Rattle.std.specs.FinMap.{get};
ghost use Rattle.omi_outside.specs.Outside.{HasCause};
ghost use Rattle.omi_session.specs.Named.{IsNamed};
ghost use Rattle.omi_session.specs.Opened.{StaysWhole};
ghost use Rattle.omi_session.specs.Reads.{Answers};
ghost use Rattle.omi_session.specs.Shown.{IsGiven};
ghost use Rattle.omi_icv.specs.Icvs as inquiry;
ghost use Rattle.omi_icv.specs.Scopes.{any_of};
ghost use Rattle.omi_icv.specs.StateValues.{number_of};
ghost use Rattle.omi_icv.specs.Subjects.{OfScoped};

use crate::scoped::{Scope, Scoped, found_of, record_of};
use crate::value::number;
use crate::variable::variable_in;
use omi_calls::{Callbacks, ToHost};
use omi_handle::Held;
use omi_session::{Rc, Session};

/// The value of a control variable, by its number, of the address space or of what is held for an object of a scope. It is refused as
/// `get_icv_from_scope` is.
pub fn icv_number_of<C: Callbacks, F: ToHost>(
    s: &mut Session<C, F>,
    scope: Scope,
    found: Option<Held>,
    icv: u32,
) -> Result<u64, Rc>
    requires { IfSome found (IsNamed s.old.layout) }
    ensures answer { Answers C.told C.asked s.old s.new result
        (inquiry.icv_from_scope s.old.layout (λ _. found) (any_of scope) icv) }
    ensures memory { result ≢ Err Rc.NoMem }
    ensures same { StaysWhole C.told s.old s.new }
    ensures cause { HasCause (C.faults s.old.table.calls) (C.faults s.new.table.calls)
        (result ≡ Err Rc.CallbackError) }
{
    let address = record_of(s, scope, found)?;
    let variable = variable_in(scope, icv)?;
    number(s, variable.source, address)
}

/// The value of a control variable, by its number, of the address space or of the object of a handle. Unsupported where that has no such
/// variable, Unavailable where a thread has no current task, and Incomplete, with the first number, where the value has several.
pub fn get_icv_from_scope<C: Callbacks, F: ToHost>(
    s: &mut Session<C, F>,
    of: Scoped,
    icv: u32,
) -> Result<u64, Rc>
    ensures answer { Answers C.told C.asked s.old s.new result
        (inquiry.icv_from_scope s.old.layout (get s.old.handles.held) of icv) }
    ensures shown { OfScoped (C.told s.old.table.calls) s.old.layout (get s.old.handles.held) of
        (λ state subject. IsGiven result (number_of state subject icv)) }
    ensures memory { result ≢ Err Rc.NoMem }
    ensures same { StaysWhole C.told s.old s.new }
    ensures cause { HasCause (C.faults s.old.table.calls) (C.faults s.new.table.calls)
        (result ≡ Err Rc.CallbackError) }
{
    let found = found_of(s, of);
    icv_number_of(s, of.scope(), found, icv)
}
