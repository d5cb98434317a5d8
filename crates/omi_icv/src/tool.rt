//! The tool word of a task.

ghost use Rattle.std.specs.Prelude.{◌≡◌, ◌≢◌, Err, IfSome};
ghost use Rattle.std.specs.FinMap.{get};
ghost use Rattle.omi_outside.specs.Outside.{HasCause};
ghost use Rattle.omi_session.specs.Named.{IsNamed};
ghost use Rattle.omi_session.specs.Opened.{StaysWhole};
ghost use Rattle.omi_session.specs.Reads.{Answers};
ghost use Rattle.omi_session.specs.Shown.{IsGiven};
ghost use Rattle.omi_icv.specs.Scopes.{any_of};
ghost use Rattle.omi_icv.specs.StateWords as inquiry;
ghost use Rattle.omi_icv.specs.StateValues.{tool_of};
ghost use Rattle.omi_icv.specs.Subjects.{OfScoped};

use crate::scoped::{Scope, Scoped, found_of, record_of};
use omi_calls::{Callbacks, ToHost};
use omi_handle::Held;
use omi_layout::Field;
use omi_session::{Rc, Session, word};

/// The word that a tool left with what is held as a task. Unsupported in each other scope.
pub fn tool_data_of<C: Callbacks, F: ToHost>(
    s: &mut Session<C, F>,
    scope: Scope,
    found: Option<Held>,
) -> Result<u64, Rc>
    requires { IfSome found (IsNamed s.old.layout) }
    ensures answer { Answers C.told C.asked s.old s.new result
        (inquiry.tool_data s.old.layout (λ _. found) (any_of scope)) }
    ensures memory { result ≢ Err Rc.NoMem }
    ensures same { StaysWhole C.told s.old s.new }
    ensures cause { HasCause (C.faults s.old.table.calls) (C.faults s.new.table.calls)
        (result ≡ Err Rc.CallbackError) }
{
    let address = record_of(s, scope, found)?;
    match scope {
        Scope::Task => word(s, address, Field::TaskTool, 0),
        _ => Err(Rc::Unsupported),
    }
}

/// The word that a tool left with a task. Unsupported of all else.
pub fn get_tool_data<C: Callbacks, F: ToHost>(s: &mut Session<C, F>, of: Scoped) -> Result<u64, Rc>
    ensures answer { Answers C.told C.asked s.old s.new result
        (inquiry.tool_data s.old.layout (get s.old.handles.held) of) }
    ensures shown { OfScoped (C.told s.old.table.calls) s.old.layout (get s.old.handles.held) of
        (λ state subject. IsGiven result (tool_of subject)) }
    ensures memory { result ≢ Err Rc.NoMem }
    ensures same { StaysWhole C.told s.old s.new }
    ensures cause { HasCause (C.faults s.old.table.calls) (C.faults s.new.table.calls)
        (result ≡ Err Rc.CallbackError) }
{
    let found = found_of(s, of);
    tool_data_of(s, of.scope(), found)
}
