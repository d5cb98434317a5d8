//! What is asked about: the address space, or the object of a handle; and the scopes of control variables.

ghost use Rattle.std.specs.Prelude.{◌≡◌, ◌≢◌, ◌≤◌, Err, IfOk, IfSome};
ghost use Rattle.std.specs.FinMap.{get};
ghost use Rattle.omi_outside.specs.Outside.{HasCause};
ghost use Rattle.omi_layout.specs.declared.limits.TheConstants.{LAST_END};
ghost use Rattle.omi_session.specs.Named.{IsNamed};
ghost use Rattle.omi_session.specs.Opened.{StaysWhole};
ghost use Rattle.omi_session.specs.Reads.{Answers};
ghost use Rattle.omi_icv.specs.Scopes.{scope_number, scope_of, any_of};
ghost use Rattle.omi_icv.specs.Records as inquiry;

use omi_calls::{Callbacks, ToHost};
use omi_handle::{Held, Kind, RegionHandle, TaskHandle, ThreadHandle};
use omi_session::{Rc, Session, object_of};

/// What is asked about.
#[derive(Clone, Copy, Debug, PartialEq, Eq)]
pub enum Scoped {
    /// The address space of the target.
    Space,
    Thread(ThreadHandle),
    Parallel(RegionHandle),
    Task(TaskHandle),
}

/// The scope of a control variable. The numbers are those of OpenMP 5.0, which has the scopes global (1) and implicit task (5) besides.
#[derive(Clone, Copy)]
pub enum Scope {
    AddressSpace = 2,
    Thread = 3,
    Parallel = 4,
    Task = 6,
}

impl Scope {
    /// The number of the scope.
    pub(crate) fn number(self) -> u32
        ensures { result ≡ scope_number self }
    {
        self as u32
    }
}

impl Scoped {
    /// The scope of the variables that may be asked for.
    pub(crate) fn scope(self) -> Scope
        ensures { result ≡ scope_of self }
    {
        match self {
            Scoped::Space => Scope::AddressSpace,
            Scoped::Thread(_) => Scope::Thread,
            Scoped::Parallel(_) => Scope::Parallel,
            Scoped::Task(_) => Scope::Task,
        }
    }
}

/// What is held of what is asked about. None of the address space, and where the handle isn't held.
pub fn found_of<C: Callbacks, F: ToHost>(s: &Session<C, F>, of: Scoped) -> Option<Held>
    ensures value { result ≡ inquiry.found_of (get s.now.handles.held) of }
    ensures named { IfSome result (IsNamed s.now.layout) }
{
    match of {
        Scoped::Space => None,
        Scoped::Thread(t) => s.find(t.key, t.serial),
        Scoped::Parallel(r) => s.find(r.key, r.serial),
        Scoped::Task(k) => s.find(k.key, k.serial),
    }
}

/// The byte address of the record of a live object, by what is held.
fn record_of_held<C: Callbacks, F: ToHost>(
    s: &mut Session<C, F>,
    kind: Kind,
    found: Option<Held>,
) -> Result<u64, Rc>
    requires { IfSome found (IsNamed s.old.layout) }
    ensures answer { Answers C.told C.asked s.old s.new result
        (inquiry.record_of_handle s.old.layout kind found) }
    ensures low { IfOk result (λ address. address ≤ LAST_END) }
    ensures memory { result ≢ Err Rc.NoMem }
    ensures same { StaysWhole C.told s.old s.new }
    ensures cause { HasCause (C.faults s.old.table.calls) (C.faults s.new.table.calls)
        (result ≡ Err Rc.CallbackError) }
{
    let held = object_of(s, kind, found)?;
    Ok(held.addr)
}

/// The byte address of the record of what is asked about, by its scope and by what is held: the runtime's of the address space, for which
/// no word is read, and else that of the live object.
pub fn record_of<C: Callbacks, F: ToHost>(
    s: &mut Session<C, F>,
    scope: Scope,
    found: Option<Held>,
) -> Result<u64, Rc>
    requires { IfSome found (IsNamed s.old.layout) }
    ensures answer { Answers C.told C.asked s.old s.new result
        (inquiry.record_of s.old.layout (λ _. found) (any_of scope)) }
    ensures low { IfOk result (λ address. address ≤ LAST_END) }
    ensures memory { result ≢ Err Rc.NoMem }
    ensures same { StaysWhole C.told s.old s.new }
    ensures cause { HasCause (C.faults s.old.table.calls) (C.faults s.new.table.calls)
        (result ≡ Err Rc.CallbackError) }
{
    match scope {
        Scope::AddressSpace => Ok(s.layout().runtime_place()),
        Scope::Thread => record_of_held(s, Kind::Thread, found),
        Scope::Parallel => record_of_held(s, Kind::Region, found),
        Scope::Task => record_of_held(s, Kind::Task, found),
    }
}
