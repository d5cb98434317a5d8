//! The state of a thread.

ghost use Rattle.std.specs.Prelude.{◌≡◌, ◌≢◌, Err, IfSome};
ghost use Rattle.std.specs.FinMap.{get};
ghost use Rattle.omi_outside.specs.Outside.{HasCause};
ghost use Rattle.omi_session.specs.Made.{thread_pair};
ghost use Rattle.omi_session.specs.Named.{IsNamed};
ghost use Rattle.omi_session.specs.Opened.{StaysWhole};
ghost use Rattle.omi_session.specs.Reads.{Answers};
ghost use Rattle.omi_session.specs.Shown.{OfThread, IsGiven};
ghost use Rattle.omi_icv.specs.StateWords as inquiry;
ghost use Rattle.omi_icv.specs.StateValues.{state_of_thread};

use crate::runtime::runtime_word;
use omi_calls::{Callbacks, ToHost};
use omi_handle::{Held, Kind, ThreadHandle};
use omi_layout::Field;
use omi_numbers::{state_of, wait_of};
use omi_session::{Rc, Session, object_of, word};

/// The state of what is held as a thread, and the id on which it waits. NeedsStateTracking where the target keeps no states.
pub fn state_of_thread<C: Callbacks, F: ToHost>(
    s: &mut Session<C, F>,
    found: Option<Held>,
) -> Result<(u32, u64), Rc>
    requires { IfSome found (IsNamed s.old.layout) }
    ensures answer { Answers C.told C.asked s.old s.new result
        (inquiry.state s.old.layout found) }
    ensures memory { result ≢ Err Rc.NoMem }
    ensures same { StaysWhole C.told s.old s.new }
    ensures cause { HasCause (C.faults s.old.table.calls) (C.faults s.new.table.calls)
        (result ≡ Err Rc.CallbackError) }
{
    let thread = object_of(s, Kind::Thread, found)?;
    let debug = runtime_word(s, Field::RuntimeDebug)?;
    if debug == 0 {
        return Err(Rc::NeedsStateTracking);
    }
    let state = word(s, thread.addr, Field::ThreadState, 0)?;
    Ok((state_of(state), wait_of(state)))
}

/// The state of a thread and the id on which it waits. NeedsStateTracking where the target keeps no states.
pub fn get_state<C: Callbacks, F: ToHost>(
    s: &mut Session<C, F>,
    t: ThreadHandle,
) -> Result<(u32, u64), Rc>
    ensures answer { Answers C.told C.asked s.old s.new result
        (inquiry.state s.old.layout (get s.old.handles.held (thread_pair t))) }
    ensures shown { OfThread (C.told s.old.table.calls) s.old.layout
        (get s.old.handles.held (thread_pair t))
        (λ state thread. IsGiven result (state_of_thread state thread)) }
    ensures memory { result ≢ Err Rc.NoMem }
    ensures same { StaysWhole C.told s.old s.new }
    ensures cause { HasCause (C.faults s.old.table.calls) (C.faults s.new.table.calls)
        (result ≡ Err Rc.CallbackError) }
{
    let found = s.find(t.key, t.serial);
    state_of_thread(s, found)
}
