//! What is asked of a thread, and its row.

ghost use Rattle.std.specs.Prelude.{◌≡◌, ◌<◌, ◌^◌, Option, Ok, Err, IfOk, IfSome};
ghost use Rattle.omi_handle.specs.declared.handle.Kind.TheVariants.{Thread, Task};
ghost use Rattle.omi_outside.specs.Outside.{HasCause};
ghost use Rattle.omi_session.specs.Made.{thread_pair};
ghost use Rattle.omi_walk.specs.Leaves.{Leaves};
ghost use Rattle.omi_walk.specs.Objects.{IsMet};
ghost use Rattle.std.specs.FinMap.{get};
ghost use Rattle.omi_walk.specs.Walks.{Walks};
ghost use Rattle.omi_walk.specs.AskThreads.{ask_thread_with, ask_state, ask_number, ask_part, ask_thread};

use crate::WalkFault;
use crate::fault::{absent, absent_from, untracked};
use crate::met::{Met, hand, let_go, task_name};
use crate::related::{Relation, related_of};
use omi_ask::get_thread_handle;
use omi_calls::{Callbacks, ToHost};
use omi_handle::{Kind, ThreadHandle};
use omi_icv::{Scoped, get_icv_from_scope, get_state};
use omi_layout::Field;
use omi_model::{ThreadPart, ThreadRow};
use omi_numbers::THREAD_NUM_VAR;
use omi_session::Session;

/// What is seen of a thread, and its current task.
#[derive(Clone, Copy)]
pub struct SeenPart {
    pub part: ThreadPart,
    pub current: Option<Met>,
}

/// The row of a context, and the current task of its thread.
#[derive(Clone, Copy)]
pub struct SeenThread {
    pub row: ThreadRow,
    pub current: Option<Met>,
}

/// The thread that has begun and has a native id, where there is one.
fn thread_with<C: Callbacks, F: ToHost>(
    s: &mut Session<C, F>,
    native: u64,
) -> Result<Option<Met>, WalkFault>
    requires { s.old.handles.made < 2 ^ 62 }
    ensures reads { Walks C.told C.asked s.old s.new result
        (ask_thread_with s.old.layout native) }
    ensures met { IfOk result (λ o. IfSome o (IsMet C.told s.new Thread)) }
    ensures leaves { Leaves C.told 1 s.old s.new }
    ensures cause { HasCause (C.faults s.old.table.calls) (C.faults s.new.table.calls)
        (result ≡ Err WalkFault.Callback) }
{
    // the proof takes from the layout's type that it is valid
    let _layout = s.layout();
    match get_thread_handle(s, 0, native) {
        Ok(found) => Ok(Some(let_go(s, Kind::Thread, (found.key, found.serial)))),
        Err(rc) => absent_from(None, rc),
    }
}

/// The state of a thread and the id on which it waits, where the target keeps states.
fn state_of<C: Callbacks, F: ToHost>(
    s: &mut Session<C, F>,
    t: ThreadHandle,
) -> Result<Option<(u32, u64)>, WalkFault>
    ensures reads { Walks C.told C.asked s.old s.new result
        (ask_state s.old.layout (get s.old.handles.held (thread_pair t))) }
    ensures leaves { Leaves C.told 0 s.old s.new }
    ensures cause { HasCause (C.faults s.old.table.calls) (C.faults s.new.table.calls)
        (result ≡ Err WalkFault.Callback) }
{
    match get_state(s, t) {
        Ok(state) => Ok(Some(state)),
        Err(rc) => untracked(s, (t.key, t.serial), rc),
    }
}

/// The number of a thread in the team of its current task, where it has one.
fn number_of<C: Callbacks, F: ToHost>(
    s: &mut Session<C, F>,
    t: ThreadHandle,
) -> Result<Option<u64>, WalkFault>
    ensures reads { Walks C.told C.asked s.old s.new result
        (ask_number s.old.layout (get s.old.handles.held (thread_pair t))) }
    ensures leaves { Leaves C.told 0 s.old s.new }
    ensures cause { HasCause (C.faults s.old.table.calls) (C.faults s.new.table.calls)
        (result ≡ Err WalkFault.Callback) }
{
    match get_icv_from_scope(s, Scoped::Thread(t), THREAD_NUM_VAR) {
        Ok(number) => Ok(Some(number)),
        Err(rc) => absent(s, (t.key, t.serial), rc),
    }
}

/// What a report says of a thread with this number.
fn part_of<C: Callbacks, F: ToHost>(
    s: &mut Session<C, F>,
    t: ThreadHandle,
    thread: u8,
) -> Result<SeenPart, WalkFault>
    requires { s.old.handles.made < 2 ^ 61 }
    ensures reads { Walks C.told C.asked s.old s.new result
        (ask_part s.old.layout thread (get s.old.handles.held (thread_pair t))) }
    ensures met { IfOk result (λ seen. IfSome seen.current (IsMet C.told s.new Task)) }
    ensures leaves { Leaves C.told 1 s.old s.new }
    ensures cause { HasCause (C.faults s.old.table.calls) (C.faults s.new.table.calls)
        (result ≡ Err WalkFault.Callback) }
{
    let state = state_of(s, t)?;
    let current = related_of(s, Relation::Current(t))?;
    let number = number_of(s, t)?;
    Ok(SeenPart {
        part: ThreadPart {
            thread,
            state,
            number,
            current: task_name(current),
        },
        current,
    })
}

/// The row of a context with this native id, and the current task of its thread: what thread, if one that has begun has this id, in which
/// state and with which number in its team. The ids that are tried are those of the layout's threads, from thread 0 on.
pub fn thread_row<C: Callbacks, F: ToHost>(
    s: &mut Session<C, F>,
    native: u64,
) -> Result<SeenThread, WalkFault>
    requires { s.old.handles.made < 2 ^ 60 }
    ensures reads { Walks C.told C.asked s.old s.new result (ask_thread s.old.layout native) }
    ensures met { IfOk result (λ seen. IfSome seen.current (IsMet C.told s.new Task)) }
    ensures leaves { Leaves C.told 3 s.old s.new }
    ensures cause { HasCause (C.faults s.old.table.calls) (C.faults s.new.table.calls)
        (result ≡ Err WalkFault.Callback) }
{
    let Some(t) = thread_with(s, native)? else {
        return Ok(SeenThread {
            row: ThreadRow {
                native,
                found: None,
            },
            current: None,
        });
    };
    let (key, serial) = hand(s, t)?;
    let seen = part_of(s, ThreadHandle { key, serial }, t.name.creator);
    s.release(key, serial);
    let seen = seen?;
    Ok(SeenThread {
        row: ThreadRow {
            native,
            found: Some(seen.part),
        },
        current: seen.current,
    })
}
