//! The inquiries that find a thread, and its native id.

ghost use Rattle.std.specs.Prelude.{◌≡◌, ◌≢◌, ◌+◌, ◌-◌, ◌^◌, ◌<◌, ◌≤◌, Err, IfOk, IfSome};
ghost use Rattle.std.specs.FinMap.{get};
ghost use Rattle.std.specs.List.{range_with_len};
ghost use Rattle.omi_layout.specs.Table.{thread_count};
ghost use Rattle.omi_outside.specs.Outside.{HasCause};
ghost use Rattle.omi_handle.specs.declared.handle.Kind.TheVariants.{Thread};
ghost use Rattle.omi_session.specs.Named.{IsNamed, IsOfKind};
ghost use Rattle.omi_session.specs.Opened.{Stays, StaysWhole};
ghost use Rattle.omi_session.specs.Reads.{Answers};
ghost use Rattle.omi_session.specs.Made.{Makes, Answered, as_pair, region_pair, thread_pair};
ghost use Rattle.omi_session.specs.Answers as answer;
ghost use Rattle.omi_session.specs.Shown.{OfState, OfThread, OfRegion, GivesThread, IsGiven};
ghost use Rattle.omi_ask.specs.Threads as inquiry;

use omi_calls::{Callbacks, ToHost};
use omi_handle::{Held, Kind, RegionHandle, ThreadHandle};
use omi_layout::{Field, Layout};
use omi_session::{Rc, Session, follow, hand_thread, live_handle_of, member_of, unchanged, word};

/// Whether the thread of a number has begun and has a native id.
fn has_id<C: Callbacks, F: ToHost>(s: &mut Session<C, F>, native: u64, i: u8) -> Result<bool, Rc>
    requires { i < thread_count s.old.layout }
    ensures answer { Answers C.told C.asked s.old s.new result
        (inquiry.has_id s.old.layout native i) }
    ensures memory { result ≢ Err Rc.NoMem }
    ensures same { StaysWhole C.told s.old s.new }
    ensures cause { HasCause (C.faults s.old.table.calls) (C.faults s.new.table.calls)
        (result ≡ Err Rc.CallbackError) }
{
    let addr = s.layout().thread_at(i);
    let life = word(s, addr, Field::ThreadLife, 0)?;
    if life != 1 {
        return Ok(false);
    }
    let id = word(s, addr, Field::ThreadNative, 0)?;
    Ok(id == native)
}

/// The object of a thread that has begun.
fn begun(layout: &Layout, i: u8) -> Held
    requires { i < thread_count layout.now.table }
    ensures value { result ≡ inquiry.begun layout.now.table i }
    ensures named { IsOfKind layout.now.table Thread result }
{
    Held {
        kind: Kind::Thread,
        addr: layout.thread_at(i),
        life: 1,
    }
}

/// The first thread that has begun and has a native id.
fn first_with<C: Callbacks, F: ToHost>(s: &mut Session<C, F>, native: u64) -> Result<Held, Rc>
    ensures answer { Answers C.told C.asked s.old s.new result (inquiry.first_with s.old.layout
        native (range_with_len 0 (thread_count s.old.layout))) }
    ensures named { IfOk result (IsOfKind s.old.layout Thread) }
    ensures memory { result ≢ Err Rc.NoMem }
    ensures same { StaysWhole C.told s.old s.new }
    ensures cause { HasCause (C.faults s.old.table.calls) (C.faults s.new.table.calls)
        (result ≡ Err Rc.CallbackError) }
{
    for i in 0..s.layout().threads() {
        if has_id(s, native, i)? {
            return Ok(begun(s.layout(), i));
        }
    }
    Err(Rc::Unavailable)
}

/// The thread with a native id of a kind. Unsupported for another kind of ids than 0, and Unavailable where no thread that has begun has
/// the id.
pub fn thread_with<C: Callbacks, F: ToHost>(
    s: &mut Session<C, F>,
    kind: u32,
    native: u64,
) -> Result<Held, Rc>
    ensures answer { Answers C.told C.asked s.old s.new result
        (inquiry.thread_with s.old.layout kind native) }
    ensures named { IfOk result (IsOfKind s.old.layout Thread) }
    ensures memory { result ≢ Err Rc.NoMem }
    ensures same { StaysWhole C.told s.old s.new }
    ensures cause { HasCause (C.faults s.old.table.calls) (C.faults s.new.table.calls)
        (result ≡ Err Rc.CallbackError) }
{
    if kind == 0 {
        first_with(s, native)
    } else {
        Err(Rc::Unsupported)
    }
}

/// The thread of a member of what is held as a region, by the member's number. BadInput where the region has no such member.
pub fn thread_of_member_of<C: Callbacks, F: ToHost>(
    s: &mut Session<C, F>,
    found: Option<Held>,
    num: u32,
) -> Result<Held, Rc>
    requires { IfSome found (IsNamed s.old.layout) }
    ensures answer { Answers C.told C.asked s.old s.new result
        (inquiry.thread_of_member s.old.layout found num) }
    ensures named { IfOk result (IsOfKind s.old.layout Thread) }
    ensures memory { result ≢ Err Rc.NoMem }
    ensures same { StaysWhole C.told s.old s.new }
    ensures cause { HasCause (C.faults s.old.table.calls) (C.faults s.new.table.calls)
        (result ≡ Err Rc.CallbackError) }
{
    let task = member_of(s, found, num)?;
    follow(s, Kind::Thread, task.addr, Field::TaskThread, 0)
}

/// The native id of what is held as a thread. Unsupported for another kind of ids than 0.
pub fn native_id_of<C: Callbacks, F: ToHost>(
    s: &mut Session<C, F>,
    kind: u32,
    found: Option<Held>,
) -> Result<u64, Rc>
    requires { IfSome found (IsNamed s.old.layout) }
    ensures answer { Answers C.told C.asked s.old s.new result
        (inquiry.native_id s.old.layout kind found) }
    ensures memory { result ≢ Err Rc.NoMem }
    ensures same { StaysWhole C.told s.old s.new }
    ensures cause { HasCause (C.faults s.old.table.calls) (C.faults s.new.table.calls)
        (result ≡ Err Rc.CallbackError) }
{
    let thread = live_handle_of(s.layout(), Kind::Thread, found)?;
    if kind != 0 {
        return Err(Rc::Unsupported);
    }
    let thread = unchanged(s, thread)?;
    word(s, thread.addr, Field::ThreadNative, 0)
}

/// The thread with a native id. Unsupported for another kind of ids than 0, and Unavailable where no thread that has begun has the id.
pub fn get_thread_handle<C: Callbacks, F: ToHost>(
    s: &mut Session<C, F>,
    kind: u32,
    native: u64,
) -> Result<ThreadHandle, Rc>
    requires { s.old.handles.made < 2 ^ 64 - 1 }
    ensures answer { Answered C.told C.asked s.old s.new (as_pair thread_pair result)
        (inquiry.thread_with s.old.layout kind native) }
    ensures shown { OfState (C.told s.old.table.calls) s.old.layout (λ state.
        GivesThread s.old.layout s.new.handles (as_pair thread_pair result)
        (answer.thread_with state kind native)) }
    ensures handles { Makes Thread s.old.handles s.new.handles (as_pair thread_pair result) }
    ensures room { s.old.handles.room ≤ s.new.handles.room + 1 }
    ensures stays { Stays C.told s.old s.new }
    ensures cause { HasCause (C.faults s.old.table.calls) (C.faults s.new.table.calls)
        (result ≡ Err Rc.CallbackError) }
{
    let found = thread_with(s, kind, native);
    hand_thread(s, found)
}

/// The thread of a member of a region, by the member's number. BadInput where the region has no such member.
pub fn get_thread_in_parallel<C: Callbacks, F: ToHost>(
    s: &mut Session<C, F>,
    r: RegionHandle,
    num: u32,
) -> Result<ThreadHandle, Rc>
    requires { s.old.handles.made < 2 ^ 64 - 1 }
    ensures answer { Answered C.told C.asked s.old s.new (as_pair thread_pair result)
        (inquiry.thread_of_member s.old.layout (get s.old.handles.held (r.key, r.serial)) num) }
    ensures shown { OfRegion (C.told s.old.table.calls) s.old.layout
        (get s.old.handles.held (region_pair r)) (λ region. GivesThread s.old.layout
        s.new.handles (as_pair thread_pair result) (answer.thread_of_member region num)) }
    ensures handles { Makes Thread s.old.handles s.new.handles (as_pair thread_pair result) }
    ensures room { s.old.handles.room ≤ s.new.handles.room + 1 }
    ensures stays { Stays C.told s.old s.new }
    ensures cause { HasCause (C.faults s.old.table.calls) (C.faults s.new.table.calls)
        (result ≡ Err Rc.CallbackError) }
{
    let held = s.find(r.key, r.serial);
    let found = thread_of_member_of(s, held, num);
    hand_thread(s, found)
}

/// The native id of a thread. Unsupported for another kind of ids than 0.
pub fn get_thread_id<C: Callbacks, F: ToHost>(
    s: &mut Session<C, F>,
    kind: u32,
    t: ThreadHandle,
) -> Result<u64, Rc>
    ensures answer { Answers C.told C.asked s.old s.new result
        (inquiry.native_id s.old.layout kind (get s.old.handles.held (t.key, t.serial))) }
    ensures shown { OfThread (C.told s.old.table.calls) s.old.layout
        (get s.old.handles.held (thread_pair t))
        (λ state thread. IsGiven result (answer.id_of_thread kind thread)) }
    ensures memory { result ≢ Err Rc.NoMem }
    ensures same { StaysWhole C.told s.old s.new }
    ensures cause { HasCause (C.faults s.old.table.calls) (C.faults s.new.table.calls)
        (result ≡ Err Rc.CallbackError) }
{
    let found = s.find(t.key, t.serial);
    native_id_of(s, kind, found)
}
