//! The objects of a thread and of a region that several inquiries begin with: a thread's current task, and a member's task.

ghost use Rattle.std.specs.Prelude.{◌≡◌, ◌≢◌, ◌≤◌, Err, IfOk, IfSome};
ghost use Rattle.std.specs.FinMap.{get};
ghost use Rattle.omi_outside.specs.Outside.{HasCause};
ghost use Rattle.omi_layout.specs.declared.limits.TheConstants.{LAST_END};
ghost use Rattle.omi_handle.specs.declared.handle.Kind.TheVariants.{Task};
ghost use Rattle.omi_session.specs.Named.{IsNamed, IsOfKind};
ghost use Rattle.omi_session.specs.Opened.{StaysWhole};
ghost use Rattle.omi_session.specs.Reads.{Answers};
ghost use Rattle.omi_session.specs.Inquiry as inquiry;

use crate::asking::{follow, word};
use crate::objects::{object_of, related_of};
use crate::rc::Rc;
use crate::session::Session;
use omi_calls::{Callbacks, ToHost};
use omi_handle::{Held, Kind, RegionHandle, ThreadHandle};
use omi_layout::Field;

/// The current task of what is held as a thread. Where it has none, Unavailable.
#[tactic(auto, unfolding(crate::specs::Inquiry::current_task))]
pub fn current_task_of<C: Callbacks, F: ToHost>(
    s: &mut Session<C, F>,
    found: Option<Held>,
) -> Result<Held, Rc>
    requires { IfSome found (IsNamed s.old.layout) }
    ensures answer { Answers C.told C.asked s.old s.new result
        (inquiry.current_task s.old.layout found) }
    ensures named { IfOk result (IsOfKind s.old.layout Task) }
    ensures memory { result ≢ Err Rc.NoMem }
    ensures same { StaysWhole C.told s.old s.new }
    ensures cause { HasCause (C.faults s.old.table.calls) (C.faults s.new.table.calls)
        (result ≡ Err Rc.CallbackError) }
{
    related_of(s, Kind::Thread, found, Kind::Task, Field::ThreadCurrent)
}

/// The current task of a thread. Where it has none, Unavailable.
pub fn current_task<C: Callbacks, F: ToHost>(
    s: &mut Session<C, F>,
    t: ThreadHandle,
) -> Result<Held, Rc>
    ensures answer { Answers C.told C.asked s.old s.new result
        (inquiry.current_task s.old.layout (get s.old.handles.held (t.key, t.serial))) }
    ensures named { IfOk result (IsOfKind s.old.layout Task) }
    ensures memory { result ≢ Err Rc.NoMem }
    ensures same { StaysWhole C.told s.old s.new }
    ensures cause { HasCause (C.faults s.old.table.calls) (C.faults s.new.table.calls)
        (result ≡ Err Rc.CallbackError) }
{
    let found = s.find(t.key, t.serial);
    current_task_of(s, found)
}

/// The number of members of the region at a byte address. An Error where it isn't from 1 to the number of threads.
pub fn team_size<C: Callbacks, F: ToHost>(s: &mut Session<C, F>, address: u64) -> Result<u64, Rc>
    requires { address ≤ LAST_END }
    ensures answer { Answers C.told C.asked s.old s.new result
        (inquiry.team_size s.old.layout address) }
    ensures few { IfOk result (λ size. size ≤ 64) }
    ensures memory { result ≢ Err Rc.NoMem }
    ensures same { StaysWhole C.told s.old s.new }
    ensures cause { HasCause (C.faults s.old.table.calls) (C.faults s.new.table.calls)
        (result ≡ Err Rc.CallbackError) }
{
    let size = word(s, address, Field::RegionSize, 0)?;
    let most = u64::from(s.layout().threads());
    if 1 <= size && size <= most {
        Ok(size)
    } else {
        Err(Rc::Error {
            addr: address,
            field: Field::RegionSize.number(),
        })
    }
}

/// The implicit task of a member of what is held as a region. BadInput where the region has no member of this number.
pub fn member_of<C: Callbacks, F: ToHost>(
    s: &mut Session<C, F>,
    found: Option<Held>,
    num: u32,
) -> Result<Held, Rc>
    requires { IfSome found (IsNamed s.old.layout) }
    ensures answer { Answers C.told C.asked s.old s.new result
        (inquiry.member s.old.layout found num) }
    ensures named { IfOk result (IsOfKind s.old.layout Task) }
    ensures memory { result ≢ Err Rc.NoMem }
    ensures same { StaysWhole C.told s.old s.new }
    ensures cause { HasCause (C.faults s.old.table.calls) (C.faults s.new.table.calls)
        (result ≡ Err Rc.CallbackError) }
{
    let region = object_of(s, Kind::Region, found)?;
    let size = team_size(s, region.addr)?;
    let num = u64::from(num);
    if num < size {
        follow(s, Kind::Task, region.addr, Field::RegionTeam, num)
    } else {
        Err(Rc::BadInput)
    }
}

/// The implicit task of a member of a region. BadInput where the region has no member of this number.
pub fn member<C: Callbacks, F: ToHost>(
    s: &mut Session<C, F>,
    r: RegionHandle,
    num: u32,
) -> Result<Held, Rc>
    ensures answer { Answers C.told C.asked s.old s.new result
        (inquiry.member s.old.layout (get s.old.handles.held (r.key, r.serial)) num) }
    ensures named { IfOk result (IsOfKind s.old.layout Task) }
    ensures memory { result ≢ Err Rc.NoMem }
    ensures same { StaysWhole C.told s.old s.new }
    ensures cause { HasCause (C.faults s.old.table.calls) (C.faults s.new.table.calls)
        (result ≡ Err Rc.CallbackError) }
{
    let found = s.find(r.key, r.serial);
    member_of(s, found, num)
}
