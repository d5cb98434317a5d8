//! The inquiries that find a region.

ghost use Rattle.std.specs.Prelude.{◌≡◌, ◌≢◌, ◌+◌, ◌-◌, ◌^◌, ◌<◌, ◌≤◌, Err, IfOk, IfSome};
ghost use Rattle.std.specs.FinMap.{get};
ghost use Rattle.omi_outside.specs.Outside.{HasCause};
ghost use Rattle.omi_handle.specs.declared.handle.Kind.TheVariants.{Region};
ghost use Rattle.omi_session.specs.Named.{IsNamed, IsOfKind};
ghost use Rattle.omi_session.specs.Opened.{Stays, StaysWhole};
ghost use Rattle.omi_session.specs.Reads.{Answers};
ghost use Rattle.omi_session.specs.Made.{Makes, Answered, as_pair, region_pair, task_pair, thread_pair};
ghost use Rattle.omi_session.specs.Answers as answer;
ghost use Rattle.omi_session.specs.Shown.{OfThread, OfRegion, OfTask, GivesRegion};
ghost use Rattle.omi_ask.specs.Regions as inquiry;

use omi_calls::{Callbacks, ToHost};
use omi_handle::{Held, Kind, RegionHandle, TaskHandle, ThreadHandle};
use omi_layout::Field;
use omi_session::{Rc, Session, current_task_of, follow, hand_region, object_of, related_of};

/// The region of the current task of what is held as a thread. Unavailable where it has none.
pub fn current_region_of<C: Callbacks, F: ToHost>(
    s: &mut Session<C, F>,
    found: Option<Held>,
) -> Result<Held, Rc>
    requires { IfSome found (IsNamed s.old.layout) }
    ensures answer { Answers C.told C.asked s.old s.new result
        (inquiry.current_region s.old.layout found) }
    ensures named { IfOk result (IsOfKind s.old.layout Region) }
    ensures memory { result ≢ Err Rc.NoMem }
    ensures same { StaysWhole C.told s.old s.new }
    ensures cause { HasCause (C.faults s.old.table.calls) (C.faults s.new.table.calls)
        (result ≡ Err Rc.CallbackError) }
{
    let task = current_task_of(s, found)?;
    follow(s, Kind::Region, task.addr, Field::TaskRegion, 0)
}

/// The region that encloses what is held as a region. Unavailable of the outermost one.
#[tactic(auto, unfolding(crate::specs::Regions::enclosing_region))]
pub fn enclosing_region_of<C: Callbacks, F: ToHost>(
    s: &mut Session<C, F>,
    found: Option<Held>,
) -> Result<Held, Rc>
    requires { IfSome found (IsNamed s.old.layout) }
    ensures answer { Answers C.told C.asked s.old s.new result
        (inquiry.enclosing_region s.old.layout found) }
    ensures named { IfOk result (IsOfKind s.old.layout Region) }
    ensures memory { result ≢ Err Rc.NoMem }
    ensures same { StaysWhole C.told s.old s.new }
    ensures cause { HasCause (C.faults s.old.table.calls) (C.faults s.new.table.calls)
        (result ≡ Err Rc.CallbackError) }
{
    related_of(s, Kind::Region, found, Kind::Region, Field::RegionEnclosing)
}

/// The region of what is held as a task.
pub fn region_of_task_of<C: Callbacks, F: ToHost>(
    s: &mut Session<C, F>,
    found: Option<Held>,
) -> Result<Held, Rc>
    requires { IfSome found (IsNamed s.old.layout) }
    ensures answer { Answers C.told C.asked s.old s.new result
        (inquiry.region_of_task s.old.layout found) }
    ensures named { IfOk result (IsOfKind s.old.layout Region) }
    ensures memory { result ≢ Err Rc.NoMem }
    ensures same { StaysWhole C.told s.old s.new }
    ensures cause { HasCause (C.faults s.old.table.calls) (C.faults s.new.table.calls)
        (result ≡ Err Rc.CallbackError) }
{
    let task = object_of(s, Kind::Task, found)?;
    follow(s, Kind::Region, task.addr, Field::TaskRegion, 0)
}

/// The region of a thread's current task. Unavailable where it has none.
pub fn get_curr_parallel_handle<C: Callbacks, F: ToHost>(
    s: &mut Session<C, F>,
    t: ThreadHandle,
) -> Result<RegionHandle, Rc>
    requires { s.old.handles.made < 2 ^ 64 - 1 }
    ensures answer { Answered C.told C.asked s.old s.new (as_pair region_pair result)
        (inquiry.current_region s.old.layout (get s.old.handles.held (t.key, t.serial))) }
    ensures shown { OfThread (C.told s.old.table.calls) s.old.layout
        (get s.old.handles.held (thread_pair t)) (λ state thread. GivesRegion s.old.layout
        s.new.handles (as_pair region_pair result) (answer.region_of_thread state thread)) }
    ensures handles { Makes Region s.old.handles s.new.handles (as_pair region_pair result) }
    ensures room { s.old.handles.room ≤ s.new.handles.room + 1 }
    ensures stays { Stays C.told s.old s.new }
    ensures cause { HasCause (C.faults s.old.table.calls) (C.faults s.new.table.calls)
        (result ≡ Err Rc.CallbackError) }
{
    let held = s.find(t.key, t.serial);
    let found = current_region_of(s, held);
    hand_region(s, found)
}

/// The region that encloses a region. Unavailable of the outermost one.
pub fn get_enclosing_parallel_handle<C: Callbacks, F: ToHost>(
    s: &mut Session<C, F>,
    r: RegionHandle,
) -> Result<RegionHandle, Rc>
    requires { s.old.handles.made < 2 ^ 64 - 1 }
    ensures answer { Answered C.told C.asked s.old s.new (as_pair region_pair result)
        (inquiry.enclosing_region s.old.layout (get s.old.handles.held (r.key, r.serial))) }
    ensures shown { OfRegion (C.told s.old.table.calls) s.old.layout
        (get s.old.handles.held (region_pair r)) (λ region. GivesRegion s.old.layout
        s.new.handles (as_pair region_pair result) (answer.enclosing_region region)) }
    ensures handles { Makes Region s.old.handles s.new.handles (as_pair region_pair result) }
    ensures room { s.old.handles.room ≤ s.new.handles.room + 1 }
    ensures stays { Stays C.told s.old s.new }
    ensures cause { HasCause (C.faults s.old.table.calls) (C.faults s.new.table.calls)
        (result ≡ Err Rc.CallbackError) }
{
    let held = s.find(r.key, r.serial);
    let found = enclosing_region_of(s, held);
    hand_region(s, found)
}

/// The region of a task.
pub fn get_task_parallel_handle<C: Callbacks, F: ToHost>(
    s: &mut Session<C, F>,
    k: TaskHandle,
) -> Result<RegionHandle, Rc>
    requires { s.old.handles.made < 2 ^ 64 - 1 }
    ensures answer { Answered C.told C.asked s.old s.new (as_pair region_pair result)
        (inquiry.region_of_task s.old.layout (get s.old.handles.held (k.key, k.serial))) }
    ensures shown { OfTask (C.told s.old.table.calls) s.old.layout
        (get s.old.handles.held (task_pair k)) (λ task. GivesRegion s.old.layout
        s.new.handles (as_pair region_pair result) (answer.region_of_task task)) }
    ensures handles { Makes Region s.old.handles s.new.handles (as_pair region_pair result) }
    ensures room { s.old.handles.room ≤ s.new.handles.room + 1 }
    ensures stays { Stays C.told s.old s.new }
    ensures cause { HasCause (C.faults s.old.table.calls) (C.faults s.new.table.calls)
        (result ≡ Err Rc.CallbackError) }
{
    let held = s.find(k.key, k.serial);
    let found = region_of_task_of(s, held);
    hand_region(s, found)
}
