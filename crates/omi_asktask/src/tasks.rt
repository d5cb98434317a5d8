//! The inquiries that find a task.

ghost use Rattle.std.specs.Prelude.{◌≡◌, ◌≢◌, ◌+◌, ◌-◌, ◌^◌, ◌<◌, ◌≤◌, Err, IfOk, IfSome};
ghost use Rattle.std.specs.FinMap.{get};
ghost use Rattle.omi_outside.specs.Outside.{HasCause};
ghost use Rattle.omi_handle.specs.declared.handle.Kind.TheVariants.{Task};
ghost use Rattle.omi_session.specs.Named.{IsNamed, IsOfKind};
ghost use Rattle.omi_session.specs.Opened.{Stays, StaysWhole};
ghost use Rattle.omi_session.specs.Reads.{Answers};
ghost use Rattle.omi_session.specs.Made.{Makes, Answered, as_pair, region_pair, task_pair, thread_pair};
ghost use Rattle.omi_session.specs.Inquiry as part;
ghost use Rattle.omi_session.specs.Answers as answer;
ghost use Rattle.omi_session.specs.Shown.{OfThread, OfRegion, OfTask, GivesTask};
ghost use Rattle.omi_asktask.specs.Tasks as inquiry;

use omi_calls::{Callbacks, ToHost};
use omi_handle::{Held, Kind, RegionHandle, TaskHandle, ThreadHandle};
use omi_layout::Field;
use omi_session::{Rc, Session, current_task_of, hand_task, member_of, related_of};

/// The task that made what is held as a task. Unavailable of the initial one.
#[tactic(auto, unfolding(crate::specs::Tasks::generating_task))]
pub fn generating_task_of<C: Callbacks, F: ToHost>(
    s: &mut Session<C, F>,
    found: Option<Held>,
) -> Result<Held, Rc>
    requires { IfSome found (IsNamed s.old.layout) }
    ensures answer { Answers C.told C.asked s.old s.new result
        (inquiry.generating_task s.old.layout found) }
    ensures named { IfOk result (IsOfKind s.old.layout Task) }
    ensures memory { result ≢ Err Rc.NoMem }
    ensures same { StaysWhole C.told s.old s.new }
    ensures cause { HasCause (C.faults s.old.table.calls) (C.faults s.new.table.calls)
        (result ≡ Err Rc.CallbackError) }
{
    related_of(s, Kind::Task, found, Kind::Task, Field::TaskGenerating)
}

/// The task that was left for what is held as a task on its thread. Unavailable where there is none.
#[tactic(auto, unfolding(crate::specs::Tasks::scheduling_task))]
pub fn scheduling_task_of<C: Callbacks, F: ToHost>(
    s: &mut Session<C, F>,
    found: Option<Held>,
) -> Result<Held, Rc>
    requires { IfSome found (IsNamed s.old.layout) }
    ensures answer { Answers C.told C.asked s.old s.new result
        (inquiry.scheduling_task s.old.layout found) }
    ensures named { IfOk result (IsOfKind s.old.layout Task) }
    ensures memory { result ≢ Err Rc.NoMem }
    ensures same { StaysWhole C.told s.old s.new }
    ensures cause { HasCause (C.faults s.old.table.calls) (C.faults s.new.table.calls)
        (result ≡ Err Rc.CallbackError) }
{
    related_of(s, Kind::Task, found, Kind::Task, Field::TaskScheduling)
}

/// The current task of a thread. Unavailable where it has none.
pub fn get_curr_task_handle<C: Callbacks, F: ToHost>(
    s: &mut Session<C, F>,
    t: ThreadHandle,
) -> Result<TaskHandle, Rc>
    requires { s.old.handles.made < 2 ^ 64 - 1 }
    ensures answer { Answered C.told C.asked s.old s.new (as_pair task_pair result)
        (part.current_task s.old.layout (get s.old.handles.held (t.key, t.serial))) }
    ensures shown { OfThread (C.told s.old.table.calls) s.old.layout
        (get s.old.handles.held (thread_pair t)) (λ state thread. GivesTask s.old.layout
        s.new.handles (as_pair task_pair result) (answer.task_of_thread state thread)) }
    ensures handles { Makes Task s.old.handles s.new.handles (as_pair task_pair result) }
    ensures room { s.old.handles.room ≤ s.new.handles.room + 1 }
    ensures stays { Stays C.told s.old s.new }
    ensures cause { HasCause (C.faults s.old.table.calls) (C.faults s.new.table.calls)
        (result ≡ Err Rc.CallbackError) }
{
    let held = s.find(t.key, t.serial);
    let found = current_task_of(s, held);
    hand_task(s, found)
}

/// The task that made a task. Unavailable of the initial one.
pub fn get_generating_task_handle<C: Callbacks, F: ToHost>(
    s: &mut Session<C, F>,
    k: TaskHandle,
) -> Result<TaskHandle, Rc>
    requires { s.old.handles.made < 2 ^ 64 - 1 }
    ensures answer { Answered C.told C.asked s.old s.new (as_pair task_pair result)
        (inquiry.generating_task s.old.layout (get s.old.handles.held (k.key, k.serial))) }
    ensures shown { OfTask (C.told s.old.table.calls) s.old.layout
        (get s.old.handles.held (task_pair k)) (λ task. GivesTask s.old.layout
        s.new.handles (as_pair task_pair result) (answer.generating_task task)) }
    ensures handles { Makes Task s.old.handles s.new.handles (as_pair task_pair result) }
    ensures room { s.old.handles.room ≤ s.new.handles.room + 1 }
    ensures stays { Stays C.told s.old s.new }
    ensures cause { HasCause (C.faults s.old.table.calls) (C.faults s.new.table.calls)
        (result ≡ Err Rc.CallbackError) }
{
    let held = s.find(k.key, k.serial);
    let found = generating_task_of(s, held);
    hand_task(s, found)
}

/// The task that was left for a task on its thread. Unavailable where there is none.
pub fn get_scheduling_task_handle<C: Callbacks, F: ToHost>(
    s: &mut Session<C, F>,
    k: TaskHandle,
) -> Result<TaskHandle, Rc>
    requires { s.old.handles.made < 2 ^ 64 - 1 }
    ensures answer { Answered C.told C.asked s.old s.new (as_pair task_pair result)
        (inquiry.scheduling_task s.old.layout (get s.old.handles.held (k.key, k.serial))) }
    ensures shown { OfTask (C.told s.old.table.calls) s.old.layout
        (get s.old.handles.held (task_pair k)) (λ task. GivesTask s.old.layout
        s.new.handles (as_pair task_pair result) (answer.scheduling_task task)) }
    ensures handles { Makes Task s.old.handles s.new.handles (as_pair task_pair result) }
    ensures room { s.old.handles.room ≤ s.new.handles.room + 1 }
    ensures stays { Stays C.told s.old s.new }
    ensures cause { HasCause (C.faults s.old.table.calls) (C.faults s.new.table.calls)
        (result ≡ Err Rc.CallbackError) }
{
    let held = s.find(k.key, k.serial);
    let found = scheduling_task_of(s, held);
    hand_task(s, found)
}

/// The implicit task of a member of a region, by the member's number. BadInput where the region has no such member.
pub fn get_task_in_parallel<C: Callbacks, F: ToHost>(
    s: &mut Session<C, F>,
    r: RegionHandle,
    num: u32,
) -> Result<TaskHandle, Rc>
    requires { s.old.handles.made < 2 ^ 64 - 1 }
    ensures answer { Answered C.told C.asked s.old s.new (as_pair task_pair result)
        (part.member s.old.layout (get s.old.handles.held (r.key, r.serial)) num) }
    ensures shown { OfRegion (C.told s.old.table.calls) s.old.layout
        (get s.old.handles.held (region_pair r)) (λ region. GivesTask s.old.layout
        s.new.handles (as_pair task_pair result) (answer.task_of_member region num)) }
    ensures handles { Makes Task s.old.handles s.new.handles (as_pair task_pair result) }
    ensures room { s.old.handles.room ≤ s.new.handles.room + 1 }
    ensures stays { Stays C.told s.old s.new }
    ensures cause { HasCause (C.faults s.old.table.calls) (C.faults s.new.table.calls)
        (result ≡ Err Rc.CallbackError) }
{
    let held = s.find(r.key, r.serial);
    let found = member_of(s, held, num);
    hand_task(s, found)
}
