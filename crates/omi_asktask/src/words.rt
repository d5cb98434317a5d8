//! What is asked of a task itself: its function and its frames.

ghost use Rattle.std.specs.Prelude.{◌≡◌, ◌≢◌, Err, IfSome};
ghost use Rattle.std.specs.FinMap.{get};
ghost use Rattle.omi_outside.specs.Outside.{HasCause};
ghost use Rattle.omi_session.specs.Named.{IsNamed};
ghost use Rattle.omi_session.specs.Opened.{StaysWhole};
ghost use Rattle.omi_session.specs.Reads.{Answers};
ghost use Rattle.omi_session.specs.Made.{task_pair};
ghost use Rattle.omi_session.specs.Answers.{function_of_task};
ghost use Rattle.omi_session.specs.Shown.{OfTask, IsGiven};
ghost use Rattle.omi_asktask.specs.Frame.{flag_of};
ghost use Rattle.omi_asktask.specs.FramesOf.{frames_of_task};
ghost use Rattle.omi_asktask.specs.TaskWords as inquiry;

use omi_calls::{Callbacks, ToHost};
use omi_handle::{Held, Kind, TaskHandle};
use omi_layout::Field;
use omi_session::{Rc, Session, object_of, word};

/// The frames of a task: the byte addresses of the exit and the enter frame, each with its flag. An address is 0 where there is no such
/// frame.
#[derive(Clone, Copy, Debug, PartialEq, Eq)]
pub struct Frames {
    pub exit: u64,
    pub exit_flag: u8,
    pub enter: u64,
    pub enter_flag: u8,
}

/// The flag of a frame: application and frame pointer, and 0 where there is no frame.
fn flag(frame: u64) -> u8
    ensures { result ≡ flag_of frame }
{
    if frame == 0 { 0 } else { 0x21 }
}

/// The entry address of the function of what is held as a task.
pub fn function_of<C: Callbacks, F: ToHost>(
    s: &mut Session<C, F>,
    found: Option<Held>,
) -> Result<u64, Rc>
    requires { IfSome found (IsNamed s.old.layout) }
    ensures answer { Answers C.told C.asked s.old s.new result
        (inquiry.function s.old.layout found) }
    ensures memory { result ≢ Err Rc.NoMem }
    ensures same { StaysWhole C.told s.old s.new }
    ensures cause { HasCause (C.faults s.old.table.calls) (C.faults s.new.table.calls)
        (result ≡ Err Rc.CallbackError) }
{
    let task = object_of(s, Kind::Task, found)?;
    word(s, task.addr, Field::TaskFunction, 0)
}

/// The frames of what is held as a task.
pub fn frames_of<C: Callbacks, F: ToHost>(
    s: &mut Session<C, F>,
    found: Option<Held>,
) -> Result<Frames, Rc>
    requires { IfSome found (IsNamed s.old.layout) }
    ensures answer { Answers C.told C.asked s.old s.new result
        (inquiry.frames s.old.layout found) }
    ensures memory { result ≢ Err Rc.NoMem }
    ensures same { StaysWhole C.told s.old s.new }
    ensures cause { HasCause (C.faults s.old.table.calls) (C.faults s.new.table.calls)
        (result ≡ Err Rc.CallbackError) }
{
    let task = object_of(s, Kind::Task, found)?;
    let exit = word(s, task.addr, Field::TaskExit, 0)?;
    let enter = word(s, task.addr, Field::TaskEnter, 0)?;
    Ok(Frames {
        exit,
        exit_flag: flag(exit),
        enter,
        enter_flag: flag(enter),
    })
}

/// The entry address of a task's function.
pub fn get_task_function<C: Callbacks, F: ToHost>(
    s: &mut Session<C, F>,
    k: TaskHandle,
) -> Result<u64, Rc>
    ensures answer { Answers C.told C.asked s.old s.new result
        (inquiry.function s.old.layout (get s.old.handles.held (k.key, k.serial))) }
    ensures shown { OfTask (C.told s.old.table.calls) s.old.layout
        (get s.old.handles.held (task_pair k)) (λ task. IsGiven result (function_of_task task)) }
    ensures memory { result ≢ Err Rc.NoMem }
    ensures same { StaysWhole C.told s.old s.new }
    ensures cause { HasCause (C.faults s.old.table.calls) (C.faults s.new.table.calls)
        (result ≡ Err Rc.CallbackError) }
{
    let found = s.find(k.key, k.serial);
    function_of(s, found)
}

/// The frames of a task.
pub fn get_task_frame<C: Callbacks, F: ToHost>(
    s: &mut Session<C, F>,
    k: TaskHandle,
) -> Result<Frames, Rc>
    ensures answer { Answers C.told C.asked s.old s.new result
        (inquiry.frames s.old.layout (get s.old.handles.held (k.key, k.serial))) }
    ensures shown { OfTask (C.told s.old.table.calls) s.old.layout
        (get s.old.handles.held (task_pair k)) (λ task. IsGiven result (frames_of_task task)) }
    ensures memory { result ≢ Err Rc.NoMem }
    ensures same { StaysWhole C.told s.old s.new }
    ensures cause { HasCause (C.faults s.old.table.calls) (C.faults s.new.table.calls)
        (result ≡ Err Rc.CallbackError) }
{
    let found = s.find(k.key, k.serial);
    frames_of(s, found)
}
