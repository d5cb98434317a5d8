//! The order and the release of task handles. No word is read.

ghost use Rattle.std.specs.Prelude.{◌≡◌};
ghost use Rattle.std.specs.FinMap.{get};
ghost use Rattle.omi_handle.specs.declared.handle.Kind.TheVariants.{Task};
ghost use Rattle.omi_session.specs.Made.{task_pair};
ghost use Rattle.omi_session.specs.Handles.{LetsGo, handle_cmp};

use omi_calls::{Callbacks, ToHost};
use omi_handle::{Kind, TaskHandle};
use omi_session::{Rc, Session, compare, let_go};
use std::cmp::Ordering;

/// The order of two task handles: by the addresses of their records, then by life word.
pub fn task_handle_compare<C: Callbacks, F: ToHost>(
    s: &mut Session<C, F>,
    a: TaskHandle,
    b: TaskHandle,
) -> Result<Ordering, Rc>
    ensures order { result ≡ handle_cmp Task (get s.old.handles.held (task_pair a))
        (get s.old.handles.held (task_pair b)) }
    ensures same { s.new ≡ s.old }
{
    compare(s, Kind::Task, (a.key, a.serial), (b.key, b.serial))
}

/// Lets go of a task handle.
pub fn rel_task_handle<C: Callbacks, F: ToHost>(
    s: &mut Session<C, F>,
    h: TaskHandle,
) -> Result<(), Rc>
    ensures { LetsGo Task (task_pair h) s.old s.new result }
{
    let_go(s, Kind::Task, h.key, h.serial)
}
