//! The name of a task, by its handle. No word is read.

ghost use Rattle.std.specs.Prelude.{◌≡◌, Ok};
ghost use Rattle.std.specs.FinMap.{get};
ghost use Rattle.omi_handle.specs.declared.handle.Kind.TheVariants.{Task};
ghost use Rattle.omi_session.specs.Inquiry.{live_handle};
ghost use Rattle.omi_session.specs.Made.{task_pair};
ghost use Rattle.omi_session.specs.Shown.{OfState, HoldsTask};
ghost use Rattle.omi_asktask.specs.Names.{IsTaskOf};

use omi_calls::{Callbacks, ToHost};
use omi_handle::{Kind, TaskHandle};
use omi_model::Tid;
use omi_session::{Rc, Session, name};

/// The name of a task.
pub fn task_id<C: Callbacks, F: ToHost>(s: &mut Session<C, F>, k: TaskHandle) -> Result<Tid, Rc>
    ensures name { IsTaskOf s.old.layout
        (live_handle Task (get s.old.handles.held (task_pair k))) result }
    ensures shown { OfState (C.told s.old.table.calls) s.old.layout (λ state.
        (task : HoldsTask s.old.layout state (get s.old.handles.held (task_pair k)))
        → result ≡ Ok task.name) }
    ensures same { s.new ≡ s.old }
{
    Ok(Tid(name(s, Kind::Task, k.key, k.serial)?))
}
