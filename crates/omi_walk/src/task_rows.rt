//! The chains of the found threads, one after the other.

ghost use Rattle.std.specs.Prelude.{◌≡◌, ◌≤◌, ◌<◌, Err, length, All, IfOk};
ghost use Rattle.omi_walk.specs.declared.limits.TheConstants.{HANDLES_WITHIN};
ghost use Rattle.omi_outside.specs.Outside.{HasCause};
ghost use Rattle.omi_rep.specs.Look.{each};
ghost use Rattle.omi_walk.specs.FoundThreads.{IsFound};
ghost use Rattle.omi_walk.specs.Kept.{IsLive};
ghost use Rattle.omi_walk.specs.Leaves.{Leaves};
ghost use Rattle.omi_walk.specs.Walks.{Walks};
ghost use Rattle.omi_walk.specs.AskTasks.{ask_all_tasks};

use crate::WalkFault;
use crate::found::Found;
use crate::scheduling::task_chain;
use omi_calls::{Callbacks, ToHost};
use omi_list::List;
use omi_model::TaskRows;
use omi_session::Session;
use std::alloc::Global;

/// The rows of the tasks of each found thread, in order.
pub fn task_rows<C: Callbacks, F: ToHost>(
    s: &mut Session<C, F>,
    alloc: Global,
    found: &List<Found>,
) -> Result<TaskRows, WalkFault>
    requires many { s.old.handles.made < HANDLES_WITHIN }
    requires few { length found.now ≤ 64 }
    requires found { All (IsFound C.told s.old) found.now }
    ensures reads { Walks C.told C.asked s.old s.new result
        (ask_all_tasks s.old.layout found.now) }
    ensures live { IfOk result (λ rows. All (λ row. IsLive C.told s.new row.task) rows) }
    ensures few { IfOk result (λ rows. length rows ≤ 16777216) }
    ensures leaves { Leaves C.told 83886080 s.old s.new }
    ensures cause { HasCause (C.faults s.old.table.calls) (C.faults s.new.table.calls)
        (result ≡ Err WalkFault.Callback) }
{
    let mut rows = TaskRows::new(alloc);
    for at in 0..found.len() {
        let f = *found.get(at);
        task_chain(s, alloc, f.thread, f.current, &mut rows)?;
    }
    Ok(rows)
}
