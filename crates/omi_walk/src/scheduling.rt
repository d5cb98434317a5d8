//! The chain of a thread: its tasks, each left for the one before it.

ghost use Rattle.std.specs.Prelude.{◌≡◌, ◌≤◌, ◌<◌, ◌+◌, ◌^◌, length, All, Err, IfSome, OnOk};
ghost use Rattle.omi_handle.specs.declared.handle.Kind.TheVariants.{Task};
ghost use Rattle.omi_layout.specs.Field.{tasks};
ghost use Rattle.omi_layout.specs.Table.{records};
ghost use Rattle.omi_outside.specs.Outside.{HasCause};
ghost use Rattle.omi_walk.specs.Kept.{IsLive};
ghost use Rattle.omi_walk.specs.Leaves.{Leaves};
ghost use Rattle.omi_walk.specs.Objects.{IsMet};
ghost use Rattle.omi_walk.specs.Walks.{WalksRows};
ghost use Rattle.omi_walk.specs.AskTasks.{ask_rows_from};

use crate::WalkFault;
use crate::met::Met;
use crate::tasks::task_row;
use omi_calls::{Callbacks, ToHost};
use omi_layout::Layout;
use omi_model::TaskRows;
use omi_session::Session;
use std::alloc::Global;
use std::collections::BTreeSet;

/// The number of records of tasks that a layout has.
fn task_count(layout: &Layout) -> u32
    ensures value { result ≡ records layout.now.table tasks }
    ensures few { result ≤ 262144 }
{
    u32::from(layout.threads()) * u32::from(layout.tasks_per_thread())
}

/// Adds the rows of the tasks of a thread from one on, each followed by its scheduling task, at most as many as the layout has records of
/// tasks. A Cycle with the first address that is met twice.
pub fn task_chain<C: Callbacks, F: ToHost>(
    s: &mut Session<C, F>,
    alloc: Global,
    thread: u8,
    first: Option<Met>,
    rows: &mut TaskRows,
) -> Result<(), WalkFault>
    requires many { s.old.handles.made < 2 ^ 58 }
    requires met { IfSome first (IsMet C.told s.old Task) }
    ensures reads { WalksRows C.told C.asked s.old s.new result rows.old rows.new
        (ask_rows_from s.old.layout thread first) }
    ensures live { OnOk result (All (λ row. IsLive C.told s.old row.task) rows.old
        → All (λ row. IsLive C.told s.new row.task) rows.new) }
    ensures few { OnOk result (length rows.new ≤ length rows.old + 262144) }
    ensures leaves { Leaves C.told 1310720 s.old s.new }
    ensures cause { HasCause (C.faults s.old.table.calls) (C.faults s.new.table.calls)
        (result ≡ Err WalkFault.Callback) }
{
    let mut met = BTreeSet::new(alloc);
    let mut current = first;
    for _ in 0..task_count(s.layout()) {
        let Some(task) = current else {
            return Ok(());
        };
        met.insert(task.held.addr)?;
        let link = task_row(s, alloc, task, thread, &met)?;
        current = link.next;
        rows.push(link.row)?;
    }
    match current {
        None => Ok(()),
        Some(task) => Err(WalkFault::Cycle {
            addr: task.held.addr,
        }),
    }
}
