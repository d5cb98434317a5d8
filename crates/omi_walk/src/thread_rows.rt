//! The rows of the contexts of a report, and the threads that are found for them.

ghost use Rattle.std.specs.Prelude.{◌≡◌, ◌<◌, ◌≤◌, ◌++◌, length, Err, IfOk, OnOk};
ghost use Rattle.std.specs.List.{All};
ghost use Rattle.omi_walk.specs.declared.limits.TheConstants.{HANDLES_WITHIN};
ghost use Rattle.omi_outside.specs.Outside.{HasCause};
ghost use Rattle.omi_rep.specs.Look.{each};
ghost use Rattle.omi_walk.specs.FoundThreads.{IsFound};
ghost use Rattle.omi_walk.specs.Leaves.{Leaves};
ghost use Rattle.omi_walk.specs.SeenThreads.{found_in};
ghost use Rattle.omi_walk.specs.Walks.{Walks};
ghost use Rattle.omi_walk.specs.AskThreads.{ask_threads};

use crate::WalkFault;
use crate::found::Found;
use crate::threads::{SeenThread, thread_row};
use omi_calls::{Callbacks, ToHost};
use omi_list::List;
use omi_model::ThreadRows;
use omi_session::Session;
use omi_word::{Natives, OutOfMemory};
use std::alloc::Global;

/// The rows of contexts, and the threads that were found for them.
#[derive(Drop)]
pub struct SeenThreads {
    pub rows: ThreadRows,
    pub found: List<Found>,
}

/// Adds the thread of a row, where one was found.
fn add_found(found: &mut List<Found>, seen: SeenThread) -> Result<(), OutOfMemory>
    ensures { OnOk result (found.new ≡ found.old ++ found_in seen.row.found seen.current) }
{
    if let Some(part) = seen.row.found {
        found.push(Found {
            thread: part.thread,
            current: seen.current,
        })?;
    }
    Ok(())
}

/// The rows of contexts with these native ids, in their order, and the threads that were found for them, each with its current task.
pub fn thread_rows<C: Callbacks, F: ToHost>(
    s: &mut Session<C, F>,
    alloc: Global,
    contexts: &Natives,
) -> Result<SeenThreads, WalkFault>
    requires many { s.old.handles.made < HANDLES_WITHIN }
    requires few { length contexts.now ≤ 64 }
    ensures reads { Walks C.told C.asked s.old s.new result
        (ask_threads s.old.layout contexts.now) }
    ensures each { IfOk result (λ seen. All (IsFound C.told s.new) seen.found) }
    ensures few { IfOk result (λ seen. length seen.found ≤ 64) }
    ensures leaves { Leaves C.told 192 s.old s.new }
    ensures cause { HasCause (C.faults s.old.table.calls) (C.faults s.new.table.calls)
        (result ≡ Err WalkFault.Callback) }
{
    let mut rows = ThreadRows::new(alloc);
    let mut found = List::new(alloc);
    for native in contexts.as_slice() {
        let seen = thread_row(s, *native)?;
        rows.push(seen.row)?;
        add_found(&mut found, seen)?;
    }
    Ok(SeenThreads { rows, found })
}
