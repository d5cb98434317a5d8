//! The whole report of a target by inquiries, in the order of its lines.

ghost use Rattle.std.specs.Prelude.{◌≡◌, ◌≤◌, ◌<◌, Err, IfOk, All, length};
ghost use Rattle.omi_session.specs.declared.limits.TheConstants.{HANDLES_BEFORE};
ghost use Rattle.omi_outside.specs.Outside.{HasCause};
ghost use Rattle.omi_rep.specs.LookView.{look_view};
ghost use Rattle.omi_walk.specs.Gives.{Looks};
ghost use Rattle.omi_walk.specs.Kept.{IsLive};
ghost use Rattle.omi_walk.specs.Leaves.{Leaves};
ghost use Rattle.omi_walk.specs.Walks.{Walks};
ghost use Rattle.omi_walk.specs.AskView.{ask_view};

use crate::WalkFault;
use crate::head::head;
use crate::region_rows::region_rows;
use crate::regions_met::regions_met;
use crate::task_rows::task_rows;
use crate::thread_rows::{SeenThreads, thread_rows};
use omi_calls::{Callbacks, ToHost};
use omi_model::View;
use omi_session::Session;
use omi_word::Natives;
use std::alloc::Global;

/// The report of `walk`. Each row of a task is that of one which lives.
pub(crate) fn view_of<C: Callbacks, F: ToHost>(
    s: &mut Session<C, F>,
    alloc: Global,
    contexts: &Natives,
) -> Result<View, WalkFault>
    requires many { s.old.handles.made < HANDLES_BEFORE }
    requires few { length contexts.now ≤ 64 }
    ensures look { Looks C.told s.old result (λ w memory. look_view w memory contexts.now) }
    ensures reads { Walks C.told C.asked s.old s.new result
        (ask_view s.old.layout contexts.now) }
    ensures live { IfOk result (λ view. All (λ row. IsLive C.told s.new row.task) view.tasks) }
    ensures few { IfOk result (λ view. length view.tasks ≤ 16777216) }
    ensures leaves { Leaves C.told 84943168 s.old s.new }
    ensures cause { HasCause (C.faults s.old.table.calls) (C.faults s.new.table.calls)
        (result ≡ Err WalkFault.Callback) }
{
    // the proof takes from the layout's type that it is valid
    let _layout = s.layout();
    let head = head(s)?;
    let SeenThreads { rows, found } = thread_rows(s, alloc, contexts)?;
    let index = regions_met(s, alloc, &found)?;
    let regions = region_rows(s, alloc, &index)?;
    let tasks = task_rows(s, alloc, &found)?;
    Ok(View {
        head,
        threads: rows,
        regions,
        tasks,
    })
}

/// The report for contexts with these native ids, in their order: the header, a row for each context, the regions of the found threads
/// by name, and the chain of tasks of each.
pub fn walk<C: Callbacks, F: ToHost>(
    s: &mut Session<C, F>,
    alloc: Global,
    contexts: &Natives,
) -> Result<View, WalkFault>
    requires many { s.old.handles.made < HANDLES_BEFORE }
    requires few { length contexts.now ≤ 64 }
    ensures look { Looks C.told s.old result (λ w memory. look_view w memory contexts.now) }
    ensures reads { Walks C.told C.asked s.old s.new result
        (ask_view s.old.layout contexts.now) }
    ensures leaves { Leaves C.told 4294967295 s.old s.new }
    ensures cause { HasCause (C.faults s.old.table.calls) (C.faults s.new.table.calls)
        (result ≡ Err WalkFault.Callback) }
{
    view_of(s, alloc, contexts)
}
