//! The elements of nthreads-var of a task.

ghost use Rattle.std.specs.Prelude.{◌≡◌, Err, IfOk};
ghost use Rattle.omi_handle.specs.declared.handle.Kind.TheVariants.{Task};
ghost use Rattle.omi_outside.specs.Outside.{HasCause};
ghost use Rattle.omi_session.specs.Made.{task_pair};
ghost use Rattle.omi_walk.specs.Leaves.{Leaves};
ghost use Rattle.std.specs.FinMap.{get};
ghost use Rattle.omi_walk.specs.Walks.{Walks};
ghost use Rattle.omi_walk.specs.AskWords.{ask_nthreads};

use crate::WalkFault;
use crate::fault::fault_of;
use omi_calls::{Callbacks, ToHost};
use omi_handle::TaskHandle;
use omi_icv::{Scoped, icv_value};
use omi_numbers::NTHREADS_VAR;
use omi_script::NumList;
use omi_session::Session;
use omi_word::OutOfMemory;
use std::alloc::Global;

/// A list of these numbers.
fn list_of(alloc: Global, numbers: &[u64]) -> Result<NumList, OutOfMemory>
    ensures { IfOk result (λ list. list ≡ numbers.now) }
{
    let mut list = NumList::new(alloc);
    for number in numbers {
        list.push(*number)?;
    }
    Ok(list)
}

/// The elements of nthreads-var of a task.
pub fn nthreads_of<C: Callbacks, F: ToHost>(
    s: &mut Session<C, F>,
    alloc: Global,
    k: TaskHandle,
) -> Result<NumList, WalkFault>
    ensures reads { Walks C.told C.asked s.old s.new result
        (ask_nthreads s.old.layout (get s.old.handles.held (task_pair k))) }
    ensures leaves { Leaves C.told 0 s.old s.new }
    ensures cause { HasCause (C.faults s.old.table.calls) (C.faults s.new.table.calls)
        (result ≡ Err WalkFault.Callback) }
{
    match icv_value(s, Scoped::Task(k), NTHREADS_VAR) {
        Ok(value) => Ok(list_of(alloc, value.numbers.as_slice())?),
        Err(rc) => Err(fault_of(s, (k.key, k.serial), rc)),
    }
}
