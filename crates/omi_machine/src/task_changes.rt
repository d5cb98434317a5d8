//! Tasks: what it changes that one begins, starts or finishes.

ghost use Rattle.std.specs.Prelude.{◌≡◌, ◌<◌, Some, IsSome, OnOk, OnErr, ⊤};
ghost use Rattle.omi_model.specs.Changes.{OfCurrent, by_current};
ghost use Rattle.omi_machine.specs.Kept.{state_of};
ghost use Rattle.omi_model.specs.State.{task_of};
ghost use Rattle.omi_model.specs.Tasking.{finished, started, started_alone};
ghost use Rattle.omi_model.specs.Teams.{task_begun};

use crate::State;
use crate::first_lists::push_working;
use crate::freeing::free_next;
use crate::slot_changes::{put_live, take_live};
use crate::thread_changes::set_current;
use omi_model::{Freeable, Progress, Task, Tid};
use omi_numbers::exit_below;
use omi_word::OutOfMemory;
use std::alloc::{AllocError, Global};

/// The current task finishes, and the one that it was scheduled from goes on.
pub(crate) fn finish(alloc: Global, s: &mut State, i: usize)
    requires known { i < (state_of s.old).count }
    requires current { OfCurrent (state_of s.old) i (λ k t. ⊤) }
    ensures { by_current (state_of s.old) i (finished (state_of s.old) i) ≡ Some (state_of s.new) }
{
    let Some(k) = s.thread(i).current else {
        unreachable!();
    };
    let Some(t) = take_live(alloc, &mut s.tasks, k.0) else {
        unreachable!();
    };
    let scheduling = t.scheduling;
    let progress = Progress::Finished;
    put_live(alloc, &mut s.tasks, k.0, Task { progress, ..t });
    let next = Freeable::Finished { task: k };
    free_next(alloc, &mut s.tasks, scheduling, Some(next));
    set_current(alloc, s, i, scheduling);
}

/// A thread without a task begins an implicit task.
pub(crate) fn begin_task(alloc: Global, s: &mut State, i: usize, task: Tid)
    requires known { i < (state_of s.old).count }
    requires live { IsSome (task_of (state_of s.old) task) }
    ensures { state_of s.new ≡ task_begun (state_of s.old) i task }
{
    let Some(t) = take_live(alloc, &mut s.tasks, task.0) else {
        unreachable!();
    };
    let progress = Progress::Begun;
    put_live(alloc, &mut s.tasks, task.0, Task { progress, ..t });
    set_current(alloc, s, i, Some(task));
}

/// A deferred task starts on the thread, scheduled from the current task.
pub(crate) fn start_alone(alloc: Global, s: &mut State, i: u8, task: Tid)
    requires known { i < (state_of s.old).count }
    requires current { OfCurrent (state_of s.old) i (λ k t. ⊤) }
    requires live { IsSome (task_of (state_of s.old) task) }
    ensures { by_current (state_of s.old) i (started_alone (state_of s.old) i task)
        ≡ Some (state_of s.new) }
{
    let Some((k, t)) = s.current(i as usize) else {
        unreachable!();
    };
    let (number, exit) = (t.number, exit_below(t.exit));
    let Some(mut u) = take_live(alloc, &mut s.tasks, task.0) else {
        unreachable!();
    };
    u.thread = i;
    u.number = number;
    u.scheduling = Some(k);
    u.exit = exit;
    u.enter = 0;
    u.progress = Progress::Begun;
    put_live(alloc, &mut s.tasks, task.0, u);
    set_current(alloc, s, i as usize, Some(task));
}

/// A deferred task starts in a wait: it shows first that the thread works. Without room the state stays.
pub(crate) fn start(alloc: Global, s: &mut State, i: u8, task: Tid) -> Result<(), OutOfMemory>
    requires known { i < (state_of s.old).count }
    requires current { OfCurrent (state_of s.old) i (λ k t. ⊤) }
    requires live { IsSome (task_of (state_of s.old) task) }
    ensures done { OnOk result (by_current (state_of s.old) i (started (state_of s.old) i task)
        ≡ Some (state_of s.new)) }
    ensures refused { OnErr result (state_of s.new ≡ state_of s.old) }
{
    let at = s.encounter(i as usize);
    let Some((k, t)) = s.current(i as usize) else {
        unreachable!();
    };
    let (number, exit) = (t.number, exit_below(t.exit));
    let Some(mut u) = take_live(alloc, &mut s.tasks, task.0) else {
        unreachable!();
    };
    if push_working(&mut u.list, at).is_err() {
        put_live(alloc, &mut s.tasks, task.0, u);
        return Err(AllocError);
    }
    u.thread = i;
    u.number = number;
    u.scheduling = Some(k);
    u.exit = exit;
    u.enter = 0;
    u.progress = Progress::Begun;
    put_live(alloc, &mut s.tasks, task.0, u);
    set_current(alloc, s, i as usize, Some(task));
    Ok(())
}
