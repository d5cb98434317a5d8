//! Records that are given back: what it changes of tasks and regions.

ghost use Rattle.std.specs.Prelude.{◌≡◌, ◌<◌, ◌+◌, Some, ⊤};
ghost use Rattle.omi_machine.specs.Kept.{slots_of, state_of};
ghost use Rattle.omi_machine.specs.Needs.{HasMember};
ghost use Rattle.omi_model.specs.Changes.{OfCurrent, by_current};
ghost use Rattle.omi_model.specs.Freeing.{above, freed, freeing, region_freed};

use crate::State;
use crate::slot_changes::{put_live, take_away, take_live};
use omi_model::{Freeable, Rid, Rows, Slot, Task, Tid};
use std::alloc::Global;

/// This may be given back next, in front of all that a task has ahead.
pub(crate) fn free_next(
    alloc: Global,
    tasks: &mut Rows<Rows<Slot<Task>>>,
    k: Option<Tid>,
    next: Option<Freeable>,
)
    ensures { slots_of tasks.new ≡ freeing next k (slots_of tasks.old) }
{
    let Some(k) = k else {
        return;
    };
    let Some(t) = take_live(alloc, tasks, k.0) else {
        return;
    };
    put_live(alloc, tasks, k.0, Task { frees: next, ..t });
}

/// The generating task of a task, which may be given back behind it.
fn task_above(s: &State, task: Tid) -> Option<Freeable>
    ensures { result ≡ above (state_of s.now) task }
{
    let task = s.task_of(task)?.generating?;
    Some(Freeable::Finished { task })
}

/// The record of a task is given back, and this may be given back next.
fn free_task(alloc: Global, s: &mut State, i: usize, task: Tid, next: Option<Freeable>)
    requires known { i < (state_of s.old).count }
    requires current { OfCurrent (state_of s.old) i (λ k t. ⊤) }
    ensures { by_current (state_of s.old) i (freed (state_of s.old) task next)
        ≡ Some (state_of s.new) }
{
    let current = s.thread(i).current;
    take_away(alloc, &mut s.tasks, task.0);
    free_next(alloc, &mut s.tasks, current, next);
}

/// The record of an explicit task is given back, and behind it that of its generating task may be.
pub(crate) fn free_finished(alloc: Global, s: &mut State, i: usize, task: Tid)
    requires known { i < (state_of s.old).count }
    requires current { OfCurrent (state_of s.old) i (λ k t. ⊤) }
    ensures { by_current (state_of s.old) i
        (freed (state_of s.old) task (above (state_of s.old) task)) ≡ Some (state_of s.new) }
{
    let next = task_above(s, task);
    free_task(alloc, s, i, task, next);
}

/// The number behind that of a member of a region: a team is so small that it fits.
fn number_behind(s: &State, region: Rid, number: u8) -> u8
    requires { HasMember (state_of s.now) region number }
    ensures { result ≡ number + 1 }
{
    match s.region_of(region) {
        Some(r) => {
            let _most = r.team.len();
            number + 1
        }
        None => unreachable!(),
    }
}

/// The record of a member's task is given back, and behind it that of the next member may be.
pub(crate) fn free_member(
    alloc: Global,
    s: &mut State,
    i: usize,
    task: Tid,
    region: Rid,
    number: u8,
)
    requires known { i < (state_of s.old).count }
    requires current { OfCurrent (state_of s.old) i (λ k t. ⊤) }
    requires member { HasMember (state_of s.old) region number }
    ensures { by_current (state_of s.old) i
        (freed (state_of s.old) task (Some (Freeable.Joined region (number + 1))))
        ≡ Some (state_of s.new) }
{
    let number = number_behind(s, region, number);
    let next = Freeable::Joined { region, number };
    free_task(alloc, s, i, task, Some(next));
}

/// The record of a region is given back.
pub(crate) fn free_region(alloc: Global, s: &mut State, region: Rid)
    ensures { state_of s.new ≡ region_freed (state_of s.old) region }
{
    take_away(alloc, &mut s.regions, region.0);
}
