//! The event rules of explicit tasks, decided.

ghost use Rattle.std.specs.Prelude.{◌≡◌, ◌↔◌, ◌<◌, ℕ, true};
ghost use Rattle.std.specs.List.{Any};
ghost use Rattle.omi_model.specs.Changes.{OfCurrent};
ghost use Rattle.omi_machine_legal.specs.Decided.{HasLive, IsDeferredIn};
ghost use Rattle.omi_model.specs.Fresh.{IsFresh};
ghost use Rattle.omi_machine.specs.Kept.{slots_of, state_of};
ghost use Rattle.omi_model.specs.Tasking.{AreChildrenFinished, IsTaken, MayFinish, MayStart, MayStartAt};

use crate::fresh::is_fresh_task;
use crate::group_rules::is_in_innermost;
use crate::unfinished::are_children_finished;
use omi_machine::State;
use omi_model::{Item, Progress, Rid, Rows, Slot, Task, Tid};
use omi_numbers::{WAIT_TASKGROUP, WAIT_TASKWAIT};

/// Whether a task is deferred in a place, in a region.
fn is_deferred_in(region: Rid, place: u8, t: &Task) -> bool
    ensures { (result ≡ true) ↔ IsDeferredIn region place t.now }
{
    !t.implicit && t.progress == Progress::Deferred && t.region == region && t.place == place
}

/// Whether a slot has a task that is deferred in a place, in a region.
fn has_deferred_in(region: Rid, place: u8, slot: &Slot<Task>) -> bool
    ensures { (result ≡ true) ↔ HasLive (IsDeferredIn region place) slot.now }
{
    match &slot.live {
        Some(t) => is_deferred_in(region, place, t),
        None => false,
    }
}

/// Whether some slot has a task that is deferred in a place, in a region.
fn some_deferred_in(region: Rid, place: u8, slots: &[Slot<Task>]) -> bool
    ensures { (result ≡ true) ↔ Any (HasLive (IsDeferredIn region place)) slots.now }
{
    slots
        .iter()
        .any(|slot| has_deferred_in(region, place, slot))
}

/// Whether a place for deferred tasks is taken, by the slots of all threads.
fn is_taken_in(tasks: &Rows<Rows<Slot<Task>>>, i: usize, region: Rid, place: u8) -> bool
    ensures { (result ≡ true)
        ↔ ((k : ℕ) × HasLive (IsDeferredIn region place) (slots_of tasks.now i k)) }
{
    match tasks.find(i) {
        Some(own) => some_deferred_in(region, place, own.as_slice()),
        None => false,
    }
}

/// Whether a place for deferred tasks is taken.
fn is_taken(s: &State, i: usize, region: Rid, place: u8) -> bool
    ensures { (result ≡ true) ↔ IsTaken (state_of s.now) i region place }
{
    is_taken_in(s.tasks(), i, region, place)
}

/// Whether a place was seen taken.
pub fn may_see(s: &State, i: usize, place: u8) -> bool
    requires { i < (state_of s.now).count }
    ensures { (result ≡ true) ↔ OfCurrent (state_of s.now) i
        (λ k t. IsTaken (state_of s.now) i t.region place) }
{
    match s.current(i) {
        Some((_, t)) => is_taken(s, i, t.region, place),
        None => false,
    }
}

/// Whether a new task is made under a name, to be deferred or to start at once.
pub fn may_make(s: &State, i: usize, task: Tid) -> bool
    requires { i < (state_of s.now).count }
    ensures { (result ≡ true) ↔ OfCurrent (state_of s.now) i
        (λ k t. IsFresh (state_of s.now).tasks i task.0) }
{
    match s.current(i) {
        Some(_) => is_fresh_task(s, i, task),
        None => false,
    }
}

/// Whether the task scheduling constraint allows that a task starts.
fn may_start_at(x: Item, k: Tid, t: &Task, new: &Task) -> bool
    ensures { (result ≡ true) ↔ MayStartAt x k t.now new.now }
{
    match x {
        Item::Tasks { state } => {
            match state {
                WAIT_TASKWAIT => new.generating == Some(k),
                WAIT_TASKGROUP => is_in_innermost(k, t, new),
                _ => new.region == t.region,
            }
        }
        Item::OneTask => new.generating == Some(k),
        _ => false,
    }
}

/// Whether a deferred task starts from a task.
fn may_start_from(s: &State, task: Tid, x: Item, k: Tid, t: &Task) -> bool
    ensures { (result ≡ true) ↔ MayStart (state_of s.now) task x k t.now }
{
    match s.task_of(task) {
        Some(new) => !new.implicit
            && new.progress == Progress::Deferred
            && may_start_at(x, k, t, new),
        None => false,
    }
}

/// Whether a deferred task starts.
pub fn may_start(s: &State, i: usize, task: Tid, x: Item) -> bool
    requires { i < (state_of s.now).count }
    ensures { (result ≡ true)
        ↔ OfCurrent (state_of s.now) i (MayStart (state_of s.now) task x) }
{
    match s.current(i) {
        Some((k, t)) => may_start_from(s, task, x, k, t),
        None => false,
    }
}

/// Whether an explicit task finishes.
pub fn may_finish(s: &State, i: usize, task: Tid) -> bool
    requires { i < (state_of s.now).count }
    ensures { (result ≡ true) ↔ OfCurrent (state_of s.now) i (MayFinish task) }
{
    match s.current(i) {
        Some((k, t)) => task == k && !t.implicit,
        None => false,
    }
}

/// Whether the children of the current task have finished.
pub fn may_end_wait(s: &State, i: usize) -> bool
    requires { i < (state_of s.now).count }
    ensures { (result ≡ true) ↔ OfCurrent (state_of s.now) i
        (λ k t. AreChildrenFinished (state_of s.now) k) }
{
    match s.current(i) {
        Some((k, _)) => are_children_finished(s, k),
        None => false,
    }
}
