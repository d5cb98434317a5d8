//! The event rules of records that are given back, decided.

ghost use Rattle.std.specs.Prelude.{◌≡◌, ◌↔◌, ◌<◌, Some, true};
ghost use Rattle.omi_machine.specs.Kept.{state_of};
ghost use Rattle.omi_machine_legal.specs.Decided.{IsNoExplicitOf, IsNoneOf, IsNotWithin, IsOneOf};
ghost use Rattle.omi_model.specs.Barriers.{HasNoExplicit};
ghost use Rattle.omi_model.specs.Changes.{OfCurrent};
ghost use Rattle.omi_model.specs.Freeing.{IsOver, IsSpent, MayFree, MayFreeMember, MayFreeRegion};
ghost use Rattle.omi_model.specs.State.{region_of, task_of};

use crate::live::{Test, regions_pass, tasks_pass};
use omi_machine::State;
use omi_model::{Progress, Region, Rid, Task, Tid};

/// The tasks of a region, or the children of a task.
#[derive(Clone, Copy)]
enum TasksOf {
    Region(Rid),
    Parent(Tid),
}

/// Whether a task is one of those.
fn is_one_of(t: &Task, which: TasksOf) -> bool
    ensures { (result ≡ true) ↔ IsOneOf which t.now }
{
    match which {
        TasksOf::Region(n) => t.region == n,
        TasksOf::Parent(k) => t.generating == Some(k),
    }
}

/// That a task is none of the tasks of a region, or of the children of a task.
#[derive(Drop)]
struct IsNone(TasksOf);

impl Test<Task> for IsNone {
    ghost Passes = { λ test t. IsNoneOf test.0 t };

    fn passes(&self, t: &Task) -> bool {
        !is_one_of(t, self.0)
    }
}

/// That a task is no explicit one of a region.
#[derive(Drop)]
struct IsNoExplicit(Rid);

impl Test<Task> for IsNoExplicit {
    ghost Passes = { λ test t. IsNoExplicitOf test.0 t };

    fn passes(&self, t: &Task) -> bool {
        t.implicit || t.region != self.0
    }
}

/// That a region is not enclosed by another one.
#[derive(Drop)]
struct IsOutside(Rid);

impl Test<Region> for IsOutside {
    ghost Passes = { λ test r. IsNotWithin test.0 r };

    fn passes(&self, r: &Region) -> bool {
        r.enclosing != Some(self.0)
    }
}

/// Whether no explicit task of a region lives.
pub fn has_no_explicit(s: &State, n: Rid) -> bool
    ensures { (result ≡ true) ↔ HasNoExplicit (state_of s.now) n }
{
    tasks_pass(&IsNoExplicit(n), s)
}

/// Whether a live task is over.
fn is_spent(s: &State, task: Tid, old: &Task) -> bool
    requires { task_of (state_of s.now) task ≡ Some old.now }
    ensures { (result ≡ true) ↔ IsSpent (state_of s.now) task old.now }
{
    old.progress == Progress::Finished && tasks_pass(&IsNone(TasksOf::Parent(task)), s)
}

/// Whether a live region is over.
fn is_over(s: &State, n: Rid, r: &Region) -> bool
    requires { region_of (state_of s.now) n ≡ Some r.now }
    ensures { (result ≡ true) ↔ IsOver (state_of s.now) n r.now }
{
    r.joined && has_no_explicit(s, n) && regions_pass(&IsOutside(n), s)
}

/// Whether an explicit task is given back, which may be next.
fn may_free_task(s: &State, task: Tid, next: Tid) -> bool
    ensures { (result ≡ true) ↔ MayFree (state_of s.now) task next }
{
    match s.task_of(task) {
        Some(old) => task == next && !old.implicit && is_spent(s, task, old),
        None => false,
    }
}

/// Whether a task of a member is given back, where the task of the member with this number may be next.
fn may_free_member_task(s: &State, task: Tid, n: Rid, number: u8) -> bool
    ensures { (result ≡ true) ↔ MayFreeMember (state_of s.now) task n number }
{
    let Some(r) = s.region_of(n) else {
        return false;
    };
    match s.task_of(task) {
        Some(old) => old.implicit
            && old.region == n
            && old.number == number as u64
            && (number as usize) < r.team.len()
            && is_over(s, n, r)
            && is_spent(s, task, old),
        None => false,
    }
}

/// Whether a region is given back, which may be once so many members' tasks are.
fn may_free_whole(s: &State, region: Rid, n: Rid, number: u8) -> bool
    ensures { (result ≡ true) ↔ MayFreeRegion (state_of s.now) region n number }
{
    match s.region_of(n) {
        Some(r) => region == n
            && r.team.len() == number as usize
            && is_over(s, n, r)
            && tasks_pass(&IsNone(TasksOf::Region(n)), s),
        None => false,
    }
}

/// Whether an explicit task is given back on a thread, where one may be next.
pub fn may_free(s: &State, i: usize, task: Tid, next: Tid) -> bool
    requires { i < (state_of s.now).count }
    ensures { (result ≡ true)
        ↔ OfCurrent (state_of s.now) i (λ k t. MayFree (state_of s.now) task next) }
{
    match s.current(i) {
        Some(_) => may_free_task(s, task, next),
        None => false,
    }
}

/// Whether a task of a member is given back on a thread, where the member with this number is next.
pub fn may_free_member(s: &State, i: usize, task: Tid, n: Rid, number: u8) -> bool
    requires { i < (state_of s.now).count }
    ensures { (result ≡ true)
        ↔ OfCurrent (state_of s.now) i (λ k t. MayFreeMember (state_of s.now) task n number) }
{
    match s.current(i) {
        Some(_) => may_free_member_task(s, task, n, number),
        None => false,
    }
}

/// Whether a region is given back on a thread, where the member with this number would be next.
pub fn may_free_region(s: &State, i: usize, region: Rid, n: Rid, number: u8) -> bool
    requires { i < (state_of s.now).count }
    ensures { (result ≡ true)
        ↔ OfCurrent (state_of s.now) i (λ k t. MayFreeRegion (state_of s.now) region n number) }
{
    match s.current(i) {
        Some(_) => may_free_whole(s, region, n, number),
        None => false,
    }
}
