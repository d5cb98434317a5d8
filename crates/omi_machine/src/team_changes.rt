//! Teams: what it changes that a member ends, or that member 0 joins the others.

ghost use Rattle.std.specs.Prelude.{◌≡◌, ◌<◌, true, Some, slice_set, ⊤};
ghost use Rattle.omi_model.specs.Changes.{OfCurrentRegion, by_current, by_region};
ghost use Rattle.omi_machine.specs.Kept.{state_of};
ghost use Rattle.omi_model.specs.Teams.{joined, task_ended};

use crate::State;
use crate::freeing::free_next;
use crate::slot_changes::{put_live, take_live};
use crate::thread_changes::set_current;
use omi_model::{Freeable, Progress, Region, Rows, Task};
use std::alloc::Global;

/// A member has ended.
fn set_ended(list: &mut Rows<bool>, number: u64)
    ensures { list.new ≡ slice_set list.old number true }
{
    let at = number as usize;
    if at < list.len() {
        list.exchange(at, true);
    }
}

/// A member other than member 0 ends its implicit task.
pub(crate) fn end_task(alloc: Global, s: &mut State, i: usize)
    requires known { i < (state_of s.old).count }
    requires current { OfCurrentRegion (state_of s.old) i (λ k t r. ⊤) }
    ensures { by_current (state_of s.old) i (task_ended (state_of s.old) i)
        ≡ Some (state_of s.new) }
{
    let Some((k, t, _)) = s.current_region(i) else {
        unreachable!();
    };
    let (region, number) = (t.region, t.number);
    let Some(t) = take_live(alloc, &mut s.tasks, k.0) else {
        unreachable!();
    };
    let progress = Progress::Finished;
    put_live(alloc, &mut s.tasks, k.0, Task { progress, ..t });
    let Some(mut r) = take_live(alloc, &mut s.regions, region.0) else {
        unreachable!();
    };
    set_ended(&mut r.ended, number);
    put_live(alloc, &mut s.regions, region.0, r);
    set_current(alloc, s, i, None);
}

/// Member 0 joins the others: the region is over, and its encountering task goes on. The region may be given back next.
pub(crate) fn join(alloc: Global, s: &mut State, i: usize)
    requires known { i < (state_of s.old).count }
    requires current { OfCurrentRegion (state_of s.old) i (λ k t r. ⊤) }
    ensures { by_region (state_of s.old) i (joined (state_of s.old) i) ≡ Some (state_of s.new) }
{
    let Some((k, t, r)) = s.current_region(i) else {
        unreachable!();
    };
    let (region, encountering) = (t.region, r.encountering);
    let Some(t) = take_live(alloc, &mut s.tasks, k.0) else {
        unreachable!();
    };
    let progress = Progress::Finished;
    put_live(alloc, &mut s.tasks, k.0, Task { progress, ..t });
    let Some(r) = take_live(alloc, &mut s.regions, region.0) else {
        unreachable!();
    };
    put_live(
        alloc,
        &mut s.regions,
        region.0,
        Region { joined: true, ..r },
    );
    let next = Freeable::Joined { region, number: 0 };
    free_next(alloc, &mut s.tasks, encountering, Some(next));
    set_current(alloc, s, i, encountering);
}
