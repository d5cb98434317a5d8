//! Barriers: what their events change.

ghost use Rattle.std.specs.Prelude.{◌≡◌, ◌<◌, Some, OnOk, OnErr, slice_set, ⊤};
ghost use Rattle.omi_model.specs.Barriers.{arrived, released};
ghost use Rattle.omi_model.specs.Changes.{OfCurrentRegion, by_current};
ghost use Rattle.omi_machine.specs.Kept.{state_of};

use crate::State;
use crate::slot_changes::{put_live, take_live};
use crate::state::arrivals_of;
use omi_model::{Region, Rows};
use omi_word::OutOfMemory;
use std::alloc::{AllocError, Global};

/// Sets the arrivals of a member.
fn set_count(list: &mut Rows<u64>, number: u64, n: u64)
    ensures { list.new ≡ slice_set list.old number n }
{
    let at = number as usize;
    if at < list.len() {
        list.exchange(at, n);
    }
}

/// A member arrives. Without room for the count nothing changes.
pub(crate) fn arrive(alloc: Global, s: &mut State, i: usize) -> Result<(), OutOfMemory>
    requires known { i < (state_of s.old).count }
    requires current { OfCurrentRegion (state_of s.old) i (λ k t r. ⊤) }
    ensures done { OnOk result (by_current (state_of s.old) i (λ k t. arrived (state_of s.old) t)
        ≡ Some (state_of s.new)) }
    ensures refused { OnErr result (s.new ≡ s.old) }
{
    let Some((_, t, r)) = s.current_region(i) else {
        unreachable!();
    };
    let (region, number) = (t.region, t.number);
    let Some(next) = arrivals_of(r, number).checked_add(1) else {
        return Err(AllocError);
    };
    let Some(mut r) = take_live(alloc, &mut s.regions, region.0) else {
        unreachable!();
    };
    set_count(&mut r.arrivals, number, next);
    put_live(alloc, &mut s.regions, region.0, r);
    Ok(())
}

/// Member 0 releases the barrier. Without room for the count nothing changes.
pub(crate) fn release(alloc: Global, s: &mut State, i: usize) -> Result<(), OutOfMemory>
    requires known { i < (state_of s.old).count }
    requires current { OfCurrentRegion (state_of s.old) i (λ k t r. ⊤) }
    ensures done { OnOk result (by_current (state_of s.old) i (λ k t. released (state_of s.old) t)
        ≡ Some (state_of s.new)) }
    ensures refused { OnErr result (s.new ≡ s.old) }
{
    let Some((_, t, r)) = s.current_region(i) else {
        unreachable!();
    };
    let region = t.region;
    let Some(released) = r.released.checked_add(1) else {
        return Err(AllocError);
    };
    let Some(r) = take_live(alloc, &mut s.regions, region.0) else {
        unreachable!();
    };
    put_live(alloc, &mut s.regions, region.0, Region { released, ..r });
    Ok(())
}
