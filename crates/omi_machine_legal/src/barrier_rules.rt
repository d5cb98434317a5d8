//! The event rules of barriers, decided.

ghost use Rattle.std.specs.Prelude.{◌≡◌, ◌↔◌, ◌<◌, true};
ghost use Rattle.omi_model.specs.Barriers.{HaveArrived, MayArrive, MayPass, MayRelease};
ghost use Rattle.omi_model.specs.Changes.{OfCurrentRegion};
ghost use Rattle.omi_machine.specs.Kept.{state_of};

use crate::freeing_rules::has_no_explicit;
use omi_machine::{State, arrivals_of};
use omi_model::Region;

/// Whether a member arrives in its implicit task.
pub fn may_arrive(s: &State, i: usize) -> bool
    requires { i < (state_of s.now).count }
    ensures { (result ≡ true) ↔ OfCurrentRegion (state_of s.now) i (λ k t r. MayArrive t) }
{
    match s.current_region(i) {
        Some((_, t, _)) => t.implicit,
        None => false,
    }
}

/// Whether a member passes a released barrier.
pub fn may_pass(s: &State, i: usize) -> bool
    requires { i < (state_of s.now).count }
    ensures { (result ≡ true) ↔ OfCurrentRegion (state_of s.now) i (λ k t r. MayPass t r) }
{
    match s.current_region(i) {
        Some((_, t, r)) => arrivals_of(r, t.number) <= r.released,
        None => false,
    }
}

/// Whether each member has arrived at the barrier that is not yet released.
fn have_arrived(r: &Region) -> bool
    ensures { (result ≡ true) ↔ HaveArrived r.now }
{
    let released = r.released;
    r.arrivals
        .as_slice()
        .iter()
        .all(|n| *n > 0 && *n - 1 == released)
}

/// Whether member 0 releases the barrier of its region.
pub fn may_release(s: &State, i: usize) -> bool
    requires { i < (state_of s.now).count }
    ensures { (result ≡ true) ↔ OfCurrentRegion (state_of s.now) i
        (λ k t r. MayRelease (state_of s.now) t r) }
{
    match s.current_region(i) {
        Some((_, t, r)) => t.number == 0 && have_arrived(r) && has_no_explicit(s, t.region),
        None => false,
    }
}
