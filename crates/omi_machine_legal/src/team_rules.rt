//! The event rules of threads and members of teams, decided: beginnings, offers, ends and joins.

ghost use Rattle.std.specs.Prelude.{◌≡◌, ◌↔◌, ◌<◌, drop, true};
ghost use Rattle.std.specs.List.{All};
ghost use Rattle.omi_model.specs.Changes.{OfCurrentRegion};
ghost use Rattle.omi_machine.specs.Kept.{state_of};
ghost use Rattle.omi_model.specs.Teams.{MayBegin, MayBeginTask, MayEnd, MayJoin, MayOffer};

use omi_machine::State;
use omi_model::{Claim, Progress, Region, Rid, Tid};

/// Whether a worker begins.
pub fn may_begin(s: &State, i: usize) -> bool
    requires { i < (state_of s.now).count }
    ensures { (result ≡ true) ↔ MayBegin ((state_of s.now).threads i) }
{
    !s.thread(i).begun
}

/// Whether a thread offers itself.
pub fn may_offer(s: &State, i: usize) -> bool
    requires { i < (state_of s.now).count }
    ensures { (result ≡ true) ↔ MayOffer ((state_of s.now).threads i) }
{
    let h = s.thread(i);
    h.current.is_none() && h.claim != Claim::Free
}

/// Whether a thread begins an implicit task.
pub fn may_begin_task(s: &State, i: usize, task: Tid) -> bool
    requires { i < (state_of s.now).count }
    ensures { (result ≡ true) ↔ MayBeginTask (state_of s.now) i task }
{
    match s.task_of(task) {
        Some(member) => s.thread(i).current.is_none()
            && member.progress == Progress::NotBegun
            && member.thread as usize == i,
        None => false,
    }
}

/// Whether a member other than member 0 ends its implicit task.
pub fn may_end(s: &State, i: usize, task: Tid) -> bool
    requires { i < (state_of s.now).count }
    ensures { (result ≡ true) ↔ OfCurrentRegion (state_of s.now) i (λ k t r. MayEnd task k t) }
{
    match s.current_region(i) {
        Some((k, t, _)) => task == k && t.implicit && t.number != 0,
        None => false,
    }
}

/// Whether each flag is set.
fn are_true(flags: &[bool]) -> bool
    ensures { (result ≡ true) ↔ All (λ b. b ≡ true) flags.now }
{
    flags.iter().all(|b| *b)
}

/// Whether each member but member 0 has ended.
fn have_ended(r: &Region) -> bool
    ensures { (result ≡ true) ↔ All (λ b. b ≡ true) (drop 1 r.now.ended) }
{
    match r.ended.as_slice().split_first() {
        Some((_, others)) => are_true(others),
        None => true,
    }
}

/// Whether member 0 joins the others.
pub fn may_join(s: &State, i: usize, region: Rid) -> bool
    requires { i < (state_of s.now).count }
    ensures { (result ≡ true)
        ↔ OfCurrentRegion (state_of s.now) i (λ k t r. MayJoin region t r) }
{
    match s.current_region(i) {
        Some((_, t, r)) => region == t.region && t.implicit && t.number == 0 && have_ended(r),
        None => false,
    }
}
