//! The event rules, decided: what has to hold for an event of a thread that takes an item.

ghost use Rattle.std.specs.Prelude.{◌≡◌, ◌↔◌, ◌<◌, true, ⊤};
ghost use Rattle.omi_model.specs.Changes.{OfCurrent};
ghost use Rattle.omi_machine.specs.Kept.{state_of};
ghost use Rattle.omi_model.specs.Rules.{Rule};
ghost use Rattle.omi_model.specs.declared.event.Event.TheVariants as event;

use crate::ask_rules::{may_ask, may_want};
use crate::barrier_rules::{may_arrive, may_pass, may_release};
use crate::fork_rules::may_fork;
use crate::freeing_rules::{may_free, may_free_member, may_free_region};
use crate::group_rules::{may_begin_group, may_end_group};
use crate::lock_rules::{may_lock, may_unlock};
use crate::task_rules::{may_end_wait, may_finish, may_make, may_see, may_start};
use crate::team_rules::{may_begin, may_begin_task, may_end, may_join, may_offer};
use omi_machine::State;
use omi_model::{Event, Freeable, Item, Rid, Tid};

/// Whether a thread has a current task that is live.
fn has_current(s: &State, i: usize) -> bool
    requires { i < (state_of s.now).count }
    ensures { (result ≡ true) ↔ OfCurrent (state_of s.now) i (λ k t. ⊤) }
{
    s.current(i).is_some()
}

/// Whether a thread wants a team of a size, by an item.
fn may_want_by(s: &State, i: usize, n: u8, x: Item) -> bool
    requires { i < (state_of s.now).count }
    ensures { (result ≡ true) ↔ Rule (state_of s.now) i (event.Want n) x }
{
    match x {
        Item::Want { num } => may_want(s, i, n, num),
        _ => false,
    }
}

/// Whether a task is given back, by an item.
fn may_free_by(s: &State, i: usize, task: Tid, x: Item) -> bool
    requires { i < (state_of s.now).count }
    ensures { (result ≡ true) ↔ Rule (state_of s.now) i (event.FreeTask task) x }
{
    match x {
        Item::Frees {
            next: Freeable::Finished { task: next },
        } => may_free(s, i, task, next),
        Item::Frees {
            next: Freeable::Joined { region, number },
        } => may_free_member(s, i, task, region, number),
        _ => false,
    }
}

/// Whether a region is given back, by an item.
fn may_free_region_by(s: &State, i: usize, region: Rid, x: Item) -> bool
    requires { i < (state_of s.now).count }
    ensures { (result ≡ true) ↔ Rule (state_of s.now) i (event.FreeRegion region) x }
{
    match x {
        Item::Frees {
            next: Freeable::Joined { region: n, number },
        } => may_free_region(s, i, region, n, number),
        _ => false,
    }
}

/// Whether an event's rule holds.
pub fn rule_holds(s: &State, i: usize, e: &Event, x: Item) -> bool
    requires { i < (state_of s.now).count }
    ensures { (result ≡ true) ↔ Rule (state_of s.now) i e.now x }
{
    match e {
        Event::Begin => may_begin(s, i),
        Event::Offer => may_offer(s, i),
        Event::Want { n } => may_want_by(s, i, *n, x),
        Event::Ask { w, got } => may_ask(s, i, *w, *got),
        Event::Fork { region, team } => may_fork(s, i, *region, team),
        Event::ImplicitBegin { task } => may_begin_task(s, i, *task),
        Event::ImplicitEnd { task } => may_end(s, i, *task),
        Event::Join { region } => may_join(s, i, *region),
        Event::Arrive => may_arrive(s, i),
        Event::Release => may_release(s, i),
        Event::Pass => may_pass(s, i),
        Event::Seen { j } => may_see(s, i, *j),
        Event::Defer { task } | Event::StartNow { task } => may_make(s, i, *task),
        Event::Start { task } => may_start(s, i, *task, x),
        Event::Finish { task } => may_finish(s, i, *task),
        Event::WaitDone => may_end_wait(s, i),
        Event::GroupBegin => may_begin_group(s, i),
        Event::GroupEnd => may_end_group(s, i),
        Event::Enter | Event::Leave => has_current(s, i),
        Event::Set { .. } | Event::SetTool { .. } => has_current(s, i),
        Event::Lock { k } => may_lock(s, *k),
        Event::Unlock { k } => may_unlock(s, i, *k),
        Event::Done => i == 0,
        Event::FreeTask { task } => may_free_by(s, i, *task, x),
        Event::FreeRegion { region } => may_free_region_by(s, i, *region, x),
        Event::State { .. }
        | Event::Yield
        | Event::Work
        | Event::Call { .. }
        | Event::Skip
        | Event::Ret => true,
    }
}
