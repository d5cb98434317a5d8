//! The event rules of task groups, decided.

ghost use Rattle.std.specs.Prelude.{◌≡◌, ◌↔◌, ◌<◌, true};
ghost use Rattle.omi_machine.specs.Kept.{state_of};
ghost use Rattle.omi_model.specs.Changes.{OfCurrent};
ghost use Rattle.omi_model.specs.Groups.{IsInInnermost, MayBeginGroup, MayEndGroup};

use crate::unfinished::are_members_finished;
use omi_machine::State;
use omi_model::{Group, Task, Tid};
use omi_numbers::OPEN_GROUPS;

/// Whether a task is a member of the innermost open group of task `k`, which is `t`.
pub fn is_in_innermost(k: Tid, t: &Task, new: &Task) -> bool
    ensures { (result ≡ true) ↔ IsInInnermost k t.now new.now }
{
    match Group::innermost(k, t.open_groups) {
        Some(group) => new.group == Some(group),
        None => false,
    }
}

/// Whether the current task may begin a group.
pub fn may_begin_group(s: &State, i: usize) -> bool
    requires { i < (state_of s.now).count }
    ensures { (result ≡ true) ↔ OfCurrent (state_of s.now) i (λ k t. MayBeginGroup t) }
{
    match s.current(i) {
        Some((_, t)) => t.open_groups < OPEN_GROUPS,
        None => false,
    }
}

/// Whether the innermost open group of a task may end.
fn may_end_group_of(s: &State, k: Tid, t: &Task) -> bool
    ensures { (result ≡ true) ↔ MayEndGroup (state_of s.now) k t.now }
{
    match Group::innermost(k, t.open_groups) {
        Some(group) => are_members_finished(s, group),
        None => false,
    }
}

/// Whether the innermost open group of the current task may end.
pub fn may_end_group(s: &State, i: usize) -> bool
    requires { i < (state_of s.now).count }
    ensures { (result ≡ true) ↔ OfCurrent (state_of s.now) i (MayEndGroup (state_of s.now)) }
{
    match s.current(i) {
        Some((k, t)) => may_end_group_of(s, k, t),
        None => false,
    }
}
