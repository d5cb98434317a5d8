//! Task groups: what their events change.

ghost use Rattle.std.specs.Prelude.{◌≡◌, ◌<◌, Some, ⊤};
ghost use Rattle.omi_machine.specs.Kept.{state_of};
ghost use Rattle.omi_model.specs.Changes.{OfCurrent, by_current};
ghost use Rattle.omi_model.specs.Groups.{MayBeginGroup, group_begun, group_ended};

use crate::State;
use crate::slot_changes::{put_live, take_live};
use omi_model::Task;
use std::alloc::Global;

/// A taskgroup region begins: the current task has one group more open.
pub(crate) fn begin_group(alloc: Global, s: &mut State, i: usize)
    requires known { i < (state_of s.old).count }
    requires current { OfCurrent (state_of s.old) i (λ k t. MayBeginGroup t) }
    ensures { by_current (state_of s.old) i (group_begun (state_of s.old))
        ≡ Some (state_of s.new) }
{
    let Some(k) = s.thread(i).current else {
        unreachable!();
    };
    let Some(t) = take_live(alloc, &mut s.tasks, k.0) else {
        unreachable!();
    };
    let open_groups = t.open_groups + 1;
    put_live(alloc, &mut s.tasks, k.0, Task { open_groups, ..t });
}

/// A taskgroup region ends: the current task has one group less open.
pub(crate) fn end_group(alloc: Global, s: &mut State, i: usize)
    requires known { i < (state_of s.old).count }
    requires current { OfCurrent (state_of s.old) i (λ k t. ⊤) }
    ensures { by_current (state_of s.old) i (group_ended (state_of s.old))
        ≡ Some (state_of s.new) }
{
    let Some(k) = s.thread(i).current else {
        unreachable!();
    };
    let Some(t) = take_live(alloc, &mut s.tasks, k.0) else {
        unreachable!();
    };
    let open_groups = t.open_groups.saturating_sub(1);
    put_live(alloc, &mut s.tasks, k.0, Task { open_groups, ..t });
}
