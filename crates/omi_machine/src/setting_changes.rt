//! Frames, control variables and the tool word: what their events change.

ghost use Rattle.std.specs.Prelude.{◌≡◌, ◌<◌, Some, ⊤};
ghost use Rattle.omi_model.specs.Changes.{OfCurrent, by_current};
ghost use Rattle.omi_machine.specs.Kept.{state_of};
ghost use Rattle.omi_model.specs.Settings.{entered, left, with_tool};

use crate::State;
use crate::slot_changes::{put_live, take_live};
use omi_model::Task;
use omi_numbers::enter_frame;
use std::alloc::Global;

/// The current task enters the runtime: its enter frame lies 32 bytes below its exit frame.
pub(crate) fn enter(alloc: Global, s: &mut State, i: usize)
    requires known { i < (state_of s.old).count }
    requires current { OfCurrent (state_of s.old) i (λ k t. ⊤) }
    ensures { by_current (state_of s.old) i (entered (state_of s.old)) ≡ Some (state_of s.new) }
{
    let Some(k) = s.thread(i).current else {
        unreachable!();
    };
    let Some(t) = take_live(alloc, &mut s.tasks, k.0) else {
        unreachable!();
    };
    let enter = enter_frame(t.exit);
    put_live(alloc, &mut s.tasks, k.0, Task { enter, ..t });
}

/// The current task leaves the runtime: it has no enter frame.
pub(crate) fn leave(alloc: Global, s: &mut State, i: usize)
    requires known { i < (state_of s.old).count }
    requires current { OfCurrent (state_of s.old) i (λ k t. ⊤) }
    ensures { by_current (state_of s.old) i (left (state_of s.old)) ≡ Some (state_of s.new) }
{
    let Some(k) = s.thread(i).current else {
        unreachable!();
    };
    let Some(t) = take_live(alloc, &mut s.tasks, k.0) else {
        unreachable!();
    };
    put_live(alloc, &mut s.tasks, k.0, Task { enter: 0, ..t });
}

/// The tool word of the current task is set.
pub(crate) fn set_tool(alloc: Global, s: &mut State, i: usize, x: u64)
    requires known { i < (state_of s.old).count }
    requires current { OfCurrent (state_of s.old) i (λ k t. ⊤) }
    ensures { by_current (state_of s.old) i (λ k t. with_tool (state_of s.old) x k)
        ≡ Some (state_of s.new) }
{
    let Some(k) = s.thread(i).current else {
        unreachable!();
    };
    let Some(t) = take_live(alloc, &mut s.tasks, k.0) else {
        unreachable!();
    };
    put_live(alloc, &mut s.tasks, k.0, Task { tool: x, ..t });
}
