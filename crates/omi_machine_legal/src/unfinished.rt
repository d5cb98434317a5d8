//! Whether the explicit children of a task, or the members of a group, have finished.

ghost use Rattle.std.specs.Prelude.{◌≡◌, ◌↔◌, true};
ghost use Rattle.omi_machine_legal.specs.Decided.{IsFinishedIn, IsFinishedOf};
ghost use Rattle.omi_machine.specs.Kept.{state_of};
ghost use Rattle.omi_model.specs.Groups.{AreMembersFinished};
ghost use Rattle.omi_model.specs.Tasking.{AreChildrenFinished};

use crate::live::{Test, tasks_pass};
use omi_machine::State;
use omi_model::{Group, Progress, Task, Tid};

/// That a task is no unfinished explicit child of a task.
#[derive(Drop)]
struct IsFinished(Tid);

impl Test<Task> for IsFinished {
    ghost Passes = { λ test t. IsFinishedOf test.0 t };

    fn passes(&self, t: &Task) -> bool {
        t.implicit || t.generating != Some(self.0) || t.progress == Progress::Finished
    }
}

/// Whether no explicit child of a task is unfinished.
pub fn are_children_finished(s: &State, k: Tid) -> bool
    ensures { (result ≡ true) ↔ AreChildrenFinished (state_of s.now) k }
{
    tasks_pass(&IsFinished(k), s)
}

/// That a task is no unfinished explicit member of a group.
#[derive(Drop)]
struct IsFinishedMember(Group);

impl Test<Task> for IsFinishedMember {
    ghost Passes = { λ test t. IsFinishedIn test.0 t };

    fn passes(&self, t: &Task) -> bool {
        t.implicit || t.group != Some(self.0) || t.progress == Progress::Finished
    }
}

/// Whether no explicit task of a group is unfinished.
pub fn are_members_finished(s: &State, g: Group) -> bool
    ensures { (result ≡ true) ↔ AreMembersFinished (state_of s.now) g }
{
    tasks_pass(&IsFinishedMember(g), s)
}
