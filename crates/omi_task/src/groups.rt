//! The words of task groups: the group of a task that is made, and the innermost one that the current task has open.

ghost use Rattle.std.specs.Prelude.{◌≡◌, ◌≤◌};
ghost use Rattle.omi_numbers.specs.declared.limits.TheConstants.{OPEN_GROUPS};
ghost use Rattle.omi_step_words.specs.Placed.{HasGroupWords, HasTask};
ghost use Rattle.omi_task.specs.Groups;

use omi_layout::{COUNT_PLACE, Layout};
use omi_pc::Actor;
use omi_step_words::of_groups;

/// The index of the innermost group, and 0 where none is open.
fn innermost_index(a: &Actor) -> u8
    ensures { result ≡ Groups.innermost_index a.now }
{
    a.context.open_groups.saturating_sub(1)
}

/// The word that stands for the innermost group.
pub fn innermost_word(l: &Layout, a: &Actor) -> u64
    requires task { HasTask l.now.table a.now.context.task }
    requires few { a.now.context.open_groups ≤ OPEN_GROUPS }
    ensures { result ≡ Groups.innermost_word l.now.table a.now }
{
    let task = a.context.task.0;
    l.task_at(task.creator, task.slot) + u64::from(innermost_index(a))
}

/// The address of its count.
pub fn of_innermost_count(l: &Layout, a: &Actor) -> u64
    requires task { HasTask l.now.table a.now.context.task }
    requires few { a.now.context.open_groups ≤ OPEN_GROUPS }
    requires groups { HasGroupWords l.now.table }
    ensures { result ≡ Groups.of_innermost_count l.now.table a.now }
{
    of_groups(l, a.context.task, COUNT_PLACE + innermost_index(a))
}

/// The word that stands for the group of a new task, 0 for none.
pub fn new_group(l: &Layout, a: &Actor) -> u64
    requires task { HasTask l.now.table a.now.context.task }
    requires few { a.now.context.open_groups ≤ OPEN_GROUPS }
    ensures { result ≡ Groups.new_group l.now.table a.now }
{
    if a.context.open_groups == 0 {
        a.gathered.group
    } else {
        innermost_word(l, a)
    }
}
