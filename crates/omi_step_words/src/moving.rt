//! What is current behind a step.

ghost use Rattle.std.specs.Prelude.{◌≡◌, ◌<◌};
ghost use Rattle.omi_layout.specs.Table.{thread_count};
ghost use Rattle.omi_step_words.specs.Moving.{storing_under, task_under};
ghost use Rattle.omi_step_words.specs.Placed.{HasTask};

use crate::{of_thread, store};
use omi_layout::{Field, Layout};
use omi_model::Tid;
use omi_pc::{Actor, Opened};
use omi_word::Op;

/// The task from which the current one is scheduled.
pub fn task_under(a: &Actor) -> Tid
    ensures { result ≡ task_under a.now }
{
    let Some(top) = a.stack.top() else {
        return a.context.task;
    };
    match top.opened {
        Opened::Master { saved } | Opened::Task { saved, .. } => saved.task,
        _ => a.context.task,
    }
}

/// The store of the task from which the current one is scheduled into the thread's current word.
pub fn store_under(l: &Layout, a: &Actor) -> Op
    requires thread { a.now.thread < thread_count l.now.table }
    requires under { HasTask l.now.table (task_under a.now) }
    ensures { result ≡ storing_under l.now.table a.now }
{
    let task = task_under(a);
    let record = l.task_at(task.0.creator, task.0.slot);
    store(of_thread(l, a.thread, Field::ThreadCurrent), record)
}
