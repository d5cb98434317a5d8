//! The start of an explicit task.

ghost use Rattle.std.specs.Prelude.{◌≡◌, ◌<◌};
ghost use Rattle.omi_layout.specs.Field.{tasks};
ghost use Rattle.omi_layout.specs.Table.{thread_count};
ghost use Rattle.omi_pc.specs.declared.limits.TheConstants.{START_WORDS};
ghost use Rattle.omi_step_words.specs.Placed.{HasTask};
ghost use Rattle.omi_step_words.specs.Plan.{IsPlannedIn, filled};
ghost use Rattle.omi_task.specs.Starts.{start_plan, task_context};

use omi_layout::{Field, Layout};
use omi_model::Tid;
use omi_numbers::exit_frame;
use omi_pc::{Actor, Context};
use omi_step_words::Planned;

/// A planned word.
fn planned(field: Field, value: u64) -> Planned
    ensures { result ≡ filled field 0 value }
{
    Planned {
        field,
        at: 0,
        value,
    }
}

/// The word of a started task's place on the thread that is stored at this number.
pub fn start_plan(l: &Layout, a: &Actor, word: u8) -> Planned
    requires word { word < START_WORDS }
    requires thread { a.now.thread < thread_count l.now.table }
    requires task { HasTask l.now.table a.now.context.task }
    ensures planned { result ≡ start_plan l.now.table a.now word }
    ensures within { IsPlannedIn l.now.table tasks result }
{
    let task = a.context.task.0;
    match word {
        0 => planned(Field::TaskThread, l.thread_at(a.thread)),
        1 => planned(Field::TaskNumber, a.context.number),
        2 => planned(Field::TaskScheduling, l.task_at(task.creator, task.slot)),
        3 => planned(
            Field::TaskExit,
            exit_frame(a.thread, u64::from(a.context.depth) + 1),
        ),
        _ => planned(Field::TaskEnter, 0),
    }
}

/// What the thread knows of a task that it starts.
pub fn task_context(a: &Actor, task: Tid, is_final: bool) -> Context
    requires { a.now.context.depth < 65535 }
    ensures { result ≡ task_context a.now task is_final }
{
    Context {
        task,
        implicit: false,
        is_final,
        depth: a.context.depth + 1,
        open_groups: 0,
        ..a.context
    }
}
