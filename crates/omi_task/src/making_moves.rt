//! How a step of a `task` construct moves a thread on.

ghost use Rattle.std.specs.Prelude.{◌≡◌, ◌<◌, ◌≤◌};
ghost use Rattle.omi_layout.specs.Field.{tasks};
ghost use Rattle.omi_layout.specs.Table.{thread_count};
ghost use Rattle.omi_pc.specs.declared.counter.Counter.TheVariants as counter;
ghost use Rattle.omi_numbers.specs.declared.limits.TheConstants.{OPEN_GROUPS, OWN_SLOTS};
ghost use Rattle.omi_pc.specs.declared.limits.TheConstants.{TASK_WORDS, VARIABLE_WORDS};
ghost use Rattle.omi_pc.specs.declared.task_counter.TaskCounter.TheVariants as task;
ghost use Rattle.omi_pc.specs.Fits.{Fits, HasVariables, IsTaskGot};
ghost use Rattle.omi_step_words.specs.Moving.{to_task, with_loaded_variable};
ghost use Rattle.omi_step_words.specs.Placed.{HasTask, IsPlaced, Searches};
ghost use Rattle.omi_task.specs.MakingSteps.{behind_life, behind_raises, behind_reference, behind_slot, behind_task_variable, behind_variables, behind_word, making_moved, making_outcome, past_start_now};
ghost use Rattle.std.specs.Prelude.{None};

use crate::groups::new_group;
use crate::making::{made_function, makes_final, making_outcome};
use crate::starts::task_context;
use omi_layout::Layout;
use omi_model::Tid;
use omi_numbers::OWN_SLOTS;
use omi_pc::limits::{TASK_WORDS, VARIABLE_WORDS};
use omi_pc::{Actor, Counter, PlainCounter, TaskCounter, bodies_stand, stacks_have_room};
use omi_script::Program;
use omi_step_words::{is_free, next_task_slot, object_in, own_place};

/// A counter of a `task` construct comes next.
fn to_task(a: &mut Actor, c: TaskCounter)
    ensures { a.new ≡ to_task c a.old }
{
    a.counter = Counter::Task(c);
}

/// The counter behind the look at an own slot.
fn behind_slot(place: u8, old: u64) -> TaskCounter
    requires { place < OWN_SLOTS }
    ensures { result ≡ behind_slot place old }
{
    let next = place + 1;
    if old == 0 {
        TaskCounter::LoadVariable {
            place: Some(place),
            word: 0,
        }
    } else if next < OWN_SLOTS {
        TaskCounter::LoadSlot { place: next }
    } else {
        TaskCounter::LoadVariable {
            place: None,
            word: 0,
        }
    }
}

/// The counter behind the load of a data environment, in a task that has so many groups open.
fn behind_variables(open_groups: u8, place: Option<u8>) -> TaskCounter
    ensures { result ≡ behind_variables open_groups place }
{
    if open_groups == 0 {
        TaskCounter::LoadGroup { place }
    } else {
        TaskCounter::LoadLife { place, slot: 0 }
    }
}

/// The counter behind the load of a word of a data environment.
fn behind_variable(open_groups: u8, place: Option<u8>, word: u8) -> TaskCounter
    requires { word < VARIABLE_WORDS }
    ensures { result ≡ behind_task_variable open_groups place word }
{
    let next = word + 1;
    if (next as usize) < VARIABLE_WORDS {
        TaskCounter::LoadVariable { place, word: next }
    } else {
        behind_variables(open_groups, place)
    }
}

/// A word of a data environment is gathered.
fn keep_variable(a: &mut Actor, word: u8, value: u64)
    requires variables { HasVariables a.old }
    requires word { word < VARIABLE_WORDS }
    ensures { a.new ≡ with_loaded_variable word value a.old }
{
    a.gathered.variables[word as usize] = value;
}

/// The counter behind the look at the life word of an own record.
fn behind_life(l: &Layout, a: &Actor, place: Option<u8>, slot: u16, old: u64) -> TaskCounter
    requires { Searches l.now.table tasks slot }
    ensures { result ≡ behind_life l.now.table a.now place slot old }
{
    if is_free(old) {
        TaskCounter::Take {
            place,
            task: Tid(object_in(own_place(a, slot), old)),
        }
    } else {
        TaskCounter::LoadLife {
            place,
            slot: next_task_slot(l, slot),
        }
    }
}

/// The counter behind the store of a word of the new task's record.
fn behind_word(place: Option<u8>, task: Tid, word: u8) -> TaskCounter
    requires { word < TASK_WORDS }
    ensures { result ≡ behind_word place task word }
{
    let next = word + 1;
    if next < TASK_WORDS {
        TaskCounter::Fill {
            place,
            task,
            word: next,
        }
    } else {
        TaskCounter::AddPending { place, task }
    }
}

/// The counter behind the raises of all counts.
fn behind_raises(place: Option<u8>, task: Tid) -> TaskCounter
    ensures { result ≡ behind_raises place task }
{
    match place {
        None => TaskCounter::StartNow { task },
        Some(place) => TaskCounter::Defer { place, task },
    }
}

/// The counter behind the raises of all counts but that of the new task's group.
fn behind_reference(l: &Layout, a: &Actor, place: Option<u8>, task: Tid) -> TaskCounter
    requires current { HasTask l.now.table a.now.context.task }
    requires few { a.now.context.open_groups ≤ OPEN_GROUPS }
    ensures { result ≡ behind_reference l.now.table a.now place task }
{
    if new_group(l, a) == 0 {
        behind_raises(place, task)
    } else {
        TaskCounter::AddCount { place, task }
    }
}

/// The new task starts at once.
fn start_now(p: &Program, a: &mut Actor, task: Tid)
    requires fits { Fits p.now a.old }
    requires got { IsTaskGot p.now a.old None task }
    ensures { a.new ≡ past_start_now p.now task a.old }
{
    stacks_have_room();
    bodies_stand();
    let f = made_function(p, a);
    let is_final = makes_final(p, a);
    let context = task_context(a, task, is_final);
    a.begin_explicit(f, None, context);
    a.settle(p);
}

/// Moves a thread on, behind the operation of its counter.
pub fn making_move(p: &Program, l: &Layout, a: &mut Actor, c: TaskCounter, old: u64)
    requires fits { Fits p.now a.old }
    requires threads { p.now.threads ≡ thread_count l.now.table }
    requires placed { IsPlaced l.now.table a.old }
    requires at { a.old.counter ≡ counter.Task c }
    ensures { a.new ≡ making_moved p.now l.now.table a.old c old }
{
    match c {
        TaskCounter::LoadSlot { place } => to_task(a, behind_slot(place, old)),
        TaskCounter::LoadVariable { place, word } => {
            keep_variable(a, word, old);
            to_task(a, behind_variable(a.context.open_groups, place, word));
        }
        TaskCounter::LoadGroup { place } => {
            a.gathered.group = old;
            to_task(a, TaskCounter::LoadLife { place, slot: 0 });
        }
        TaskCounter::LoadLife { place, slot } => {
            let next = behind_life(l, a, place, slot, old);
            to_task(a, next);
        }
        TaskCounter::Take { place, task } => to_task(
            a,
            TaskCounter::Fill {
                place,
                task,
                word: 0,
            },
        ),
        TaskCounter::Fill { place, task, word } => to_task(a, behind_word(place, task, word)),
        TaskCounter::AddPending { place, task } => {
            to_task(a, TaskCounter::AddChildren { place, task })
        }
        TaskCounter::AddChildren { place, task } => {
            to_task(a, TaskCounter::AddReferences { place, task })
        }
        TaskCounter::AddReferences { place, task } => {
            let next = behind_reference(l, a, place, task);
            to_task(a, next);
        }
        TaskCounter::AddCount { place, task } => to_task(a, behind_raises(place, task)),
        TaskCounter::Defer { .. } => a.go_to(PlainCounter::Leave),
        TaskCounter::StartNow { task } => start_now(p, a, task),
    }
}
