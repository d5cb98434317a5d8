//! The operations and the outcomes of a `task` construct.

ghost use Rattle.std.specs.Prelude.{◌≡◌, ◌<◌, ◌≤◌};
ghost use Rattle.omi_layout.specs.Field.{tasks};
ghost use Rattle.omi_layout.specs.Place.{IsSlot};
ghost use Rattle.omi_layout.specs.Table.{thread_count};
ghost use Rattle.omi_pc.specs.Fits.{Fits};
ghost use Rattle.omi_pc.specs.declared.counter.Counter.TheVariants as counter;
ghost use Rattle.omi_numbers.specs.declared.limits.TheConstants.{OPEN_GROUPS, OWN_SLOTS};
ghost use Rattle.omi_pc.specs.declared.limits.TheConstants.{TASK_WORDS};
ghost use Rattle.omi_step_words.specs.Outcomes.{outcome_of};
ghost use Rattle.omi_step_words.specs.Placed.{HasGroupWords, HasOptionalTask, HasRegion, HasTask, IsPlaced};
ghost use Rattle.omi_step_words.specs.Plan.{filling, task_plan};
ghost use Rattle.omi_task.specs.MakingSteps;
ghost use Rattle.omi_task.specs.MakingSteps.{making_next, making_outcome, new_task, of_own_slot};

use crate::groups::new_group;
use crate::slots::slot_word;
use omi_layout::{Field, GROUP_PLACE, Layout};
use omi_model::Id;
use omi_numbers::exit_frame;
use omi_pc::{Actor, TaskCounter};
use omi_run_lists::CompactEvent;
use omi_script::{Program, Stmt};
use omi_step_words::{
    CompactOutcome, NewTask, fill, load, of_group_count, of_groups, of_place, of_region, of_task,
    of_thread, of_variable, own_place, search_outcome, store, task_plan, used_word,
};
use omi_word::Op;

/// The function of the `task` construct in work, and 0 where there is none.
pub fn made_function(p: &Program, a: &Actor) -> u8
    ensures { result ≡ MakingSteps.made_function p.now a.now }
{
    match a.statement(p) {
        Some(Stmt::Task { f, .. }) => f,
        _ => 0,
    }
}

/// Whether the task that the construct in work makes is final.
pub fn makes_final(p: &Program, a: &Actor) -> bool
    ensures { result ≡ MakingSteps.makes_final p.now a.now }
{
    let given = match a.statement(p) {
        Some(Stmt::Task { is_final, .. }) => is_final,
        _ => false,
    };
    given || a.context.is_final
}

/// The new task, as if it started now on this thread.
fn new_task(p: &Program, l: &Layout, a: &Actor) -> NewTask
    requires task { HasTask l.now.table a.now.context.task }
    requires few { a.now.context.open_groups ≤ OPEN_GROUPS }
    ensures { result ≡ new_task p.now l.now.table a.now }
{
    let task = a.context.task;
    NewTask {
        implicit: false,
        region: a.context.region,
        thread: a.thread,
        number: a.context.number,
        generating: task,
        scheduling: Some(task),
        function: made_function(p, a),
        exit: exit_frame(a.thread, u64::from(a.context.depth) + 1),
        is_final: makes_final(p, a),
        references: 1,
        group: new_group(l, a),
        variables: a.gathered.variables,
    }
}

/// The store of a word into the record of a new task.
fn fill_task(l: &Layout, task: Id, new: &NewTask, word: u8) -> Op
    requires word { word < TASK_WORDS }
    requires slot { IsSlot l.now.table tasks task.creator task.slot }
    requires region { HasRegion l.now.table new.now.region }
    requires thread { new.now.thread < thread_count l.now.table }
    requires generating { HasTask l.now.table new.now.generating }
    requires scheduling { HasOptionalTask l.now.table new.now.scheduling }
    requires groups { HasGroupWords l.now.table }
    ensures { result ≡ filling l.now.table task (task_plan l.now.table new.now word) }
{
    fill(l, task, task_plan(l, new, word))
}

/// The address of an own slot.
fn of_own_slot(l: &Layout, a: &Actor, place: u8) -> u64
    requires place { place < OWN_SLOTS }
    requires row { HasTask l.now.table a.now.context.row }
    ensures { result ≡ of_own_slot l.now.table a.now place }
{
    let row = a.context.row.0;
    l.word_at(row.creator, row.slot, Field::TaskSlots, place)
}

/// The operation that a thread makes next in a `task` construct.
pub fn making_next(p: &Program, l: &Layout, a: &Actor, c: TaskCounter) -> Op
    requires fits { Fits p.now a.now }
    requires threads { p.now.threads ≡ thread_count l.now.table }
    requires placed { IsPlaced l.now.table a.now }
    requires groups { HasGroupWords l.now.table }
    requires at { a.now.counter ≡ counter.Task c }
    ensures { result ≡ making_next p.now l.now.table a.now c }
{
    let current = a.context.task;
    match c {
        TaskCounter::LoadSlot { place } => load(of_own_slot(l, a, place)),
        TaskCounter::LoadVariable { word, .. } => load(of_variable(l, current.0, word)),
        TaskCounter::LoadGroup { .. } => load(of_groups(l, current, GROUP_PLACE)),
        TaskCounter::LoadLife { slot, .. } => load(of_place(
            l,
            own_place(a, slot),
            Field::TaskLife,
        )),
        TaskCounter::Take { task, .. } => {
            store(of_task(l, task, Field::TaskLife), used_word(task.0))
        }
        TaskCounter::Fill { task, word, .. } => fill_task(l, task.0, &new_task(p, l, a), word),
        TaskCounter::AddPending { .. } => Op::Add {
            at: of_region(l, a.context.region, Field::RegionPending),
            by: 1,
        },
        TaskCounter::AddChildren { .. } => Op::Add {
            at: of_task(l, current, Field::TaskChildren),
            by: 1,
        },
        TaskCounter::AddReferences { .. } => Op::Add {
            at: of_task(l, current, Field::TaskReferences),
            by: 1,
        },
        TaskCounter::AddCount { .. } => Op::Add {
            at: of_group_count(l, new_group(l, a)),
            by: 1,
        },
        TaskCounter::Defer { place, task } => store(of_own_slot(l, a, place), slot_word(l, task)),
        TaskCounter::StartNow { task } => {
            let record = l.task_at(task.0.creator, task.0.slot);
            store(of_thread(l, a.thread, Field::ThreadCurrent), record)
        }
    }
}

/// What a step of a `task` construct answers, by the word that it found.
pub fn making_outcome(
    p: &Program,
    l: &Layout,
    a: &Actor,
    c: TaskCounter,
    old: u64,
) -> CompactOutcome
    requires fits { Fits p.now a.now }
    requires threads { p.now.threads ≡ thread_count l.now.table }
    requires placed { IsPlaced l.now.table a.now }
    requires at { a.now.counter ≡ counter.Task c }
    ensures { outcome_of a.now result ≡ making_outcome l.now.table a.now c old }
{
    match c {
        TaskCounter::LoadSlot { place } => {
            if old == 0 {
                CompactOutcome::Quiet
            } else {
                CompactOutcome::Event(CompactEvent::Seen { j: place })
            }
        }
        TaskCounter::LoadLife { slot, .. } => search_outcome(l, a, slot, Field::TaskLife, old),
        TaskCounter::Defer { task, .. } => CompactOutcome::Event(CompactEvent::Defer { task }),
        TaskCounter::StartNow { task } => CompactOutcome::Event(CompactEvent::StartNow { task }),
        _ => CompactOutcome::Quiet,
    }
}
