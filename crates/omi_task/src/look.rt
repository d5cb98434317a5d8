//! The operations and the outcomes of a wait.

ghost use Rattle.std.specs.Prelude.{◌≡◌, ◌<◌};
ghost use Rattle.omi_numbers.specs.declared.words.TheConstants.{WAIT_PLACE};
ghost use Rattle.omi_layout.specs.Table.{thread_count};
ghost use Rattle.omi_pc.specs.Fits.{Fits};
ghost use Rattle.omi_pc.specs.declared.counter.Counter.TheVariants as counter;
ghost use Rattle.omi_step_words.specs.Outcomes.{outcome_of};
ghost use Rattle.omi_step_words.specs.Placed.{HasGroupWords, HasTaskPlace, IsPlaced};
ghost use Rattle.omi_task.specs.LookSteps.{look_next, look_outcome, of_slot, wait_state};

use crate::groups::of_innermost_count;
use crate::slots::coded_task;
use crate::starts::start_plan;
use omi_layout::{Field, GROUP_PLACE, Layout, OPEN_PLACE};
use omi_numbers::{
    OWN_SLOTS, WAIT_BARRIER_EXPLICIT, WAIT_BARRIER_IMPLICIT_PARALLEL, WAIT_TASKGROUP,
    WAIT_TASKWAIT, state_word,
};
use omi_pc::{Actor, Barrier, LookCounter, Place, Wait};
use omi_run_lists::CompactEvent;
use omi_script::Program;
use omi_step_words::{CompactOutcome, fill, load, of_groups, of_task, of_thread, store};
use omi_word::Op;

/// The state of a thread that waits, and 0 for a wait in which it stores none.
fn wait_state(v: Wait) -> u32
    ensures value { result ≡ wait_state v }
    ensures small { result < WAIT_PLACE }
{
    match v {
        Wait::Barrier {
            barrier: Barrier::Explicit,
        } => WAIT_BARRIER_EXPLICIT,
        Wait::Barrier {
            barrier: Barrier::Implicit,
        } => WAIT_BARRIER_IMPLICIT_PARALLEL,
        Wait::Taskwait => WAIT_TASKWAIT,
        Wait::Taskyield => 0,
        Wait::Taskgroup => WAIT_TASKGROUP,
    }
}

/// The address of a slot, by its number among those of all members.
fn of_slot(l: &Layout, row: Place, look: u16) -> u64
    requires { HasTaskPlace l.now.table row }
    ensures { result ≡ of_slot l.now.table row look }
{
    let place = (look % u16::from(OWN_SLOTS)) as u8;
    l.word_at(row.creator, row.slot, Field::TaskSlots, place)
}

/// The operation that a thread makes next in a wait.
pub fn look_next(p: &Program, l: &Layout, a: &Actor, c: LookCounter) -> Op
    requires fits { Fits p.now a.now }
    requires threads { p.now.threads ≡ thread_count l.now.table }
    requires placed { IsPlaced l.now.table a.now }
    requires groups { HasGroupWords l.now.table }
    requires at { a.now.counter ≡ counter.Look c }
    ensures { result ≡ look_next l.now.table a.now c }
{
    let i = a.thread;
    match c {
        LookCounter::State { wait } => store(
            of_thread(l, i, Field::ThreadState),
            state_word(wait_state(wait), 0),
        ),
        LookCounter::LoadRow { look, .. } => {
            let region = a.context.region.0;
            let member = (look / u16::from(OWN_SLOTS)) as u8;
            load(l.word_at(region.creator, region.slot, Field::RegionTeam, member))
        }
        LookCounter::LoadSlot { look, row, .. } => load(of_slot(l, row, look)),
        LookCounter::LoadGenerating { code, .. } => {
            load(of_task(l, coded_task(l, code), Field::TaskGenerating))
        }
        LookCounter::LoadGroup { code, .. } => {
            load(of_groups(l, coded_task(l, code), GROUP_PLACE))
        }
        LookCounter::Take {
            look,
            row,
            code,
            ..
        } => Op::Cas {
            at: of_slot(l, row, look),
            old: code,
            new: 0,
        },
        LookCounter::LoadFunction { task, .. } => load(of_task(l, task, Field::TaskFunction)),
        LookCounter::LoadFinal { task, .. } => load(of_task(l, task, Field::TaskFinal)),
        LookCounter::Fill { task, word, .. } => fill(l, task.0, start_plan(l, a, word)),
        LookCounter::Start { task, .. } => {
            let record = l.task_at(task.0.creator, task.0.slot);
            store(of_thread(l, i, Field::ThreadCurrent), record)
        }
        LookCounter::LoadChildren => load(of_task(l, a.context.task, Field::TaskChildren)),
        LookCounter::LoadCount => load(of_innermost_count(l, a)),
        LookCounter::GroupEnd => store(
            of_groups(l, a.context.task, OPEN_PLACE),
            u64::from(a.context.open_groups.saturating_sub(1)),
        ),
        LookCounter::Yield { .. } => load(of_thread(l, i, Field::ThreadNative)),
    }
}

/// What a step of a wait answers, by the word that it found.
pub fn look_outcome(p: &Program, l: &Layout, a: &Actor, c: LookCounter, old: u64) -> CompactOutcome
    requires fits { Fits p.now a.now }
    requires threads { p.now.threads ≡ thread_count l.now.table }
    requires placed { IsPlaced l.now.table a.now }
    requires groups { HasGroupWords l.now.table }
    requires at { a.now.counter ≡ counter.Look c }
    ensures { outcome_of a.now result ≡ look_outcome l.now.table a.now c old }
{
    match c {
        LookCounter::State { wait } => CompactOutcome::Event(CompactEvent::State {
            state: wait_state(wait),
            wait: 0,
        }),
        LookCounter::Start { task, .. } => CompactOutcome::Event(CompactEvent::Start { task }),
        LookCounter::LoadChildren => {
            if old == 0 {
                return CompactOutcome::Event(CompactEvent::WaitDone);
            }
            let addr = of_task(l, a.context.task, Field::TaskChildren);
            CompactOutcome::NotReady { addr, word: old }
        }
        LookCounter::LoadCount => {
            if old == 0 {
                return CompactOutcome::Quiet;
            }
            let addr = of_innermost_count(l, a);
            CompactOutcome::NotReady { addr, word: old }
        }
        LookCounter::GroupEnd => CompactOutcome::Event(CompactEvent::GroupEnd),
        LookCounter::Yield { .. } => CompactOutcome::Event(CompactEvent::Yield),
        _ => CompactOutcome::Quiet,
    }
}
