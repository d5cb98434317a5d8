//! The steps of a worker.

ghost use Rattle.std.specs.Prelude.{◌≡◌, ◌<◌};
ghost use Rattle.omi_layout.specs.Table.{thread_count};
ghost use Rattle.omi_pc.specs.Fits.{Fits};
ghost use Rattle.omi_pc.specs.declared.counter.Counter.TheVariants as counter;
ghost use Rattle.omi_step_words.specs.Outcomes.{outcome_of};
ghost use Rattle.omi_step_words.specs.Placed.{IsPlaced};
ghost use Rattle.omi_fork.specs.WorkerSteps.{idle_counter, member_context, worker_moved, worker_next, worker_outcome};

use omi_layout::{Field, Layout};
use omi_model::{Rid, Tid};
use omi_numbers::{FREE_CLAIM, IDLE, function_at, state_word};
use omi_pc::{Actor, Context, Counter, WorkerCounter};
use omi_run_lists::CompactEvent;
use omi_script::Program;
use omi_step_words::{
    CompactOutcome, load, object_in, of_place, of_region, of_task, of_thread, region_place, store,
    task_place,
};
use omi_word::Op;

/// What a member but member 0 knows of its implicit task as it begins.
fn member_context(task: Tid, region: Rid, size: u64, number: u64) -> Context
    ensures { result ≡ member_context task region size number }
{
    Context {
        task,
        region,
        row: task,
        number,
        size,
        arrivals: 0,
        open_groups: 0,
        implicit: true,
        is_final: false,
        depth: 1,
    }
}

/// The counter of a worker that has ended its task.
fn idle(p: &Program) -> WorkerCounter
    ensures { result ≡ idle_counter p.now }
{
    if p.env.debug {
        WorkerCounter::IdleState
    } else {
        WorkerCounter::Offer
    }
}

/// The operation that a worker makes next.
pub fn worker_next(p: &Program, l: &Layout, a: &Actor, c: WorkerCounter) -> Op
    requires fits { Fits p.now a.now }
    requires threads { p.now.threads ≡ thread_count l.now.table }
    requires placed { IsPlaced l.now.table a.now }
    requires at { a.now.counter ≡ counter.Worker c }
    ensures { result ≡ worker_next l.now.table a.now c }
{
    let i = a.thread;
    match c {
        WorkerCounter::Begin => store(of_thread(l, i, Field::ThreadLife), 1),
        WorkerCounter::Offer => store(of_thread(l, i, Field::ThreadClaim), FREE_CLAIM),
        WorkerCounter::LoadAssign => load(of_thread(l, i, Field::ThreadAssign)),
        WorkerCounter::ClearAssign { .. } => store(of_thread(l, i, Field::ThreadAssign), 0),
        WorkerCounter::LoadLife { task } => load(of_place(l, task, Field::TaskLife)),
        WorkerCounter::LoadFunction { task } => load(of_task(l, task, Field::TaskFunction)),
        WorkerCounter::LoadRegion { task, .. } => load(of_task(l, task, Field::TaskRegion)),
        WorkerCounter::LoadRegionLife { region, .. } => load(of_place(
            l,
            region,
            Field::RegionLife,
        )),
        WorkerCounter::LoadSize { region, .. } => load(of_region(l, region, Field::RegionSize)),
        WorkerCounter::LoadNumber { task, .. } => load(of_task(l, task, Field::TaskNumber)),
        WorkerCounter::ImplicitBegin { task, .. } => {
            let record = l.task_at(task.0.creator, task.0.slot);
            store(of_thread(l, i, Field::ThreadCurrent), record)
        }
        WorkerCounter::ImplicitEnd => store(of_thread(l, i, Field::ThreadCurrent), 0),
        WorkerCounter::AddLeft { region } => Op::Add {
            at: of_region(l, region, Field::RegionLeft),
            by: 1,
        },
        WorkerCounter::IdleState => store(of_thread(l, i, Field::ThreadState), state_word(IDLE, 0)),
    }
}

/// Moves a worker on, behind the operation of its counter.
pub fn worker_move(p: &Program, l: &Layout, a: &mut Actor, c: WorkerCounter, old: u64)
    requires fits { Fits p.now a.old }
    requires at { a.old.counter ≡ counter.Worker c }
    ensures { a.new ≡ worker_moved p.now l.now.table a.old c old }
{
    let next = match c {
        WorkerCounter::Begin => WorkerCounter::Offer,
        WorkerCounter::Offer => WorkerCounter::LoadAssign,
        WorkerCounter::LoadAssign => {
            if old == 0 {
                return;
            }
            WorkerCounter::ClearAssign {
                task: task_place(l, old),
            }
        }
        WorkerCounter::ClearAssign { task } => WorkerCounter::LoadLife { task },
        WorkerCounter::LoadLife { task } => WorkerCounter::LoadFunction {
            task: Tid(object_in(task, old)),
        },
        WorkerCounter::LoadFunction { task } => WorkerCounter::LoadRegion {
            task,
            function: function_at(old),
        },
        WorkerCounter::LoadRegion { task, function } => WorkerCounter::LoadRegionLife {
            task,
            function,
            region: region_place(l, old),
        },
        WorkerCounter::LoadRegionLife {
            task,
            function,
            region,
        } => WorkerCounter::LoadSize {
            task,
            function,
            region: Rid(object_in(region, old)),
        },
        WorkerCounter::LoadSize {
            task,
            function,
            region,
        } => WorkerCounter::LoadNumber {
            task,
            function,
            region,
            size: old,
        },
        WorkerCounter::LoadNumber {
            task,
            function,
            region,
            size,
        } => WorkerCounter::ImplicitBegin {
            task,
            function,
            region,
            size,
            number: old,
        },
        WorkerCounter::ImplicitBegin {
            task,
            function,
            region,
            size,
            number,
        } => {
            a.begin_worker(function, member_context(task, region, size, number));
            a.work(p);
            return;
        }
        WorkerCounter::ImplicitEnd => {
            let region = a.context.region;
            a.close();
            WorkerCounter::AddLeft { region }
        }
        WorkerCounter::AddLeft { .. } => idle(p),
        WorkerCounter::IdleState => WorkerCounter::Offer,
    };
    a.counter = Counter::Worker(next);
}

/// What a step of a worker answers, by the word that it found.
pub fn worker_outcome(l: &Layout, a: &Actor, c: WorkerCounter, old: u64) -> CompactOutcome
    requires thread { a.now.thread < thread_count l.now.table }
    ensures { outcome_of a.now result ≡ worker_outcome l.now.table a.now c old }
{
    match c {
        WorkerCounter::Begin => CompactOutcome::Event(CompactEvent::Begin),
        WorkerCounter::Offer => CompactOutcome::Event(CompactEvent::Offer),
        WorkerCounter::LoadAssign => {
            if old != 0 {
                return CompactOutcome::Quiet;
            }
            CompactOutcome::NotReady {
                addr: of_thread(l, a.thread, Field::ThreadAssign),
                word: old,
            }
        }
        WorkerCounter::ImplicitBegin { task, .. } => CompactOutcome::Event(
            CompactEvent::ImplicitBegin { task },
        ),
        WorkerCounter::ImplicitEnd => CompactOutcome::Event(CompactEvent::ImplicitEnd {
            task: a.context.task,
        }),
        WorkerCounter::IdleState => CompactOutcome::Event(CompactEvent::State {
            state: IDLE,
            wait: 0,
        }),
        _ => CompactOutcome::Quiet,
    }
}
