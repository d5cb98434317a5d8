//! A run of a program by threads of their own, over one table of words.

ghost use Rattle.std.specs.Prelude.{◌≡◌, ◌≤◌, vec_len, IfOk};
ghost use Rattle.omi_rep.specs.Suits.{Suits};
ghost use Rattle.omi_live.specs.Joined.{HasEnded, HaveEnded, IsLiveKept};
ghost use Rattle.omi_live.specs.Live.{IsLive};
ghost use Rattle.omi_live.specs.Plays.{first_part};
ghost use Rattle.omi_live.specs.Work.{IsTableFor};
ghost use Rattle.omi_seat.specs.declared.limits.TheConstants.{MOST_BUDGET};
ghost use Rattle.omi_seat.specs.declared.step_log.Kept.{Kept};
ghost use Rattle.omi_seat.specs.Workers.{AreToBegin, IsToBegin};

use crate::known::Part;
use crate::rule::{Given, Running};
use crate::worker::{Words, work};
use atomic_table::Table;
use omi_core::{Break, OutOfMemory, RunList, opening_image};
use omi_layout::{Layout, MOST_THREADS};
use omi_outside::Gate;
use omi_script::Program;
use omi_seat::{Kept, Runner, all_joined, image_of, words_of, workers_at};
use omi_word::Image;
use std::alloc::Global;
use std::snapshot::Snapshot;
use std::thread;
use std::thread::Threads;

/// What a run of threads leaves: the words, and what each thread made.
#[derive(Drop)]
pub struct LiveEnd {
    pub image: Image,
    pub runs: RunList,
}

/// Lets each worker work, in a thread of its own where one can be made. Takes no memory.
fn all_worked<R: Threads + Sync, G: Gate>(
    rt: &R,
    p: &Program,
    l: &Layout,
    words: &Words,
    budget: u64,
    on: Option<Break>,
    gate: &G,
    workers: &mut Vec<Runner<Part>>,
)
    requires suits { Suits p.now l.now.table }
    requires table { IsTableFor p.now l.now on words.now.key words.now.table_id }
    requires budget { budget ≤ MOST_BUDGET }
    requires begin { (keeps : Kept) × AreToBegin p.now l.now words.now.table_id budget keeps
        (first_part p.now l.now) (vec_len workers.old) workers.old.items }
    ensures threads { vec_len workers.new ≡ vec_len workers.old }
    ensures ended { (keeps : Kept) → AreToBegin p.now l.now words.now.table_id budget keeps
        (first_part p.now l.now) (vec_len workers.old) workers.old.items
        → HaveEnded p.now l.now words.now.table_id budget on keeps (vec_len workers.old)
        workers.new.items }
{
    let run = |_at: usize, runner: &mut Runner<Part>|
        requires { Suits p.now l.now.table
            × IsTableFor p.now l.now on words.now.key words.now.table_id
            × (budget ≤ MOST_BUDGET)
            × IsToBegin p.now l.now words.now.table_id budget runner.now.worker.log.kept
            (first_part p.now l.now runner.now.worker.log.thread) runner.now.worker }
        ensures { HasEnded p.entry.now l.entry.now words.entry.now.table_id budget on
            runner.entry.now.worker.log.kept runner.entry.now.worker.log.thread runner.exit.now }
    {
        runner.until = work(&mut runner.worker, p, l, words, budget, on, gate);
    };
    thread::for_each_mut(rt, workers, MOST_THREADS as usize, &run);
}

/// As `live`, where this is kept of each thread's steps.
pub(crate) fn live_keeping<R: Threads + Sync, G: Gate>(
    rt: &R,
    alloc: Global,
    p: &Program,
    l: &Layout,
    budget: u64,
    on: Option<Break>,
    gate: &G,
    kept: Kept,
) -> Result<LiveEnd, OutOfMemory>
    requires suits { Suits p.now l.now.table }
    requires budget { budget ≤ MOST_BUDGET }
    ensures { IfOk result (λ end. IsLiveKept p.now l.now budget on kept end.image end.runs) }
{
    let first = opening_image(alloc, p, l)?;
    let opening = words_of(alloc, &first, 1)?;
    let given = Given {
        program: Snapshot::of(p),
        layout: Snapshot::of(l),
        on,
    };
    let (table, mut seat) = Table::of_words(alloc, &opening, &given)?;
    drop(opening);
    let mut workers = workers_at(alloc, p, budget, kept, &table.shared, &mut seat)?;
    let room = Vec::with_capacity(alloc, workers.len())?;
    gate.open(p.threads, budget);
    all_worked(rt, p, l, &table.shared, budget, on, gate, &mut workers);
    let runs = all_joined(&table.shared, &mut seat, workers, room);
    let closed = table.close_with(seat);
    let image = image_of(first, &closed);
    closed.free();
    Ok(LiveEnd { image, runs })
}

/// Runs a program in a layout that suits it, each thread as work of its own over one table of words, for at most `budget` steps of each
/// thread. Where an event of the kind `on` was committed, all threads are told to stop. `gate` is passed before each step. Where no thread
/// can be made, the threads work one after another. All room is taken before the first step.
pub fn live<R: Threads + Sync, G: Gate>(
    rt: &R,
    alloc: Global,
    p: &Program,
    l: &Layout,
    budget: u64,
    on: Option<Break>,
    gate: &G,
) -> Result<LiveEnd, OutOfMemory>
    requires suits { Suits p.now l.now.table }
    requires budget { budget ≤ MOST_BUDGET }
    ensures { IfOk result (λ end. IsLive p.now l.now budget on end.image end.runs) }
{
    let end = live_keeping(rt, alloc, p, l, budget, on, gate, Kept::Steps)?;
    Ok(end)
}
