//! A run of a program by threads of their own, over one table of words, with stops.

ghost use Rattle.std.specs.Prelude.{◌≡◌, ◌<◌, ◌≤◌, length, vec_len, IfOk};
ghost use Rattle.std.specs.Thread.{IsSync};
ghost use Rattle.omi_rep.specs.Suits.{Suits};
ghost use Rattle.omi_seat.specs.declared.limits.TheConstants.{MOST_BUDGET};
ghost use Rattle.omi_seat.specs.declared.step_log.Kept.{Kept};
ghost use Rattle.omi_seat.specs.Workers.{AreToBegin, IsToBegin};
ghost use Rattle.omi_park.specs.declared.limits.TheConstants.{MOST_STOPS};
ghost use Rattle.omi_park.specs.Inspecting.{HasInspected, IsBetween};
ghost use Rattle.omi_park.specs.Joined.{HasEnded, HaveEnded, IsParkedKept};
ghost use Rattle.omi_park.specs.Parked.{IsParked};
ghost use Rattle.omi_park.specs.Plays.{first_inspector, first_part};
ghost use Rattle.omi_park.specs.Work.{IsTableFor};

use crate::inspector::Inspector;
use crate::known::Part;
use crate::progress::Shares;
use crate::rule::{Given, Running};
use crate::stopped::StopList;
use crate::table::Words;
use crate::worker::work;
use atomic_table::Table;
use omi_core::{OutOfMemory, RunList, opening_image};
use omi_layout::{Layout, MOST_THREADS};
use omi_outside::Gate;
use omi_script::Program;
use omi_seat::{Kept, Runner, all_joined, image_of, words_of, workers_at};
use omi_word::Image;
use std::alloc::Global;
use std::snapshot::Snapshot;
use std::sync::Wait;
use std::thread;
use std::thread::Threads;

/// What a run of threads with stops leaves: the stops, the words, and what each thread made.
#[derive(Drop)]
pub struct ParkEnd {
    pub stops: StopList,
    pub runs: RunList,
    pub image: Image,
}

/// Lets each worker work, in at most so many threads. One for which no thread can be made works behind another one. Takes no memory.
fn all_worked<R: Threads + Wait + Sync, G: Gate>(
    rt: &R,
    p: &Program,
    l: &Layout,
    words: &Words,
    budget: u64,
    shares: &Shares,
    gate: &G,
    threads: u8,
    workers: &mut Vec<Runner<Part>>,
)
    requires suits { Suits p.now l.now.table }
    requires some { 0 < threads }
    requires table { IsTableFor p.now l.now words.now.key words.now.table_id }
    requires budget { budget ≤ MOST_BUDGET }
    requires begin { (keeps : Kept) × AreToBegin p.now l.now words.now.table_id budget keeps
        (first_part p.now l.now) (vec_len workers.old) workers.old.items }
    ensures threads { vec_len workers.new ≡ vec_len workers.old }
    ensures ended { (keeps : Kept) → AreToBegin p.now l.now words.now.table_id budget keeps
        (first_part p.now l.now) (vec_len workers.old) workers.old.items
        → HaveEnded p.now l.now words.now.table_id budget keeps (vec_len workers.old)
        workers.new.items }
{
    let run = |_at: usize, runner: &mut Runner<Part>|
        requires { Suits p.now l.now.table
            × IsTableFor p.now l.now words.now.key words.now.table_id
            × (budget ≤ MOST_BUDGET)
            × IsToBegin p.now l.now words.now.table_id budget runner.now.worker.log.kept
            (first_part p.now l.now runner.now.worker.log.thread) runner.now.worker }
        ensures { HasEnded p.entry.now l.entry.now words.entry.now.table_id budget
            runner.entry.now.worker.log.kept runner.entry.now.worker.log.thread runner.exit.now }
    {
        runner.until = work(rt, &mut runner.worker, p, l, words, budget, shares, gate);
    };
    thread::for_each_mut(rt, workers, usize::from(threads), &run);
}

/// The workers behind their work.
fn worked<R: Threads + Wait + Sync, G: Gate>(
    rt: &R,
    p: &Program,
    l: &Layout,
    words: &Words,
    budget: u64,
    shares: &Shares,
    gate: &G,
    threads: u8,
    mut workers: Vec<Runner<Part>>,
) -> Vec<Runner<Part>>
    requires suits { Suits p.now l.now.table }
    requires some { 0 < threads }
    requires table { IsTableFor p.now l.now words.now.key words.now.table_id }
    requires budget { budget ≤ MOST_BUDGET }
    requires begin { (keeps : Kept) × AreToBegin p.now l.now words.now.table_id budget keeps
        (first_part p.now l.now) (vec_len workers) workers.items }
    ensures threads { vec_len result ≡ vec_len workers }
    ensures ended { (keeps : Kept) → AreToBegin p.now l.now words.now.table_id budget keeps
        (first_part p.now l.now) (vec_len workers) workers.items
        → HaveEnded p.now l.now words.now.table_id budget keeps (vec_len workers) result.items }
{
    all_worked(rt, p, l, words, budget, shares, gate, threads, &mut workers);
    workers
}

/// The inspector behind its stops.
fn inspected<R: Threads + Wait + Sync, G: Gate>(
    rt: &R,
    p: &Program,
    l: &Layout,
    words: &Words,
    shares: &Shares,
    gate: &G,
    mut inspector: Inspector,
) -> Inspector
    requires table { IsTableFor p.now l.now words.now.key words.now.table_id }
    requires between { IsBetween p.now l.now words.now.table_id first_inspector inspector }
    ensures { HasInspected words.now.table_id (vec_len inspector.rooms) result }
{
    inspector.inspect(rt, p, l, words, shares, gate);
    inspector
}

/// Lets the workers work, in at most so many threads, and the inspector make its stops beside them. Where no thread can be made for the
/// inspector, it makes them behind the workers.
fn beside<R: Threads + Wait + Sync, G: Gate>(
    rt: &R,
    p: &Program,
    l: &Layout,
    words: &Words,
    budget: u64,
    shares: &Shares,
    gate: &G,
    threads: u8,
    workers: Vec<Runner<Part>>,
    inspector: Inspector,
) -> (Inspector, Vec<Runner<Part>>)
    requires suits { Suits p.now l.now.table }
    requires table { IsTableFor p.now l.now words.now.key words.now.table_id }
    requires budget { budget ≤ MOST_BUDGET }
    requires begin { (keeps : Kept) × AreToBegin p.now l.now words.now.table_id budget keeps
        (first_part p.now l.now) (vec_len workers) workers.items }
    requires between { IsBetween p.now l.now words.now.table_id first_inspector inspector }
    ensures inspected { HasInspected words.now.table_id (vec_len inspector.rooms) result.0 }
    ensures threads { vec_len result.1 ≡ vec_len workers }
    ensures ended { (keeps : Kept) → AreToBegin p.now l.now words.now.table_id budget keeps
        (first_part p.now l.now) (vec_len workers) workers.items
        → HaveEnded p.now l.now words.now.table_id budget keeps (vec_len workers)
        result.1.items }
{
    if threads == 0 {
        let workers = worked(rt, p, l, words, budget, shares, gate, 1, workers);
        return (inspected(rt, p, l, words, shares, gate, inspector), workers);
    }
    thread::join(
        rt,
        move || -> Inspector
            requires { IsSync R.row × IsSync G.row
                × IsTableFor p.now l.now words.now.key words.now.table_id
                × IsBetween p.now l.now words.now.table_id first_inspector inspector }
            ensures { HasInspected words.entry.now.table_id (vec_len inspector.rooms) result }
        { inspected(rt, p, l, words, shares, gate, inspector) },
        move || -> Vec<Runner<Part>>
            requires { IsSync R.row × IsSync G.row × (0 < threads) × Suits p.now l.now.table
                × IsTableFor p.now l.now words.now.key words.now.table_id
                × (budget ≤ MOST_BUDGET)
                × ((keeps : Kept) × AreToBegin p.now l.now words.now.table_id budget keeps
                (first_part p.now l.now) (vec_len workers) workers.items) }
            ensures { (vec_len result ≡ vec_len workers)
                × ((keeps : Kept) → AreToBegin p.entry.now l.entry.now words.entry.now.table_id budget
                keeps (first_part p.entry.now l.entry.now) (vec_len workers) workers.items
                → HaveEnded p.entry.now l.entry.now words.entry.now.table_id budget keeps
                (vec_len workers) result.items) }
        { worked(rt, p, l, words, budget, shares, gate, threads, workers) },
    )
}

/// As `park_within`, where this is kept of each thread's steps.
pub(crate) fn park_keeping<R: Threads + Wait + Sync, G: Gate>(
    rt: &R,
    alloc: Global,
    p: &Program,
    l: &Layout,
    budget: u64,
    stops: u8,
    gate: &G,
    threads: u8,
    kept: Kept,
) -> Result<ParkEnd, OutOfMemory>
    requires suits { Suits p.now l.now.table }
    requires budget { budget ≤ MOST_BUDGET }
    requires stops { stops ≤ MOST_STOPS }
    ensures parked { IfOk result
        (λ end. IsParkedKept p.now l.now budget kept end.image end.runs end.stops) }
    ensures stops { IfOk result (λ end. length end.stops ≡ stops) }
{
    let first = opening_image(alloc, p, l)?;
    let opening = words_of(alloc, &first, 1 + usize::from(p.threads))?;
    let given = Given {
        program: Snapshot::of(p),
        layout: Snapshot::of(l),
    };
    let (table, mut seat) = Table::of_words(alloc, &opening, &given)?;
    drop(opening);
    let workers = workers_at(alloc, p, budget, kept, &table.shared, &mut seat)?;
    let room = Vec::with_capacity(alloc, workers.len())?;
    let inspector = Inspector::opening(alloc, p, l, stops, seat)?;
    gate.open(p.threads, budget);
    let (inspector, workers) = beside(
        rt,
        p,
        l,
        &table.shared,
        budget,
        &Shares::of(budget, stops),
        gate,
        threads,
        workers,
        inspector,
    );
    let (mut seat, stops) = inspector.parts();
    let runs = all_joined(&table.shared, &mut seat, workers, room);
    let closed = table.close_with(seat);
    let image = image_of(first, &closed);
    closed.free();
    Ok(ParkEnd { stops, runs, image })
}

/// As `park`, where at most so many threads can be made for the program's threads, and where none can, none for the inspector either. Work
/// that gets no thread runs behind other work: a thread of the program that has not begun holds no stop up, and an inspector makes its stops
/// behind the threads.
pub fn park_within<R: Threads + Wait + Sync, G: Gate>(
    rt: &R,
    alloc: Global,
    p: &Program,
    l: &Layout,
    budget: u64,
    stops: u8,
    gate: &G,
    threads: u8,
) -> Result<ParkEnd, OutOfMemory>
    requires suits { Suits p.now l.now.table }
    requires budget { budget ≤ MOST_BUDGET }
    requires stops { stops ≤ MOST_STOPS }
    ensures parked { IfOk result
        (λ end. IsParked p.now l.now budget end.image end.runs end.stops) }
    ensures stops { IfOk result (λ end. length end.stops ≡ stops) }
{
    let end = park_keeping(rt, alloc, p, l, budget, stops, gate, threads, Kept::Steps)?;
    Ok(end)
}

/// Runs a program in a layout that suits it, each thread as work of its own over one table of words, for at most `budget` steps of each
/// thread, and makes so many stops beside them. `gate` is passed before each step, and by the inspector before and behind each call to
/// stop. All room is taken before the first step. It waits, and nothing is said of its return.
pub fn park<R: Threads + Wait + Sync, G: Gate>(
    rt: &R,
    alloc: Global,
    p: &Program,
    l: &Layout,
    budget: u64,
    stops: u8,
    gate: &G,
) -> Result<ParkEnd, OutOfMemory>
    requires suits { Suits p.now l.now.table }
    requires budget { budget ≤ MOST_BUDGET }
    requires stops { stops ≤ MOST_STOPS }
    ensures parked { IfOk result
        (λ end. IsParked p.now l.now budget end.image end.runs end.stops) }
    ensures stops { IfOk result (λ end. length end.stops ≡ stops) }
{
    park_within(rt, alloc, p, l, budget, stops, gate, MOST_THREADS as u8)
}
