//! The workers of all threads of a program: how each gets a seat, and how what they made is taken together behind their work.

ghost use Rattle.std.specs.Prelude.{◌≡◌, ◌<◌, ◌≤◌, ◌++◌, ℕ, List, [], length, vec_capacity, vec_len, IfOk};
ghost use Rattle.omi_layout.specs.declared.layout.Layout.{Layout};
ghost use Rattle.omi_seat.specs.declared.limits.TheConstants.{MOST_BUDGET};
ghost use Rattle.omi_seat.specs.Workers.{AreJoined, AreSeatedAt, AreToBegin, IsLeft, IsReady, IsSeatedAt, IsToSplit, MayJoin};

use crate::split_join::{First, Together};
use crate::step_log::{Kept, StepLog};
use crate::worker::Worker;
use atomic_table::{Seat, Shared, TableRule};
use omi_core::{OutOfMemory, RunList, ThreadRun, Until};
use omi_list::List;
use omi_script::Program;
use std::alloc::Global;

/// A worker, and why it made no further step: behind its work, and Budget before.
pub struct Runner<X> {
    pub worker: Worker<X>,
    pub until: Until,
}

// Written out: docs/DECISIONS.md, "A drop written out".
impl<X> Drop for Runner<X> {
    fn drop(self) {
        let Runner {
            worker: _worker,
            until: _until,
        } = self;
    }
}

impl<X> Runner<X> {
    /// The worker, and why it made no further step.
    fn parts(self) -> (Worker<X>, Until)
        ensures worker { result.0 ≡ self.worker }
        ensures until { result.1 ≡ self.until }
    {
        let Runner { worker, until } = self;
        (worker, until)
    }
}

/// The worker of a thread at a seat, before its first step. Takes the room of its budget.
fn worker_at<X>(
    alloc: Global,
    p: &Program,
    thread: u8,
    budget: u64,
    kept: Kept,
    seat: Seat<(), List<X>>,
) -> Result<Worker<X>, OutOfMemory>
    requires thread { thread < p.now.threads }
    requires budget { budget ≤ MOST_BUDGET }
    ensures thread { IfOk result (λ worker. worker.log.thread ≡ thread) }
    ensures seat { IfOk result (λ worker. worker.seat ≡ seat) }
    ensures ready { (l : Layout) → IfOk result (λ worker. IsReady p.now l budget kept worker.log) }
{
    let log = StepLog::opening(alloc, p, thread, budget, kept)?;
    Ok(Worker { seat, log })
}

/// The workers of all threads, the last one first, each at a seat of its own that is split off from the first one. Takes the room of
/// their budgets.
pub fn workers_at<X, K, P: TableRule<(), List<X>, K>>(
    alloc: Global,
    p: &Program,
    budget: u64,
    kept: Kept,
    words: &Shared<(), List<X>, K, P>,
    seat: &mut Seat<(), List<X>>,
) -> Result<Vec<Runner<X>>, OutOfMemory>
    requires count { 0 < words.now.table_id.words }
    requires seated { seat.old.table_id ≡ words.now.table_id }
    requires budget { budget ≤ MOST_BUDGET }
    requires split { (part : ℕ → X) × (rest : List X)
        × IsToSplit (P.holds words.now.key) p.now.threads part rest seat.old.me }
    ensures seated { seat.new.table_id ≡ words.now.table_id }
    ensures rest { (part : ℕ → X) (rest : List X)
        → IsToSplit (P.holds words.now.key) p.now.threads part rest seat.old.me
        → IfOk result (λ workers. seat.new.me ≡ (rest, [])) }
    ensures threads { IfOk result (λ workers. vec_len workers ≡ p.now.threads) }
    ensures begin { (l : Layout) (part : ℕ → X) (rest : List X)
        → IsToSplit (P.holds words.now.key) p.now.threads part rest seat.old.me
        → IfOk result (λ workers. AreToBegin p.now l words.now.table_id budget kept part
        p.now.threads workers.items) }
{
    let mut workers = Vec::new(alloc);
    for made in 0..p.threads {
        let own = words.split_seat::<First>(seat);
        let worker = worker_at(alloc, p, p.threads - 1 - made, budget, kept, own)?;
        workers.push(Runner {
            worker,
            until: Until::Budget,
        })?;
    }
    Ok(workers)
}

/// What a worker made, whose seat is taken in by another one.
fn joined<X, K, P: TableRule<(), List<X>, K>>(
    words: &Shared<(), List<X>, K, P>,
    seat: &mut Seat<(), List<X>>,
    ended: Runner<X>,
) -> ThreadRun
    requires count { 0 < words.now.table_id.words }
    requires seated { seat.old.table_id ≡ words.now.table_id }
    requires theirs { IsSeatedAt words.now.table_id ended }
    requires may { MayJoin (P.holds words.now.key) }
    ensures seated { seat.new.table_id ≡ seat.old.table_id }
    ensures knows { seat.new.me
        ≡ (seat.old.me.0 ++ ended.worker.seat.me.0, seat.old.me.1) }
    ensures left { IsLeft ended result }
{
    let (worker, until) = ended.parts();
    let (own, log) = worker.parts();
    let StepLog {
        thread: _thread,
        kept: _kept,
        steps,
        actor,
        made,
        events,
    } = log;
    words.join_seat::<Together>(seat, own);
    ThreadRun {
        steps,
        until,
        made,
        events,
        actor,
    }
}

/// What the workers made, in the order of their threads, in a vector that has room for it. Takes no memory.
pub fn all_joined<X, K, P: TableRule<(), List<X>, K>>(
    words: &Shared<(), List<X>, K, P>,
    seat: &mut Seat<(), List<X>>,
    mut all: Vec<Runner<X>>,
    mut runs: Vec<ThreadRun>,
) -> RunList
    requires empty { runs.items ≡ [] }
    requires room { vec_len all ≤ vec_capacity runs }
    requires count { 0 < words.now.table_id.words }
    requires seated { seat.old.table_id ≡ words.now.table_id }
    requires none { seat.old.me.1 ≡ [] }
    requires theirs { AreSeatedAt words.now.table_id all.items }
    requires may { MayJoin (P.holds words.now.key) }
    ensures seated { seat.new.table_id ≡ words.now.table_id }
    ensures threads { length result ≡ vec_len all }
    ensures joined { AreJoined (vec_len all) all.items seat.old.me.0 seat.new.me.0 result }
{
    while let Some(ended) = all.pop() {
        runs.push_reserved(joined(words, seat, ended));
    }
    RunList::from_vec(runs)
}
