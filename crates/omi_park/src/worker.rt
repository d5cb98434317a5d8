//! The work of a thread. It says now and then how far it is, stops where the inspector calls, and leaves at its end.

ghost use Rattle.std.specs.Prelude.{◌≡◌, ◌<◌, ◌≤◌, length};
ghost use Rattle.omi_rep.specs.Suits.{Suits};
ghost use Rattle.omi_seat.specs.declared.limits.TheConstants.{MOST_BUDGET};
ghost use Rattle.omi_seat.specs.StepLog.{HasRoom};
ghost use Rattle.omi_park.specs.declared.known.WorkerPart.{WorkerPart};
ghost use Rattle.omi_park.specs.Acknowledged.{acknowledgement, farewell};
ghost use Rattle.omi_park.specs.Plays.{first_worker, says};
ghost use Rattle.omi_park.specs.Work.{HasBegun, HasGoneOn, HasLoaded, HasTold, HasWorked, IsAtWork, IsPausing, IsSameBut, IsSeatOf, IsTableFor, IsTableOf, IsToGoOn, IsToPark, IsToSay};

use crate::known::Part;
use crate::limits::{HALF, LEFT, RUNS, STEPS_UNTOLD};
use crate::progress::{Shares, await_call};
use crate::rule::{Given, Loads, Running, Says, Steps};
use crate::table::{Words, acknowledgement_place};
use omi_core::Until;
use omi_layout::Layout;
use omi_outside::Gate;
use omi_script::Program;
use omi_seat::{Worker, ends_at};
use std::sync::Wait;
use std::thread::yield_now;

/// Loads the epoch.
fn load_epoch(worker: &mut Worker<Part>, l: &Layout, words: &Words) -> u64
    requires at { IsTableOf l.now words.now.key words.now.table_id }
    requires seated { worker.old.seat.table_id ≡ words.now.table_id }
    requires alone { (x : WorkerPart) × IsSeatOf x worker.old.seat.me × HasBegun x }
    ensures loaded { (x : WorkerPart) → IsSeatOf x worker.old.seat.me
        → HasLoaded x result worker.new }
    ensures same { IsSameBut worker.old worker.new }
{
    words.load::<Loads>(&mut worker.seat, l.image_words())
}

/// Stores its acknowledgement.
fn say(worker: &mut Worker<Part>, l: &Layout, words: &Words, word: u64)
    requires at { IsTableOf l.now words.now.key words.now.table_id }
    requires seated { worker.old.seat.table_id ≡ words.now.table_id }
    requires below { worker.old.log.thread < words.now.key.program.value.threads }
    requires may { (x : WorkerPart) × IsToSay word x worker.old }
    ensures said { (x : WorkerPart) → IsSeatOf x worker.old.seat.me
        → IsSeatOf (says word x) worker.new.seat.me }
    ensures same { IsSameBut worker.old worker.new }
{
    let own = acknowledgement_place(l, words, worker.log.thread);
    words.store::<Says>(&mut worker.seat, own, word);
}

/// Parks in an odd epoch that it has loaded, by its number of steps.
fn park(worker: &mut Worker<Part>, l: &Layout, words: &Words, epoch: u64)
    requires at { IsTableOf l.now words.now.key words.now.table_id }
    requires seated { worker.old.seat.table_id ≡ words.now.table_id }
    requires below { worker.old.log.thread < words.now.key.program.value.threads }
    requires may { (x : WorkerPart) × IsToPark epoch x worker.old }
    ensures parked { (x : WorkerPart) → IsToPark epoch x worker.old
        → IsSeatOf (says (acknowledgement epoch (length x.known.found)) x)
        worker.new.seat.me }
    ensures same { IsSameBut worker.old worker.new }
{
    let steps = worker.log.steps;
    say(worker, l, words, epoch * HALF + steps);
}

/// Says that it runs, by its number of steps: before its first step, and behind each `STEPS_UNTOLD`.
fn tell(worker: &mut Worker<Part>, l: &Layout, words: &Words)
    requires at { IsTableOf l.now words.now.key words.now.table_id }
    requires seated { worker.old.seat.table_id ≡ words.now.table_id }
    requires below { worker.old.log.thread < words.now.key.program.value.threads }
    requires before { (x : WorkerPart) × IsPausing x worker.old }
    ensures told { (x : WorkerPart) → IsPausing x worker.old → HasTold x worker.new }
    ensures same { IsSameBut worker.old worker.new }
{
    let steps = worker.log.steps;
    if steps % STEPS_UNTOLD == 0 {
        say(worker, l, words, RUNS + steps);
    }
}

/// Goes on once it loads an even epoch: in each odd one it parks, and loads the epoch until there is another.
fn go_on<R: Wait>(rt: &R, worker: &mut Worker<Part>, l: &Layout, words: &Words)
    requires at { IsTableOf l.now words.now.key words.now.table_id }
    requires seated { worker.old.seat.table_id ≡ words.now.table_id }
    requires below { worker.old.log.thread < words.now.key.program.value.threads }
    requires before { (x : WorkerPart) × IsToGoOn x worker.old }
    ensures gone { (x : WorkerPart) → IsToGoOn x worker.old → HasGoneOn x worker.new }
    ensures same { IsSameBut worker.old worker.new }
{
    let mut parked = 0;
    for _ in rt.forever() {
        let epoch = load_epoch(worker, l, words);
        if epoch % 2 == 0 {
            return;
        }
        if epoch == parked {
            yield_now();
        } else {
            park(worker, l, words, epoch);
            parked = epoch;
        }
    }
    unreachable!()
}

/// Leaves, behind its last step.
fn leave(worker: &mut Worker<Part>, l: &Layout, words: &Words)
    requires at { IsTableOf l.now words.now.key words.now.table_id }
    requires seated { worker.old.seat.table_id ≡ words.now.table_id }
    requires below { worker.old.log.thread < words.now.key.program.value.threads }
    requires before { (x : WorkerPart) × IsPausing x worker.old }
    ensures left { (x : WorkerPart) → IsPausing x worker.old
        → IsSeatOf (says (farewell (length x.known.found)) x) worker.new.seat.me }
    ensures same { IsSameBut worker.old worker.new }
{
    let steps = worker.log.steps;
    say(worker, l, words, LEFT + steps);
}

/// Makes at most so many steps, waits for each stop where it comes due, and leaves. Takes no memory.
pub(crate) fn work<R: Wait, G: Gate>(
    rt: &R,
    worker: &mut Worker<Part>,
    p: &Program,
    l: &Layout,
    words: &Words,
    budget: u64,
    shares: &Shares,
    gate: &G,
) -> Until
    requires suits { Suits p.now l.now.table }
    requires table { IsTableFor p.now l.now words.now.key words.now.table_id }
    requires budget { budget ≤ MOST_BUDGET }
    requires start { IsAtWork p.now l.now words.now.table_id
        (first_worker p.now l.now worker.old.log.thread) worker.old }
    requires room { HasRoom budget (first_worker p.now l.now worker.old.log.thread).known
        worker.old.log }
    ensures thread { worker.new.log.thread ≡ worker.old.log.thread }
    ensures kept { worker.new.log.kept ≡ worker.old.log.kept }
    ensures worked { (x : WorkerPart) × IsAtWork p.now l.now words.now.table_id x worker.new
        × HasWorked budget x result }
{
    for step in 0..budget {
        gate.pass(worker.log.thread, step + 1);
        tell(worker, l, words);
        await_call(l, words, shares, step);
        go_on(rt, worker, l, words);
        let came = worker.step::<Given, Running, Steps>(p, l, words);
        if ends_at(came) {
            leave(worker, l, words);
            return Until::Ended;
        }
    }
    leave(worker, l, words);
    Until::Budget
}
