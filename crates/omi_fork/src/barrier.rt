//! The steps of a barrier, but for the look at the slots.

ghost use Rattle.std.specs.Prelude.{◌≡◌, ◌*◌, ◌<◌, ◌≤◌, length};
ghost use Rattle.omi_model.specs.declared.limits.TheConstants.{MOST_EVENTS, MOST_MEMBERS};
ghost use Rattle.omi_numbers.specs.declared.words.TheConstants.{WAIT_PLACE};
ghost use Rattle.omi_layout.specs.Table.{thread_count};
ghost use Rattle.omi_pc.specs.Fits.{Fits};
ghost use Rattle.omi_pc.specs.OpenBodies.{AreOpen};
ghost use Rattle.omi_pc.specs.declared.counter.Counter.TheVariants as counter;
ghost use Rattle.omi_fork.specs.BarrierSteps;
ghost use Rattle.omi_fork.specs.BarrierSteps.{past_arrive, barrier_moved, barrier_next, barrier_outcome, barrier_state, behind_member_end, ended_in, looking, passed};
ghost use Rattle.omi_step_words.specs.Moving.{to_barrier};
ghost use Rattle.omi_step_words.specs.Outcomes.{outcome_of};
ghost use Rattle.omi_step_words.specs.Placed.{IsPlaced};

use omi_layout::{Field, Layout};
use omi_numbers::{WAIT_BARRIER_EXPLICIT, WAIT_BARRIER_IMPLICIT_PARALLEL, state_word};
use omi_pc::{
    Actor, Barrier, BarrierCounter, Counter, JoinCounter, LookCounter, Opened, PlainCounter, Wait,
    WorkerCounter,
};
use omi_run_lists::CompactEvent;
use omi_script::Program;
use omi_step_words::{CompactOutcome, load, of_region, of_thread, store};
use omi_word::Op;

/// The state of a member that waits at a barrier.
fn barrier_state(b: Barrier) -> u32
    ensures value { result ≡ barrier_state b }
    ensures small { result < WAIT_PLACE }
{
    match b {
        Barrier::Explicit => WAIT_BARRIER_EXPLICIT,
        Barrier::Implicit => WAIT_BARRIER_IMPLICIT_PARALLEL,
    }
}

/// The operation that a member makes next at a barrier.
pub fn barrier_next(p: &Program, l: &Layout, a: &Actor, c: BarrierCounter) -> Op
    requires fits { Fits p.now a.now }
    requires threads { p.now.threads ≡ thread_count l.now.table }
    requires placed { IsPlaced l.now.table a.now }
    requires at { a.now.counter ≡ counter.Barrier c }
    ensures { result ≡ barrier_next l.now.table a.now c }
{
    let region = a.context.region;
    match c {
        BarrierCounter::State { barrier } => store(
            of_thread(l, a.thread, Field::ThreadState),
            state_word(barrier_state(barrier), 0),
        ),
        BarrierCounter::Arrive { .. } => Op::Add {
            at: of_region(l, region, Field::RegionArrived),
            by: 1,
        },
        BarrierCounter::LoadArrived { .. } => load(of_region(l, region, Field::RegionArrived)),
        BarrierCounter::LoadPending { .. } => load(of_region(l, region, Field::RegionPending)),
        BarrierCounter::Release { .. } => {
            store(
                of_region(l, region, Field::RegionReleased),
                a.context.arrivals,
            )
        }
        BarrierCounter::LoadReleased { .. } => load(of_region(l, region, Field::RegionReleased)),
    }
}

/// The arrivals of all members at all barriers so far, the one at which this member waits included.
fn all_arrivals(size: u64, arrivals: u64) -> u64
    requires size { size ≤ MOST_MEMBERS }
    requires arrivals { arrivals < MOST_EVENTS }
    ensures { result ≡ size * arrivals }
{
    size * arrivals
}

/// Whether some member has not arrived.
fn some_missing(p: &Program, a: &Actor, old: u64) -> bool
    requires fits { Fits p.now a.now }
    requires some { 0 < length a.now.stack }
    ensures { result ≡ BarrierSteps.some_missing a.now old }
{
    old < all_arrivals(a.context.size, a.context.arrivals)
}

/// Whether the barrier is not released.
fn is_closed(a: &Actor, old: u64) -> bool
    ensures { result ≡ BarrierSteps.is_closed a.now old }
{
    old < a.context.arrivals
}

/// A counter of a barrier comes next.
fn to_barrier(a: &mut Actor, c: BarrierCounter)
    ensures { a.new ≡ to_barrier c a.old }
{
    a.counter = Counter::Barrier(c);
}

/// The thread looks at the slots of all members, from the first one on.
fn look(a: &mut Actor, barrier: Barrier)
    ensures { a.new ≡ looking barrier a.old }
{
    a.counter = Counter::Look(LookCounter::LoadRow {
        wait: Wait::Barrier { barrier },
        look: 0,
    });
}

/// The member has arrived at one barrier more.
fn arrive(a: &mut Actor)
    requires { a.old.context.arrivals < MOST_EVENTS }
    ensures { a.new ≡ past_arrive a.old }
{
    a.context.arrivals += 1;
}

/// What follows the end of a member whose body was opened in this way.
fn behind_member_end(opened: Opened, c: Counter) -> Counter
    ensures { result ≡ behind_member_end opened c }
{
    match opened {
        Opened::Main => Counter::Plain(PlainCounter::Done),
        Opened::Worker => Counter::Worker(WorkerCounter::ImplicitEnd),
        Opened::Master { .. } => Counter::Join(JoinCounter::LoadLeft),
        _ => c,
    }
}

/// The end of a member is over.
fn end_member(a: &mut Actor)
    ensures { a.new ≡ ended_in a.old.stack a.old }
{
    let Some(top) = a.stack.top() else {
        return;
    };
    a.counter = behind_member_end(top.opened, a.counter);
}

/// The barrier was passed.
fn pass(p: &Program, a: &mut Actor, barrier: Barrier)
    requires { AreOpen p.now a.old.context a.old.stack }
    ensures { a.new ≡ passed p.now barrier a.old }
{
    match barrier {
        Barrier::Explicit => a.work(p),
        Barrier::Implicit => end_member(a),
    }
}

/// Moves a member on, behind the operation of its counter.
pub fn barrier_move(p: &Program, a: &mut Actor, c: BarrierCounter, old: u64)
    requires fits { Fits p.now a.old }
    requires at { a.old.counter ≡ counter.Barrier c }
    ensures { a.new ≡ barrier_moved p.now a.old c old }
{
    match c {
        BarrierCounter::State { barrier } => to_barrier(a, BarrierCounter::Arrive { barrier }),
        BarrierCounter::Arrive { barrier } => {
            arrive(a);
            look(a, barrier);
        }
        BarrierCounter::LoadArrived { barrier } => {
            if some_missing(p, a, old) {
                look(a, barrier);
            } else {
                to_barrier(a, BarrierCounter::LoadPending { barrier });
            }
        }
        BarrierCounter::LoadPending { barrier } => {
            if old == 0 {
                to_barrier(a, BarrierCounter::Release { barrier });
            } else {
                look(a, barrier);
            }
        }
        BarrierCounter::Release { barrier } => {
            to_barrier(a, BarrierCounter::LoadReleased { barrier })
        }
        BarrierCounter::LoadReleased { barrier } => {
            if is_closed(a, old) {
                look(a, barrier);
            } else {
                pass(p, a, barrier);
            }
        }
    }
}

/// What a step at a barrier answers, by the word that it found.
pub fn barrier_outcome(
    p: &Program,
    l: &Layout,
    a: &Actor,
    c: BarrierCounter,
    old: u64,
) -> CompactOutcome
    requires fits { Fits p.now a.now }
    requires threads { p.now.threads ≡ thread_count l.now.table }
    requires placed { IsPlaced l.now.table a.now }
    requires at { a.now.counter ≡ counter.Barrier c }
    ensures { outcome_of a.now result ≡ barrier_outcome l.now.table a.now c old }
{
    let region = a.context.region;
    match c {
        BarrierCounter::State { barrier } => CompactOutcome::Event(CompactEvent::State {
            state: barrier_state(barrier),
            wait: 0,
        }),
        BarrierCounter::Arrive { .. } => CompactOutcome::Event(CompactEvent::Arrive),
        BarrierCounter::LoadArrived { .. } => {
            if !some_missing(p, a, old) {
                return CompactOutcome::Quiet;
            }
            let addr = of_region(l, region, Field::RegionArrived);
            CompactOutcome::NotReady { addr, word: old }
        }
        BarrierCounter::LoadPending { .. } => {
            if old == 0 {
                return CompactOutcome::Quiet;
            }
            let addr = of_region(l, region, Field::RegionPending);
            CompactOutcome::NotReady { addr, word: old }
        }
        BarrierCounter::Release { .. } => CompactOutcome::Event(CompactEvent::Release),
        BarrierCounter::LoadReleased { .. } => {
            if !is_closed(a, old) {
                return CompactOutcome::Event(CompactEvent::Pass);
            }
            let addr = of_region(l, region, Field::RegionReleased);
            CompactOutcome::NotReady { addr, word: old }
        }
    }
}
