//! How the steps of this crate move a thread on.

ghost use Rattle.std.specs.Prelude.{◌≡◌, ◌≤◌};
ghost use Rattle.omi_numbers.specs.declared.limits.TheConstants.{OPEN_GROUPS};
ghost use Rattle.omi_pc.specs.Fits.{Fits};
ghost use Rattle.omi_pc.specs.OpenBodies.{AreOpen};
ghost use Rattle.omi_pc.specs.declared.counter.Counter.TheVariants as counter;
ghost use Rattle.omi_plain.specs.PlainSteps;
ghost use Rattle.omi_plain.specs.PlainSteps.{past_enter, past_group_begin, past_leave, locked, plain_moved};

use omi_pc::{
    Actor, Barrier, BarrierCounter, Counter, LookCounter, Opened, PlainCounter, TaskCounter,
    TeamCounter, Wait, stacks_have_room,
};
use omi_script::{Program, Stmt};

/// The first counter of a `task` construct behind its enter.
fn task_counter(at_once: bool) -> Counter
    ensures { result ≡ PlainSteps.task_counter at_once }
{
    Counter::Task(if at_once {
        TaskCounter::LoadVariable {
            place: None,
            word: 0,
        }
    } else {
        TaskCounter::LoadSlot { place: 0 }
    })
}

/// The first counter of a wait in which the slots are looked at.
fn waiting_counter(debug: bool, wait: Wait) -> Counter
    ensures { result ≡ PlainSteps.waiting_counter debug wait }
{
    Counter::Look(if debug {
        LookCounter::State { wait }
    } else {
        LookCounter::LoadRow { wait, look: 0 }
    })
}

/// The counter behind the store of the enter frame, in a task that is final or not.
fn behind_enter(debug: bool, is_final: bool, s: Option<Stmt>) -> Counter
    ensures { result ≡ PlainSteps.behind_enter debug is_final s }
{
    let barrier = Barrier::Explicit;
    match s {
        Some(Stmt::Parallel { .. }) => Counter::Team(if debug {
            TeamCounter::OverheadState
        } else {
            TeamCounter::LoadLevels
        }),
        Some(Stmt::Task { undeferred, .. }) => task_counter(undeferred || is_final),
        Some(Stmt::Taskwait) => waiting_counter(debug, Wait::Taskwait),
        Some(Stmt::Taskyield) => Counter::Look(LookCounter::LoadRow {
            wait: Wait::Taskyield,
            look: 0,
        }),
        Some(Stmt::Barrier) => Counter::Barrier(if debug {
            BarrierCounter::State { barrier }
        } else {
            BarrierCounter::Arrive { barrier }
        }),
        Some(Stmt::Critical { .. }) => Counter::Plain(if debug {
            PlainCounter::LockState
        } else {
            PlainCounter::Lock
        }),
        Some(Stmt::Taskgroup { .. }) => waiting_counter(debug, Wait::Taskgroup),
        _ => Counter::Plain(PlainCounter::Enter),
    }
}

/// The current task has entered the runtime.
fn enter(p: &Program, a: &mut Actor)
    ensures { a.new ≡ past_enter p.now a.old }
{
    a.counter = behind_enter(p.env.debug, a.context.is_final, a.statement(p));
}

/// The current task has left the runtime.
fn leave(p: &Program, a: &mut Actor)
    requires { AreOpen p.now a.old.context a.old.stack }
    ensures { a.new ≡ past_leave p.now a.old }
{
    stacks_have_room();
    match a.statement(p) {
        Some(Stmt::Critical { k, f }) => a.call(f, Opened::Critical { lock: k }),
        _ => a.settle(p),
    }
}

/// The current task has begun a group.
fn begin_group(p: &Program, a: &mut Actor)
    requires bodies { AreOpen p.now a.old.context a.old.stack }
    requires few { a.old.context.open_groups ≤ OPEN_GROUPS }
    ensures { a.new ≡ past_group_begin p.now a.old }
{
    stacks_have_room();
    if let Some(Stmt::Taskgroup { f }) = a.statement(p) {
        a.context.open_groups += 1;
        a.call(f, Opened::Taskgroup);
    }
}

/// The word of a lock was compared.
fn lock(p: &Program, a: &mut Actor, old: u64)
    requires { AreOpen p.now a.old.context a.old.stack }
    ensures { a.new ≡ locked p.now old a.old }
{
    if old == 0 {
        a.work(p);
    }
}

/// Moves a thread on, behind the operation of a counter.
pub fn move_on(p: &Program, a: &mut Actor, c: PlainCounter, old: u64)
    requires fits { Fits p.now a.old }
    requires at { a.old.counter ≡ counter.Plain c }
    ensures { a.new ≡ plain_moved p.now a.old c old }
{
    match c {
        PlainCounter::Work
        | PlainCounter::Call
        | PlainCounter::Skip
        | PlainCounter::Set
        | PlainCounter::Tool
        | PlainCounter::Unlock => a.settle(p),
        PlainCounter::Return => a.return_from(p),
        PlainCounter::Enter => enter(p, a),
        PlainCounter::Leave => leave(p, a),
        PlainCounter::WorkState => a.go_on(p),
        PlainCounter::LockState => a.go_to(PlainCounter::Lock),
        PlainCounter::Lock => lock(p, a, old),
        PlainCounter::GroupBegin => begin_group(p, a),
        PlainCounter::Done => a.go_to(PlainCounter::Ended),
        PlainCounter::Ended => {}
    }
}
