//! The operations of this crate's steps.

ghost use Rattle.std.specs.Prelude.{◌≡◌, ◌-◌, ◌≤◌, ◌<◌};
ghost use Rattle.omi_numbers.specs.declared.words.TheConstants.{WAIT_PLACE};
ghost use Rattle.omi_layout.specs.Table.{thread_count};
ghost use Rattle.omi_pc.specs.Fits.{Fits};
ghost use Rattle.omi_pc.specs.declared.counter.Counter.TheVariants as counter;
ghost use Rattle.omi_plain.specs.PlainSteps;
ghost use Rattle.omi_plain.specs.PlainSteps.{enter_word, loading_native, of_lock, plain_next};
ghost use Rattle.omi_script.specs.declared.limits.TheConstants.{MAX_LOCK};
ghost use Rattle.omi_step_words.specs.Placed.{HasGroupWords, IsPlaced};

use crate::statements::{lock, set_address, set_word, tool_word};
use omi_layout::{Field, Layout, OPEN_PLACE};
use omi_model::Rid;
use omi_numbers::{
    WAIT_CRITICAL, WORK_PARALLEL, WORK_SERIAL, enter_frame, exit_frame, holder_word, lock_wait,
    state_word,
};
use omi_pc::{Actor, PlainCounter};
use omi_script::Program;
use omi_step_words::{load, of_groups, of_task, of_thread, store};
use omi_word::Op;

/// The load of a thread's native id.
fn load_native(l: &Layout, a: &Actor) -> Op
    requires { a.now.thread < thread_count l.now.table }
    ensures { result ≡ loading_native l.now.table a.now }
{
    load(of_thread(l, a.thread, Field::ThreadNative))
}

/// The address of the word of a lock.
pub fn of_lock(l: &Layout, k: u8) -> u64
    requires { k ≤ MAX_LOCK }
    ensures { result ≡ of_lock l.now.table k }
{
    l.word_at(0, 0, Field::RuntimeLocks, k)
}

/// The enter frame of the current task.
fn enter_word(a: &Actor) -> u64
    ensures { result ≡ enter_word a.now }
{
    enter_frame(exit_frame(a.thread, u64::from(a.context.depth)))
}

/// Whether a region is the initial one.
fn is_initial(n: Rid) -> bool
    ensures { result ≡ PlainSteps.is_initial n }
{
    n.0.creator == 0 && n.0.slot == 0 && n.0.generation == 0
}

/// The state of a thread that works.
pub fn work_state(a: &Actor) -> u32
    ensures value { result ≡ PlainSteps.actor_work_state a.now }
    ensures small { result < WAIT_PLACE }
{
    if is_initial(a.context.region) {
        WORK_SERIAL
    } else {
        WORK_PARALLEL
    }
}

/// The operation that an actor makes next at a counter.
pub fn next_at(p: &Program, l: &Layout, a: &Actor, c: PlainCounter) -> Op
    requires fits { Fits p.now a.now }
    requires threads { p.now.threads ≡ thread_count l.now.table }
    requires placed { IsPlaced l.now.table a.now }
    requires groups { HasGroupWords l.now.table }
    requires at { a.now.counter ≡ counter.Plain c }
    ensures { result ≡ plain_next p.now l.now.table a.now c }
{
    let task = a.context.task;
    let state = of_thread(l, a.thread, Field::ThreadState);
    match c {
        PlainCounter::Work
        | PlainCounter::Call
        | PlainCounter::Skip
        | PlainCounter::Return
        | PlainCounter::Done
        | PlainCounter::Ended => load_native(l, a),
        PlainCounter::Set => {
            let s = a.statement(p);
            store(set_address(l, a, s), set_word(s))
        }
        PlainCounter::Tool => store(of_task(l, task, Field::TaskTool), tool_word(p, a)),
        PlainCounter::Enter => store(of_task(l, task, Field::TaskEnter), enter_word(a)),
        PlainCounter::Leave => store(of_task(l, task, Field::TaskEnter), 0),
        PlainCounter::WorkState => store(state, state_word(work_state(a), 0)),
        PlainCounter::LockState => {
            let wait = lock_wait(lock(p, a));
            store(state, state_word(WAIT_CRITICAL, wait))
        }
        PlainCounter::Lock => Op::Cas {
            at: of_lock(l, lock(p, a)),
            old: 0,
            new: holder_word(a.thread),
        },
        PlainCounter::Unlock => store(of_lock(l, lock(p, a)), 0),
        PlainCounter::GroupBegin => store(
            of_groups(l, task, OPEN_PLACE),
            u64::from(a.context.open_groups) + 1,
        ),
    }
}
