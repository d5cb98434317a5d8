//! What the steps of this crate answer.

ghost use Rattle.std.specs.Prelude.{◌≡◌, ◌≤◌, ℕ, List};
ghost use Rattle.omi_layout.specs.Table.{thread_count};
ghost use Rattle.omi_model.specs.declared.id.Tid.{Tid};
ghost use Rattle.omi_pc.specs.Fits.{Fits};
ghost use Rattle.omi_pc.specs.Stacks.{function_of};
ghost use Rattle.omi_pc.specs.declared.counter.Counter.TheVariants as counter;
ghost use Rattle.omi_plain.specs.PlainSteps.{lock_outcome, plain_outcome, set_outcome};
ghost use Rattle.omi_script.specs.declared.limits.TheConstants.{MAX_LOCK};
ghost use Rattle.omi_step_words.specs.Outcomes.{outcome_of, outcome_with};

use crate::operations::{of_lock, work_state};
use crate::statements::{lock, set_number, set_word, tool_word};
use omi_layout::Layout;
use omi_numbers::{WAIT_CRITICAL, lock_wait};
use omi_pc::{Actor, PlainCounter};
use omi_run_lists::CompactEvent;
use omi_script::{Program, Stmt};
use omi_step_words::CompactOutcome;

/// The function of the innermost body, and 0 where none is open.
fn function_of(a: &Actor) -> u8
    ensures { result ≡ function_of a.now.stack }
{
    match a.stack.top() {
        Some(top) => top.function,
        None => 0,
    }
}

/// What the store of a variable answers.
fn set_outcome(s: Option<Stmt>) -> CompactOutcome
    ensures { (team : List (Tid × ℕ)) → outcome_with team result ≡ set_outcome s }
{
    CompactOutcome::Event(CompactEvent::Set {
        icv: set_number(s),
        value: set_word(s),
    })
}

/// What the exchange on the word of a lock answers, by the word that it found.
fn lock_outcome(l: &Layout, k: u8, old: u64) -> CompactOutcome
    requires { k ≤ MAX_LOCK }
    ensures { (team : List (Tid × ℕ)) → outcome_with team result ≡ lock_outcome l.now.table k old }
{
    if old == 0 {
        CompactOutcome::Event(CompactEvent::Lock { k })
    } else {
        CompactOutcome::NotReady {
            addr: of_lock(l, k),
            word: old,
        }
    }
}

/// What a step at a counter answers, by the word that it found.
pub fn outcome_at(p: &Program, l: &Layout, a: &Actor, c: PlainCounter, old: u64) -> CompactOutcome
    requires fits { Fits p.now a.now }
    requires at { a.now.counter ≡ counter.Plain c }
    ensures { outcome_of a.now result ≡ plain_outcome p.now l.now.table a.now c old }
{
    match c {
        PlainCounter::Work => CompactOutcome::Event(CompactEvent::Work),
        PlainCounter::Call => CompactOutcome::Event(CompactEvent::Call { f: function_of(a) }),
        PlainCounter::Skip => CompactOutcome::Event(CompactEvent::Skip),
        PlainCounter::Return => CompactOutcome::Event(CompactEvent::Ret),
        PlainCounter::Set => set_outcome(a.statement(p)),
        PlainCounter::Tool => CompactOutcome::Event(CompactEvent::SetTool { x: tool_word(p, a) }),
        PlainCounter::Enter => CompactOutcome::Event(CompactEvent::Enter),
        PlainCounter::Leave => CompactOutcome::Event(CompactEvent::Leave),
        PlainCounter::WorkState => CompactOutcome::Event(CompactEvent::State {
            state: work_state(a),
            wait: 0,
        }),
        PlainCounter::LockState => CompactOutcome::Event(CompactEvent::State {
            state: WAIT_CRITICAL,
            wait: lock_wait(lock(p, a)),
        }),
        PlainCounter::Lock => lock_outcome(l, lock(p, a), old),
        PlainCounter::Unlock => CompactOutcome::Event(CompactEvent::Unlock { k: lock(p, a) }),
        PlainCounter::GroupBegin => CompactOutcome::Event(CompactEvent::GroupBegin),
        PlainCounter::Done => CompactOutcome::Event(CompactEvent::Done),
        PlainCounter::Ended => CompactOutcome::Ended,
    }
}
