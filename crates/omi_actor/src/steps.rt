//! The steps of one thread.

ghost use Rattle.std.specs.Prelude.{◌≡◌};
ghost use Rattle.omi_layout.specs.Table.{thread_count};
ghost use Rattle.omi_pc.specs.Fits.{Fits};
ghost use Rattle.omi_actor.specs.Steps.{next_of, resumed};
ghost use Rattle.omi_step_words.specs.Outcomes.{outcome_of};
ghost use Rattle.omi_step_words.specs.Placed.{HasGroupWords, IsPlaced};

use omi_fork::{fork_move, fork_next, fork_outcome};
use omi_layout::Layout;
use omi_pc::{Actor, Counter};
use omi_plain::{plain_move, plain_next, plain_outcome};
use omi_rep::Outcome;
use omi_script::Program;
use omi_step_words::CompactOutcome;
use omi_task::{task_move, task_next, task_outcome};
use omi_word::{Op, Res};

/// The operation that an actor makes next. Takes no memory.
pub fn next(p: &Program, l: &Layout, a: &Actor) -> Op
    requires fits { Fits p.now a.now }
    requires threads { p.now.threads ≡ thread_count l.now.table }
    requires placed { IsPlaced l.now.table a.now }
    requires groups { HasGroupWords l.now.table }
    ensures { result ≡ next_of p.now l.now.table a.now }
{
    match a.counter {
        Counter::Worker(_) | Counter::Team(_) | Counter::Barrier(_) | Counter::Join(_) => {
            fork_next(p, l, a)
        }
        Counter::Task(_) | Counter::Look(_) | Counter::Finish(_) => task_next(p, l, a),
        Counter::Plain(_) => plain_next(p, l, a),
    }
}

/// What came of an actor's operation, by the word that it found. The members of the team that is forked stand in the actor's
/// registers. Takes no memory.
pub fn outcome(p: &Program, l: &Layout, a: &Actor, r: Res) -> CompactOutcome
    requires fits { Fits p.now a.now }
    requires threads { p.now.threads ≡ thread_count l.now.table }
    requires placed { IsPlaced l.now.table a.now }
    requires groups { HasGroupWords l.now.table }
    ensures { outcome_of a.now result ≡ (resumed p.now l.now.table a.now r).1 }
{
    match a.counter {
        Counter::Worker(_) | Counter::Team(_) | Counter::Barrier(_) | Counter::Join(_) => {
            fork_outcome(p, l, a, r)
        }
        Counter::Task(_) | Counter::Look(_) | Counter::Finish(_) => task_outcome(p, l, a, r),
        Counter::Plain(_) => plain_outcome(p, l, a, r),
    }
}

/// Moves an actor on, by the word that its operation found. Takes no memory.
pub fn advance(p: &Program, l: &Layout, a: &mut Actor, r: Res)
    requires fits { Fits p.now a.old }
    requires threads { p.now.threads ≡ thread_count l.now.table }
    requires placed { IsPlaced l.now.table a.old }
    ensures { a.new ≡ (resumed p.now l.now.table a.old r).0 }
{
    match a.counter {
        Counter::Worker(_) | Counter::Team(_) | Counter::Barrier(_) | Counter::Join(_) => {
            fork_move(p, l, a, r)
        }
        Counter::Task(_) | Counter::Look(_) | Counter::Finish(_) => task_move(p, l, a, r),
        Counter::Plain(_) => plain_move(p, l, a, r),
    }
}

/// Takes the word that an actor's operation found: moves the actor on, and answers what came of the step. Takes no memory.
pub fn resume(p: &Program, l: &Layout, a: &mut Actor, r: Res) -> Outcome
    requires fits { Fits p.now a.old }
    requires threads { p.now.threads ≡ thread_count l.now.table }
    requires placed { IsPlaced l.now.table a.old }
    requires groups { HasGroupWords l.now.table }
    ensures moved { a.new ≡ (resumed p.now l.now.table a.old r).0 }
    ensures outcome { result ≡ (resumed p.now l.now.table a.old r).1 }
{
    let compact = outcome(p, l, a, r);
    let whole = compact.with_team(&a.gathered.team);
    advance(p, l, a, r);
    whole
}
