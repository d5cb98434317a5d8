//! The steps of this crate's counters.

ghost use Rattle.std.specs.Prelude.{◌≡◌};
ghost use Rattle.omi_layout.specs.Table.{thread_count};
ghost use Rattle.omi_pc.specs.Fits.{Fits};
ghost use Rattle.omi_step_words.specs.Outcomes.{outcome_of};
ghost use Rattle.omi_step_words.specs.Placed.{HasGroupWords, IsPlaced};
ghost use Rattle.omi_task.specs.Steps.{IsTaskCounter, IsTaskMoved, IsTaskNext, IsTaskOutcome};

use crate::{
    finish_move, finish_next, finish_outcome, look_move, look_next, look_outcome, making_move,
    making_next, making_outcome,
};
use omi_layout::Layout;
use omi_pc::{Actor, Counter};
use omi_script::Program;
use omi_step_words::CompactOutcome;
use omi_word::{Op, Res};

/// The operation that an actor makes next, at a counter of this crate. Takes no memory.
pub fn task_next(p: &Program, l: &Layout, a: &Actor) -> Op
    requires fits { Fits p.now a.now }
    requires threads { p.now.threads ≡ thread_count l.now.table }
    requires placed { IsPlaced l.now.table a.now }
    requires groups { HasGroupWords l.now.table }
    requires counter { IsTaskCounter a.now.counter }
    ensures { IsTaskNext p.now l.now.table a.now a.now.counter result }
{
    match a.counter {
        Counter::Task(c) => making_next(p, l, a, c),
        Counter::Look(c) => look_next(p, l, a, c),
        Counter::Finish(c) => finish_next(p, l, a, c),
        _ => unreachable!(),
    }
}

/// What came of the operation of a counter of this crate, by the word that it found. Takes no memory.
pub fn task_outcome(p: &Program, l: &Layout, a: &Actor, r: Res) -> CompactOutcome
    requires fits { Fits p.now a.now }
    requires threads { p.now.threads ≡ thread_count l.now.table }
    requires placed { IsPlaced l.now.table a.now }
    requires groups { HasGroupWords l.now.table }
    requires counter { IsTaskCounter a.now.counter }
    ensures { IsTaskOutcome p.now l.now.table a.now a.now.counter r.old (outcome_of a.now result) }
{
    match a.counter {
        Counter::Task(c) => making_outcome(p, l, a, c, r.old),
        Counter::Look(c) => look_outcome(p, l, a, c, r.old),
        Counter::Finish(c) => finish_outcome(a, c),
        _ => unreachable!(),
    }
}

/// Moves an actor on, behind the operation of a counter of this crate, by the word that it found. Takes no memory.
pub fn task_move(p: &Program, l: &Layout, a: &mut Actor, r: Res)
    requires fits { Fits p.now a.old }
    requires threads { p.now.threads ≡ thread_count l.now.table }
    requires placed { IsPlaced l.now.table a.old }
    requires counter { IsTaskCounter a.old.counter }
    ensures { IsTaskMoved p.now l.now.table a.old a.old.counter r.old a.new }
{
    match a.counter {
        Counter::Task(c) => making_move(p, l, a, c, r.old),
        Counter::Look(c) => look_move(p, l, a, c, r.old),
        Counter::Finish(c) => finish_move(p, l, a, c, r.old),
        _ => unreachable!(),
    }
}
