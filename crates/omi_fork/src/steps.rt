//! The steps of this crate's counters.

ghost use Rattle.std.specs.Prelude.{◌≡◌};
ghost use Rattle.omi_layout.specs.Table.{thread_count};
ghost use Rattle.omi_pc.specs.Fits.{Fits};
ghost use Rattle.omi_step_words.specs.Outcomes.{outcome_of};
ghost use Rattle.omi_step_words.specs.Placed.{HasGroupWords, IsPlaced};
ghost use Rattle.omi_fork.specs.Steps.{IsForkCounter, IsForkMoved, IsForkNext, IsForkOutcome};

use crate::{
    barrier_move, barrier_next, barrier_outcome, join_move, join_next, join_outcome, team_move,
    team_next, team_outcome, worker_move, worker_next, worker_outcome,
};
use omi_layout::Layout;
use omi_pc::{Actor, Counter};
use omi_script::Program;
use omi_step_words::CompactOutcome;
use omi_word::{Op, Res};

/// The operation that an actor makes next, at a counter of this crate. Takes no memory.
pub fn fork_next(p: &Program, l: &Layout, a: &Actor) -> Op
    requires fits { Fits p.now a.now }
    requires threads { p.now.threads ≡ thread_count l.now.table }
    requires placed { IsPlaced l.now.table a.now }
    requires groups { HasGroupWords l.now.table }
    requires counter { IsForkCounter a.now.counter }
    ensures { IsForkNext p.now l.now.table a.now a.now.counter result }
{
    match a.counter {
        Counter::Worker(c) => worker_next(p, l, a, c),
        Counter::Team(c) => team_next(p, l, a, c),
        Counter::Barrier(c) => barrier_next(p, l, a, c),
        Counter::Join(c) => join_next(p, l, a, c),
        _ => unreachable!(),
    }
}

/// What came of the operation of a counter of this crate, by the word that it found. Takes no memory.
pub fn fork_outcome(p: &Program, l: &Layout, a: &Actor, r: Res) -> CompactOutcome
    requires fits { Fits p.now a.now }
    requires threads { p.now.threads ≡ thread_count l.now.table }
    requires placed { IsPlaced l.now.table a.now }
    requires counter { IsForkCounter a.now.counter }
    ensures { IsForkOutcome p.now l.now.table a.now a.now.counter r.old (outcome_of a.now result) }
{
    match a.counter {
        Counter::Worker(c) => worker_outcome(l, a, c, r.old),
        Counter::Team(c) => team_outcome(p, l, a, c, r.old),
        Counter::Barrier(c) => barrier_outcome(p, l, a, c, r.old),
        Counter::Join(c) => join_outcome(p, l, a, c, r.old),
        _ => unreachable!(),
    }
}

/// Moves an actor on, behind the operation of a counter of this crate, by the word that it found. Takes no memory.
pub fn fork_move(p: &Program, l: &Layout, a: &mut Actor, r: Res)
    requires fits { Fits p.now a.old }
    requires threads { p.now.threads ≡ thread_count l.now.table }
    requires placed { IsPlaced l.now.table a.old }
    requires counter { IsForkCounter a.old.counter }
    ensures { IsForkMoved p.now l.now.table a.old a.old.counter r.old a.new }
{
    match a.counter {
        Counter::Worker(c) => worker_move(p, l, a, c, r.old),
        Counter::Team(c) => team_move(p, l, a, c, r.old),
        Counter::Barrier(c) => barrier_move(p, a, c, r.old),
        Counter::Join(c) => join_move(p, l, a, c, r.old),
        _ => unreachable!(),
    }
}
