//! The steps of this crate's counters.

ghost use Rattle.std.specs.Prelude.{◌≡◌};
ghost use Rattle.omi_layout.specs.Table.{thread_count};
ghost use Rattle.omi_pc.specs.Fits.{Fits};
ghost use Rattle.omi_plain.specs.Steps.{IsPlainCounter, IsPlainMoved, IsPlainNext, IsPlainOutcome};
ghost use Rattle.omi_step_words.specs.Outcomes.{outcome_of};
ghost use Rattle.omi_step_words.specs.Placed.{HasGroupWords, IsPlaced};

use crate::moves::move_on;
use crate::operations::next_at;
use crate::outcomes::outcome_at;
use omi_layout::Layout;
use omi_pc::{Actor, Counter};
use omi_script::Program;
use omi_step_words::CompactOutcome;
use omi_word::{Op, Res};

/// The operation that an actor makes next, at a counter of this crate. Takes no memory.
pub fn plain_next(p: &Program, l: &Layout, a: &Actor) -> Op
    requires fits { Fits p.now a.now }
    requires threads { p.now.threads ≡ thread_count l.now.table }
    requires placed { IsPlaced l.now.table a.now }
    requires groups { HasGroupWords l.now.table }
    requires counter { IsPlainCounter a.now.counter }
    ensures { IsPlainNext p.now l.now.table a.now a.now.counter result }
{
    match a.counter {
        Counter::Plain(c) => next_at(p, l, a, c),
        _ => unreachable!(),
    }
}

/// What came of the operation of a counter of this crate, by the word that it found. Takes no memory.
pub fn plain_outcome(p: &Program, l: &Layout, a: &Actor, r: Res) -> CompactOutcome
    requires fits { Fits p.now a.now }
    requires threads { p.now.threads ≡ thread_count l.now.table }
    requires placed { IsPlaced l.now.table a.now }
    requires counter { IsPlainCounter a.now.counter }
    ensures { IsPlainOutcome p.now l.now.table a.now a.now.counter r.old (outcome_of a.now result) }
{
    match a.counter {
        Counter::Plain(c) => outcome_at(p, l, a, c, r.old),
        _ => unreachable!(),
    }
}

/// Moves an actor on, behind the operation of a counter of this crate, by the word that it found. Takes no memory.
pub fn plain_move(p: &Program, l: &Layout, a: &mut Actor, r: Res)
    requires fits { Fits p.now a.old }
    requires threads { p.now.threads ≡ thread_count l.now.table }
    requires placed { IsPlaced l.now.table a.old }
    requires counter { IsPlainCounter a.old.counter }
    ensures { IsPlainMoved p.now l.now.table a.old a.old.counter r.old a.new }
{
    match a.counter {
        Counter::Plain(c) => move_on(p, a, c, r.old),
        _ => unreachable!(),
    }
}
