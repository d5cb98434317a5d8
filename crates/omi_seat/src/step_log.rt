//! What a thread at a table keeps of its steps.

ghost use Rattle.std.specs.Prelude.{◌≡◌, ◌<◌, ◌≤◌, ◌+◌, ◌++◌, [], ◌∷◌, IfOk};
ghost use Rattle.omi_rep.specs.Suits.{Suits};
ghost use Rattle.omi_layout.specs.declared.layout.Layout.{Layout};
ghost use Rattle.omi_step_words.specs.Outcomes.{outcome_of};
ghost use Rattle.omi_seat.specs.declared.known.Known.{Known};
ghost use Rattle.omi_seat.specs.declared.limits.TheConstants.{MOST_BUDGET};
ghost use Rattle.omi_seat.specs.Known.{untouched};
ghost use Rattle.omi_seat.specs.StepLog.{HasListed, HasRoom, IsLogOf, IsNextOf, MayList};

use omi_actor::{advance, outcome};
use omi_core::{OutOfMemory, list_event, turn_of};
use omi_layout::Layout;
use omi_pc::Actor;
use omi_run_lists::{EventList, Made, MadeList};
use omi_script::Program;
use omi_step_words::CompactOutcome;
use omi_word::{Op, Res};
use std::alloc::Global;

/// What a thread keeps of its steps beside its actor and its events.
#[derive(Clone, Copy)]
pub enum Kept {
    /// Each step.
    Steps,
    /// How many they are.
    Count,
}

/// What a thread keeps of its steps: its actor behind them, how many they are, and their events, which have the numbers of its own steps.
#[derive(Drop)]
pub struct StepLog {
    pub thread: u8,
    pub kept: Kept,
    /// The number of its steps.
    pub steps: u64,
    pub actor: Actor,
    /// Its steps, where they are kept.
    pub made: MadeList,
    pub events: EventList,
}

/// An empty list of steps. It has room for so many where steps are kept.
fn list_for(alloc: Global, steps: u64, kept: Kept) -> Result<MadeList, OutOfMemory>
    ensures empty { IfOk result (λ made. made.items ≡ []) }
    ensures room { kept ≡ Kept.Steps → IfOk result (λ made. steps ≤ made.spare) }
{
    let mut made = MadeList::new(alloc);
    match kept {
        Kept::Steps => {
            made.reserve(steps as usize)?;
            Ok(made)
        }
        Kept::Count => Ok(made),
    }
}

/// Lists a step, where steps are kept. Takes no memory.
fn list_step(made: &mut MadeList, kept: Kept, step: Made)
    requires { kept ≡ Kept.Steps → 1 ≤ made.old.spare }
    ensures items { kept ≡ Kept.Steps → made.new.items ≡ made.old.items ++ step ∷ [] }
    ensures spare { kept ≡ Kept.Steps → made.new.spare + 1 ≡ made.old.spare }
    ensures none { kept ≡ Kept.Count → made.new.items ≡ made.old.items }
{
    match kept {
        Kept::Steps => made.push_reserved(step),
        Kept::Count => {}
    }
}

impl StepLog {
    /// That of a thread before its first step. Takes the room of its budget: a step needs a seat at most, since each thread of a team but the
    /// first was got by a step of its own.
    pub fn opening(
        alloc: Global,
        p: &Program,
        thread: u8,
        budget: u64,
        kept: Kept,
    ) -> Result<StepLog, OutOfMemory>
        requires thread { thread < p.now.threads }
        requires budget { budget ≤ MOST_BUDGET }
        ensures thread { IfOk result (λ log. log.thread ≡ thread) }
        ensures kept { IfOk result (λ log. log.kept ≡ kept) }
        ensures begins { (l : Layout)
            → IfOk result (λ log. IsLogOf p.now l (untouched p.now l thread) log) }
        ensures room { (l : Layout)
            → IfOk result (λ log. HasRoom budget (untouched p.now l thread) log) }
    {
        let actor = Actor::opening(alloc, p, thread)?;
        let made = list_for(alloc, budget, kept)?;
        let mut events = EventList::new(alloc);
        events.reserve(budget as usize, budget as usize)?;
        Ok(StepLog {
            thread,
            kept,
            steps: 0,
            actor,
            made,
            events,
        })
    }

    /// Lists the thread's next step, whose operation found this word. The members of the team that it forks stood in the registers of its
    /// actor. Takes no memory.
    pub fn list(&mut self, p: &Program, l: &Layout, op: Op, old: u64) -> CompactOutcome
        requires suits { Suits p.now l.now.table }
        requires may { (x : Known) × MayList p.now l.now op old x self.old }
        ensures thread { self.new.thread ≡ self.old.thread }
        ensures kept { self.new.kept ≡ self.old.kept }
        ensures listed { (x : Known) → IsNextOf p.now l.now op old x self.old
            → HasListed p.now l.now old x self.old self.new (outcome_of self.old.actor result) }
    {
        let came = outcome(p, l, &self.actor, Res { old });
        let step = self.steps + 1;
        let entry = Made {
            op,
            old,
            thread: self.thread,
            turn: turn_of(came),
        };
        list_step(&mut self.made, self.kept, entry);
        let team = &self.actor.gathered.team;
        list_event(&mut self.events, step, self.thread, came, team);
        advance(p, l, &mut self.actor, Res { old });
        self.steps = step;
        came
    }
}
