//! A run: its words, its threads, and the steps and events so far.

ghost use Rattle.std.specs.Prelude.{◌≡◌, ◌<◌, ◌≤◌, ◌+◌, ◌++◌, ℕ, List, IfOk, OnOk, length, min};
ghost use Rattle.omi_core.specs.declared.limits.TheConstants.{MOST_STEPS};
ghost use Rattle.omi_core.specs.Histories.{HasHistory};
ghost use Rattle.omi_core.specs.Runs.{IsOpening, IsSameRun, spare_in};
ghost use Rattle.omi_model.specs.declared.id.Tid.{Tid};
ghost use Rattle.omi_rep.specs.Suits.{Suits};
ghost use Rattle.omi_step_words.specs.Outcomes.{outcome_with};
ghost use Rattle.omi_core.specs.RunSteps.{IsRight, IsStep, RuleHolds, ShowsState, event_of, seats_of};

mod same;

use crate::opening::{opening_actors, opening_image};
use crate::{Entry, MOST_STEPS, OutOfMemory};
use omi_actor::{advance, next, outcome};
use omi_layout::Layout;
use omi_model::Team;
use omi_pc::Actor;
use omi_run_lists::{EventList, Made, MadeList, Turn};
use omi_script::Program;
use omi_step_words::CompactOutcome;
use omi_word::Image;
use std::alloc::Global;
use std::marker::Model;

/// A run of a program in a layout, between two steps.
pub struct Core {
    program: Program,
    layout: Layout,
    image: Image,
    /// One for each thread.
    actors: Vec<Actor>,
    events: EventList,
    made: MadeList,
}

// Written out: docs/DECISIONS.md, "A drop written out".
impl Drop for Core {
    fn drop(self) {
        let Core {
            program: _program,
            layout: _layout,
            image: _image,
            actors: _actors,
            events: _events,
            made: _made,
        } = self;
    }
}

impl Model for Core {
    ghost use Rattle.omi_core.specs.declared.limits.TheConstants.{MOST_STEPS};
    ghost use Rattle.omi_core.specs.Kept.{KeepsRun};
    ghost use Rattle.omi_core.specs.Runs.{Run};

    ghost Value = { Run };

    ghost view = { λ a. record {
      program = a.program;
      table = a.layout.table;
      words = a.image;
      actors = a.actors.items;
      events = a.events;
      made = a.made;
    } };

    ghost invariant = { λ a. KeepsRun (record {
      program = a.program;
      table = a.layout.table;
      words = a.image;
      actors = a.actors.items;
      events = a.events;
      made = a.made;
    }) };
}

/// What is kept of an outcome, whatever team is forked.
pub fn turn_of(outcome: CompactOutcome) -> Turn
    ensures { (team : List (Tid × ℕ))
        → result ≡ Rattle.omi_core.specs.RunSteps.turn_of (outcome_with team outcome) }
{
    match outcome {
        CompactOutcome::Quiet => Turn::Quiet,
        CompactOutcome::Event(_) => Turn::Event,
        CompactOutcome::NotReady { .. } => Turn::NotReady,
        CompactOutcome::Ended => Turn::Ended,
    }
}

/// The smaller of two numbers.
fn least(a: usize, b: usize) -> usize
    ensures { result ≡ min a b }
{
    if a <= b { a } else { b }
}

/// Lists the event of an outcome, if it has one. A fork has this team. Takes no memory.
pub fn list_event(
    events: &mut EventList,
    step: u64,
    thread: u8,
    outcome: CompactOutcome,
    team: &Team,
)
    requires spare { 1 ≤ events.old.spare }
    requires seats { seats_of (outcome_with team.now outcome) ≤ events.old.seats }
    ensures items { events.new.items
        ≡ events.old.items ++ event_of step thread (outcome_with team.now outcome) }
    ensures spare { events.old.spare ≤ events.new.spare + 1 }
    ensures seats { events.old.seats
        ≤ events.new.seats + seats_of (outcome_with team.now outcome) }
{
    if let CompactOutcome::Event(event) = outcome {
        events.push_compact(step, thread, event, team);
    }
}

impl Core {
    /// A run of a program in a layout that suits it, before its first step.
    pub fn opening(alloc: Global, p: Program, l: Layout) -> Result<Core, OutOfMemory>
        requires { Suits p l.table }
        ensures { IfOk result (λ core. IsOpening p l.table core) }
    {
        let image = opening_image(alloc, &p, &l)?;
        let actors = opening_actors(alloc, &p)?;
        Ok(Core {
            program: p,
            layout: l,
            image,
            actors,
            events: EventList::new(alloc),
            made: MadeList::new(alloc),
        })
    }

    /// The words.
    pub fn image(&self) -> &Image
        ensures words { result.now ≡ self.now.words }
        ensures shown { ShowsState self.now }
    {
        &self.image
    }

    /// The events so far: step, thread and event, in order.
    pub fn events(&self) -> &EventList
        ensures { result.now ≡ self.now.events }
    {
        &self.events
    }

    /// The steps so far, in order. There are entries of these threads, operations and words, each the one that its thread makes next, that
    /// lead from the opening words to the run's words, with its events, and its words show the state that these events reach.
    pub fn made(&self) -> &MadeList
        ensures made { result.now ≡ self.now.made }
        ensures history { HasHistory self.now }
    {
        &self.made
    }

    /// The rule holds between any two steps. Does nothing.
    pub fn rule_holds(&self)
        ensures { RuleHolds self.now }
    {
        let _program = &self.program;
    }

    /// The number of threads.
    pub fn threads(&self) -> u8
        ensures threads { result ≡ self.now.program.threads }
        ensures some { 0 < result }
    {
        self.program.threads
    }

    /// The number of steps so far.
    pub fn steps(&self) -> u64
        ensures { result ≡ length self.now.made.items }
    {
        self.made.len() as u64
    }

    /// How many more steps take no memory.
    pub fn spare(&self) -> usize
        ensures { result ≡ spare_in self.now }
    {
        let lists = least(self.made.spare(), self.events.spare());
        let teams = self.events.seats() / self.program.threads as usize;
        let steps = MOST_STEPS.saturating_sub(self.made.len() as u64) as usize;
        least(lists, least(teams, steps))
    }

    /// Makes room for so many more steps, each with an event and a team of all threads. A run has at most `MOST_STEPS`. Room that was
    /// there stays, also where memory runs out.
    pub fn reserve(&mut self, n: usize) -> Result<(), OutOfMemory>
        requires { n + length self.old.made.items ≤ MOST_STEPS }
        ensures run { IsSameRun self.old self.new }
        ensures spare { OnOk result (n ≤ spare_in self.new) }
        ensures no_fewer { spare_in self.old ≤ spare_in self.new }
    {
        self.made.reserve(n)?;
        self.events.reserve(n, n * self.program.threads as usize)?;
        Ok(())
    }

    /// One step of a thread: one operation on one word. Takes no memory.
    pub fn step(&mut self, i: u8) -> Entry
        requires thread { i < self.old.program.threads }
        requires spare { 1 ≤ spare_in self.old }
        ensures entry { IsStep self.old i result self.new }
        ensures right { IsRight self.old i result }
        ensures rule { RuleHolds self.new }
        ensures spare { spare_in self.old ≤ spare_in self.new + 1 }
    {
        let at = i as usize;
        let actor = &self.actors[at];
        let op = next(&self.program, &self.layout, actor);
        let found = self.image.apply(op);
        let came = outcome(&self.program, &self.layout, actor, found);
        let step = self.made.len() as u64 + 1;
        self.made.push_reserved(Made {
            op,
            old: found.old,
            thread: i,
            turn: turn_of(came),
        });
        list_event(&mut self.events, step, i, came, &actor.gathered.team);
        let outcome = came.with_team(&actor.gathered.team);
        advance(&self.program, &self.layout, &mut self.actors[at], found);
        Entry {
            op,
            old: found.old,
            outcome,
        }
    }
}
