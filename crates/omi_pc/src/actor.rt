//! Actors, and those with which a program starts.

ghost use Rattle.std.specs.Prelude.{◌≡◌, ◌<◌, IfOk};
ghost use Rattle.omi_pc.specs.Opening.{initial_context, nothing_gathered, opening_actor};

use crate::limits::VARIABLE_WORDS;
use crate::{Context, Counter, Frame, Gathered, Opened, OutOfMemory, Stack, WorkerCounter};
use omi_model::{Id, Rid, Team, Tid};
use omi_script::Program;
use std::alloc::Global;

/// A thread between two atomic steps.
#[derive(Drop)]
pub struct Actor {
    /// The thread's number.
    pub thread: u8,
    pub counter: Counter,
    /// The context of the current task. It says nothing where the thread has none.
    pub context: Context,
    pub gathered: Gathered,
    /// The bodies that are open, the innermost one first. A thread without a task has none.
    pub stack: Stack,
}

/// The name of the initial task, and of the initial region.
const INITIAL: Id = Id {
    creator: 0,
    slot: 0,
    generation: 0,
};

/// What thread 0 knows of the initial task.
fn initial_context() -> Context
    ensures { result ≡ initial_context }
{
    Context {
        task: Tid(INITIAL),
        region: Rid(INITIAL),
        row: Tid(INITIAL),
        number: 0,
        size: 1,
        arrivals: 0,
        open_groups: 0,
        implicit: true,
        is_final: false,
        depth: 1,
    }
}

/// Nothing has been gathered.
fn nothing_gathered() -> Gathered
    ensures { result ≡ nothing_gathered }
{
    Gathered {
        variables: [0; VARIABLE_WORDS],
        levels: 0,
        active: 0,
        wanted: 0,
        asked: 0,
        team: Team::new(),
        group: 0,
    }
}

impl Actor {
    /// The actor with which a thread of a program starts. Takes the room of a whole stack.
    pub fn opening(alloc: Global, p: &Program, thread: u8) -> Result<Actor, OutOfMemory>
        requires { thread < p.now.threads }
        ensures { IfOk result (λ a. a ≡ opening_actor p.now thread) }
    {
        let mut actor = Actor {
            thread,
            counter: Counter::Worker(WorkerCounter::Begin),
            context: initial_context(),
            gathered: nothing_gathered(),
            stack: Stack::with_room(alloc)?,
        };
        if thread == 0 {
            actor.stack.push(Frame {
                function: p.main,
                next: 0,
                opened: Opened::Main,
            });
            actor.settle(p);
        }
        Ok(actor)
    }

    /// An equal actor.
    pub fn same(&self, alloc: Global) -> Result<Actor, OutOfMemory>
        ensures { IfOk result (λ a. a ≡ self.now) }
    {
        Ok(Actor {
            thread: self.thread,
            counter: self.counter,
            context: self.context,
            gathered: self.gathered,
            stack: self.stack.same(alloc)?,
        })
    }
}
