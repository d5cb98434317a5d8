//! Copies of a run.

ghost use Rattle.std.specs.Prelude.{◌≡◌, IfOk};
ghost use Rattle.omi_core.specs.Runs.{IsSameRun};

use crate::{Core, OutOfMemory};
use omi_pc::Actor;
use std::alloc::Global;

/// An actor equal to each of these.
fn same_actors(alloc: Global, actors: &[Actor]) -> Result<Vec<Actor>, OutOfMemory>
    ensures { IfOk result (λ copies. copies.items ≡ actors.now) }
{
    let mut copies = Vec::new(alloc);
    for actor in actors {
        copies.push(actor.same(alloc)?)?;
    }
    Ok(copies)
}

impl Core {
    /// The same run, with rooms of its own. It goes on by itself: a step of one leaves the other as it was.
    pub fn same(&self, alloc: Global) -> Result<Core, OutOfMemory>
        ensures { IfOk result (λ core. IsSameRun self.now core) }
    {
        let program = self.program.same(alloc)?;
        let image = self.image.same(alloc)?;
        let actors = same_actors(alloc, &self.actors)?;
        let events = self.events.same(alloc)?;
        let made = self.made.same(alloc)?;
        Ok(Core {
            program,
            layout: self.layout,
            image,
            actors,
            events,
            made,
        })
    }
}
