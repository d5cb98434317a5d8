//! The words and the threads of a run of which steps and events are not kept.

ghost use Rattle.std.specs.Prelude.{◌≡◌, ◌<◌, ℕ, List, IfOk};
ghost use Rattle.omi_core.specs.declared.limits.TheConstants.{MOST_STEPS};
ghost use Rattle.omi_core.specs.RecordedSteps.{IsAt, IsStepOn};
ghost use Rattle.omi_core.specs.Runs.{Run};

use crate::OutOfMemory;
use crate::recorder::{Recorder, record_outcome};
use omi_actor::{advance, next, outcome};
use omi_layout::Layout;
use omi_pc::Actor;
use omi_script::Program;
use omi_step_words::CompactOutcome;
use omi_word::Image;

/// A program in a layout, the words of its image and an actor for each thread.
pub struct Machine {
    pub program: Program,
    pub layout: Layout,
    pub image: Image,
    /// One for each thread.
    pub actors: Vec<Actor>,
}

// Written out: docs/DECISIONS.md, "A drop written out".
impl Drop for Machine {
    fn drop(self) {
        let Machine {
            program: _program,
            layout: _layout,
            image: _image,
            actors: _actors,
        } = self;
    }
}

impl Machine {
    /// Makes one step of a thread behind so many steps, and records its event.
    pub fn step<R: Recorder>(
        &mut self,
        i: u8,
        steps: u64,
        recorder: &mut R,
    ) -> Result<CompactOutcome, OutOfMemory>
        requires thread { i < self.old.program.threads }
        requires below { steps < MOST_STEPS }
        requires at { (a : Run) × IsAt self.old steps a }
        ensures { IfOk result (λ came. (a : Run) → IsAt self.old steps a
            → R.tells recorder.old a.events.items
            → IsStepOn a i steps self.new (λ items. R.tells recorder.new items) came) }
    {
        let at = i as usize;
        let actor = &self.actors[at];
        let op = next(&self.program, &self.layout, actor);
        let found = self.image.apply(op);
        let came = outcome(&self.program, &self.layout, actor, found);
        record_outcome(recorder, steps + 1, i, came, &actor.gathered.team)?;
        advance(&self.program, &self.layout, &mut self.actors[at], found);
        Ok(came)
    }

    /// The words that are left.
    pub fn into_image(self) -> Image
        ensures { result ≡ self.image }
    {
        let Machine {
            program: _program,
            layout: _layout,
            image,
            actors: _actors,
        } = self;
        image
    }
}
