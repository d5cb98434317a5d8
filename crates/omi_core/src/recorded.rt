//! Runs of which nothing is kept but their words, the number of their steps, and what a recorder keeps of their events.

ghost use Rattle.std.specs.Prelude.{◌≡◌, ◌≤◌, [], IfOk, IfSome};
ghost use Rattle.omi_core.specs.Recorded.{IsRecorded};
ghost use Rattle.omi_core.specs.RecordedSteps.{IsOpened};
ghost use Rattle.omi_core.specs.Schedules.{IsListed};
ghost use Rattle.omi_rep.specs.Suits.{Suits};

use crate::machine::Machine;
use crate::opening::{opening_actors, opening_image};
use crate::recorder::Recorder;
use crate::stepper::{Judged, Stepper, run_by};
use crate::stop::{compact_end_at, compact_met_at};
use crate::{Break, End, MOST_STEPS, OutOfMemory, Schedule, Stop};
use omi_layout::Layout;
use omi_script::Program;
use omi_word::Image;
use std::alloc::{AllocError, Global};

/// What is left of a run that ended.
#[derive(Drop)]
pub struct Recorded<R> {
    pub image: Image,
    /// How many steps it made.
    pub steps: u64,
    pub why: End,
    pub recorder: R,
}

/// The opening of a program in a layout that suits it.
fn opening(alloc: Global, p: Program, l: Layout) -> Result<Machine, OutOfMemory>
    requires { Suits p l.table }
    ensures program { IfOk result (λ machine. machine.program ≡ p) }
    ensures layout { IfOk result (λ machine. machine.layout.table ≡ l.table) }
    ensures opened { IfOk result IsOpened }
{
    let image = opening_image(alloc, &p, &l)?;
    let actors = opening_actors(alloc, &p)?;
    Ok(Machine {
        program: p,
        layout: l,
        image,
        actors,
    })
}

/// A run of which nothing is kept but its words, the number of its steps, and what a recorder keeps of its events.
#[derive(Drop)]
struct Recording<R> {
    machine: Machine,
    steps: u64,
    recorder: R,
}

impl<R: Recorder> Stepper for Recording<R> {
    ghost use Rattle.std.specs.Prelude.{⊤};
    ghost use Rattle.omi_core.specs.RecordedSteps.{IsAt};

    ghost stands = { λ x a. IsAt x.machine x.steps a × R.tells x.recorder a.events.items };

    ghost left = { λ x a. ⊤ };

    fn thread_count(&self) -> u8 {
        self.machine.program.threads
    }

    fn make_one(
        &mut self,
        thread: u8,
        _steps: u64,
        on: Option<(Break, u32)>,
        met: u32,
    ) -> Result<Judged, OutOfMemory> {
        if self.steps >= MOST_STEPS {
            return Err(AllocError);
        }
        let outcome = self.machine.step(thread, self.steps, &mut self.recorder)?;
        self.steps += 1;
        Ok(Judged {
            end: compact_end_at(on, met, outcome),
            met: compact_met_at(on, met, outcome),
        })
    }
}

/// Runs a program in a layout, from its opening on, as `Core::run` does, and keeps of it what is left. Want of memory
/// is the answer where there is none, and behind `MOST_STEPS` steps.
pub fn run_recorded<R: Recorder + Drop>(
    alloc: Global,
    p: Program,
    l: Layout,
    how: &Schedule,
    stop: Stop,
    recorder: R,
) -> Result<Recorded<R>, OutOfMemory>
    requires suits { Suits p l.table }
    requires count { IfSome stop.on (λ on. 1 ≤ on.1) }
    requires listed { IsListed how.now p.threads stop.steps }
    requires nothing { R.tells recorder [] }
    ensures { IfOk result (λ ran. IsRecorded p l.table how.now stop
        (λ items. R.tells ran.recorder items) ran.image ran.steps ran.why) }
{
    let machine = opening(alloc, p, l)?;
    let mut recording = Recording {
        machine,
        steps: 0,
        recorder,
    };
    let why = run_by(&mut recording, how, stop)?;
    let Recording {
        machine,
        steps,
        recorder,
    } = recording;
    Ok(Recorded {
        image: machine.into_image(),
        steps,
        why,
        recorder,
    })
}
