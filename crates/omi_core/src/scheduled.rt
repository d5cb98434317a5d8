//! Runs by a schedule that keep their steps and events.

ghost use Rattle.std.specs.Prelude.{◌≡◌, ◌≤◌, IfSome, OnOk};
ghost use Rattle.omi_core.specs.Runs.{IsSameRun, spare_in};
ghost use Rattle.omi_core.specs.RunSteps.{RuleHolds};
ghost use Rattle.omi_core.specs.ScheduledRuns.{IsRunBy};
ghost use Rattle.omi_core.specs.Schedules.{IsListed};

use crate::stepper::{Judged, Stepper, run_by};
use crate::stop::{end_at, met_at};
use crate::{Break, Core, End, MOST_STEPS, OutOfMemory, Schedule, Stop};
use std::alloc::AllocError;

/// For so many steps room is taken at a time.
const PORTION: u64 = 1024;

impl Core {
    /// Makes room for a step, where there is none, and then for a portion of the steps that are left.
    fn make_room(&mut self, left: u64) -> Result<(), OutOfMemory>
        requires { 1 ≤ left }
        ensures run { IsSameRun self.old self.new }
        ensures spare { OnOk result (1 ≤ spare_in self.new) }
    {
        if self.spare() > 0 {
            return Ok(());
        }
        let steps = left
            .min(PORTION)
            .min(MOST_STEPS.saturating_sub(self.steps()));
        if steps == 0 {
            return Err(AllocError);
        }
        self.reserve(steps as usize)
    }

    /// Makes steps of the schedule's threads, in order, until the program is done, the event at which the run is to stop was committed,
    /// or so many steps were made. Room is taken in portions between steps. Where memory is wanting, the run stands behind the
    /// steps that it made.
    pub fn run(&mut self, how: &Schedule, stop: Stop) -> Result<End, OutOfMemory>
        requires count { IfSome stop.on (λ on. 1 ≤ on.1) }
        requires listed { IsListed how.now self.old.program.threads stop.steps }
        ensures run { IsRunBy self.old how.now stop result self.new }
        ensures rule { RuleHolds self.new }
    {
        let ended = run_by(self, how, stop);
        self.rule_holds();
        ended
    }
}

impl Stepper for Core {
    ghost use Rattle.omi_core.specs.Runs.{IsSameRun};

    ghost stands = { λ core a. IsSameRun a core };

    ghost left = { λ core a. IsSameRun a core };

    fn thread_count(&self) -> u8 {
        self.threads()
    }

    fn make_one(
        &mut self,
        thread: u8,
        steps: u64,
        on: Option<(Break, u32)>,
        met: u32,
    ) -> Result<Judged, OutOfMemory> {
        self.make_room(steps)?;
        let entry = self.step(thread);
        Ok(Judged {
            end: end_at(on, met, &entry.outcome),
            met: met_at(on, met, &entry.outcome),
        })
    }
}
