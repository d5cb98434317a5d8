//! Runs by a schedule, whatever makes their steps.

ghost use Rattle.std.specs.Prelude.{◌<◌, ◌≡◌, ◌≤◌, IfOk, IfSome, OnErr, OnOk};
ghost use Rattle.omi_core.specs.Ends.{IsBelow};
ghost use Rattle.omi_core.specs.Runs.{Run};
ghost use Rattle.omi_core.specs.Schedules.{IsListed};
ghost use Rattle.omi_core.specs.StepsOf.{IsJudged, IsRunOn};

use crate::schedule::{first_draw, next_draw, thread_at};
use crate::{Break, End, OutOfMemory, Schedule, Stop};

/// Where a run stands behind a step.
#[derive(Clone, Copy)]
pub struct Judged {
    /// Why it ends, if it does.
    pub end: Option<End>,
    /// How many events of the kind at which it stops there are so far.
    pub met: u32,
}

/// What makes the steps of a run.
pub trait Stepper {
    /// It stands as this run does.
    ghost stands: { Self → Run → Type 0 };

    /// What is left of this run where memory was wanting for a step.
    ghost left: { Self → Run → Type 0 };

    /// The number of threads of the run's program.
    fn thread_count(&self) -> u8
        ensures { (a : Run) → stands self.now a → result ≡ a.program.threads };

    /// Makes a step of a thread, the first of so many, and judges it for a run that stops at the event of a kind with a number, where so many
    /// of the kind came before.
    fn make_one(
        &mut self,
        thread: u8,
        steps: u64,
        on: Option<(Break, u32)>,
        met: u32,
    ) -> Result<Judged, OutOfMemory>
        requires stands { (a : Run) × stands self.old a × (thread < a.program.threads) }
        requires some { 1 ≤ steps }
        requires below { IsBelow on met }
        ensures made { (a : Run) → stands self.old a
            → IfOk result (IsJudged a thread on met (stands self.new)) }
        ensures wanting { (a : Run) → stands self.old a → OnErr result (left self.new a) };
}

/// Makes steps of the schedule's threads, in order, until the program is done, the event at which the run is to stop was committed,
/// or so many steps were made.
pub fn run_by<S: Stepper>(stepper: &mut S, how: &Schedule, stop: Stop) -> Result<End, OutOfMemory>
    requires count { IfSome stop.on (λ on. 1 ≤ on.1) }
    requires listed { (a : Run) × S.stands stepper.old a
        × IsListed how.now a.program.threads stop.steps }
    ensures { (a : Run) → S.stands stepper.old a
        → IsRunOn a how.now stop result (S.stands stepper.new) (S.left stepper.new) }
{
    let threads = stepper.thread_count();
    let mut draw = first_draw(how);
    let mut met = 0;
    for step in 0..stop.steps {
        let thread = thread_at(how, threads, step, draw);
        let judged = stepper.make_one(thread, stop.steps - step, stop.on, met)?;
        if let Some(end) = judged.end {
            return Ok(end);
        }
        met = judged.met;
        draw = next_draw(how, threads, draw);
    }
    Ok(End::Steps)
}
