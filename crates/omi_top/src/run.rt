//! A run of a program by a plan.

ghost use Rattle.std.specs.Prelude.{IfOk, []};
ghost use Rattle.omi_top.specs.Asked.{IsPossible};
ghost use Rattle.omi_top.specs.Ran.{IsRanBy};

use crate::plan::Plan;
use omi_core::{Recorded, Recorder, run_recorded};
use omi_layout::Layout;
use omi_rep::families_suit;
use omi_script::Program;
use omi_word::OutOfMemory;
use std::alloc::Global;

/// Runs a program as a plan says, with a recorder of its events.
pub fn run_of<R: Recorder + Drop>(
    alloc: Global,
    p: Program,
    plan: Plan,
    recorder: R,
) -> Result<Recorded<R>, OutOfMemory>
    requires possible { IsPossible plan }
    requires nothing { R.tells recorder [] }
    ensures { IfOk result (λ ran. IsRanBy p plan (λ items. R.tells ran.recorder items)
        ran.image ran.steps ran.why) }
{
    families_suit();
    let layout = Layout::family(plan.layout, p.threads);
    run_recorded(alloc, p, layout, &plan.schedule(), plan.stop, recorder)
}
