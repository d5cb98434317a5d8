//! A run of the threads of a program with stops, by a plan.

ghost use Rattle.std.specs.Prelude.{IfOk};
ghost use Rattle.omi_park.specs.Asked.{IsPossible};
ghost use Rattle.omi_park.specs.Shown.{IsParkRun};

use crate::command::ParkPlan;
use crate::printed::stops_text;
use crate::threads::park_keeping;
use omi_commands::runs_text;
use omi_layout::{Layout, MOST_THREADS};
use omi_outside::Gate;
use omi_rep::families_suit;
use omi_script::Program;
use omi_seat::Kept;
use omi_word::OutOfMemory;
use std::alloc::Global;
use std::sync::Wait;
use std::thread::Threads;

/// Runs the threads of a program with stops by a plan, and answers what it prints: of each stop in turn, and then of the whole run.
/// Of the steps only their number is printed, so they are not kept.
pub fn run_of<R: Threads + Wait + Sync, G: Gate>(
    rt: &R,
    alloc: Global,
    p: &Program,
    plan: ParkPlan,
    gate: &G,
) -> Result<Vec<u8>, OutOfMemory>
    requires { IsPossible plan }
    ensures { IfOk result (λ text. IsParkRun p.now plan text.items) }
{
    families_suit();
    let layout = Layout::family(0, p.threads);
    let end = park_keeping(
        rt,
        alloc,
        p,
        &layout,
        plan.budget,
        plan.stops,
        gate,
        MOST_THREADS as u8,
        Kept::Count,
    )?;
    let mut text = stops_text(alloc, &end.stops, p.threads)?;
    let runs = runs_text(alloc, &end.runs, plan.budget)?;
    text.extend_from_slice(runs.as_bytes())?;
    Ok(text)
}
