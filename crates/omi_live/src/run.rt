//! A run of the threads of a program, by a plan.

ghost use Rattle.std.specs.Prelude.{◌<◌, ◌≤◌, length, IfOk, string_bytes};
ghost use Rattle.omi_corefile.specs.Spelling.{core_bytes};
ghost use Rattle.omi_script.specs.declared.limits.TheConstants.{MAX_THREADS};
ghost use Rattle.omi_live.specs.Asked.{IsPossible};
ghost use Rattle.omi_live.specs.Run.{IsLiveRun};

use crate::command::LivePlan;
use crate::threads::{LiveEnd, live_keeping};
use omi_commands::{contexts_of, runs_text};
use omi_corefile::image_makes_a_core;
use omi_layout::Layout;
use omi_outside::Gate;
use omi_rep::{families_suit, words_fix_the_report};
use omi_script::Program;
use omi_seat::Kept;
use omi_word::{Image, Natives, OutOfMemory};
use std::alloc::Global;
use std::thread::Threads;

/// Runs the threads of a program by a plan, and answers the words of its core, their contexts, and what it prints. Of the steps only their
/// number is printed, so they are not kept.
pub fn run_of<R: Threads + Sync, G: Gate>(
    rt: &R,
    alloc: Global,
    p: &Program,
    plan: LivePlan,
    gate: &G,
) -> Result<(Image, Natives, String), OutOfMemory>
    requires { IsPossible plan }
    ensures run { IfOk result
        (λ made. IsLiveRun p.now plan (core_bytes made.1 made.0) (string_bytes made.2)) }
    ensures some { IfOk result (λ made. 0 < length made.0) }
    ensures few { IfOk result (λ made. length made.1 ≤ MAX_THREADS) }
{
    families_suit();
    words_fix_the_report();
    let contexts = contexts_of(alloc, p.threads)?;
    let layout = Layout::family(plan.layout, p.threads);
    let end = live_keeping(
        rt,
        alloc,
        p,
        &layout,
        plan.budget,
        plan.on,
        gate,
        Kept::Count,
    )?;
    image_makes_a_core(&end.image, &contexts);
    let text = runs_text(alloc, &end.runs, plan.budget)?;
    let LiveEnd { image, runs: _runs } = end;
    Ok((image, contexts, text))
}
