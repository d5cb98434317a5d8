//! The command `stop`.

ghost use Rattle.std.specs.Prelude.{◌≢◌, ◌<◌, ◌≤◌, length, IfOk, IfErr, string_bytes};
ghost use Rattle.omi_corefile.specs.Spelling.{core_bytes};
ghost use Rattle.omi_script.specs.declared.limits.TheConstants.{MAX_THREADS};
ghost use Rattle.omi_top.specs.Command.{Stop as StopCommand};
ghost use Rattle.omi_top.specs.CommandVerbs.{verb_of};
ghost use Rattle.omi_top.specs.verbs.Stop.{IsStopped};
ghost use Rattle.omi_top.specs.Asked.{IsPossible};
ghost use Rattle.omi_frame.specs.Concluded.{Performed};
ghost use Rattle.omi_top.specs.Apart.{KeptApart};
ghost use Rattle.omi_frame.specs.Seen.{files_seen};

use crate::lines::text_of;
use crate::plan::Plan;
use crate::run::run_of;
use omi_commands::{Lines, contexts_of, write_core};
use omi_core::Recorded;
use omi_corefile::image_makes_a_core;
use omi_frame::{Refusal, program_of};
use omi_outside::Files;
use omi_script::Program;
use omi_word::{Image, Natives, OutOfMemory};
use std::alloc::Global;

/// Runs a program by a plan, and answers the words of its core, their contexts, and what it prints.
fn stopped(alloc: Global, p: Program, plan: Plan) -> Result<(Image, Natives, String), OutOfMemory>
    requires { IsPossible plan }
    ensures run { IfOk result
        (λ made. IsStopped p plan (core_bytes made.1 made.0) (string_bytes made.2)) }
    ensures some { IfOk result (λ made. 0 < length made.0) }
    ensures few { IfOk result (λ made. length made.1 ≤ MAX_THREADS) }
{
    let contexts = contexts_of(alloc, p.threads)?;
    let ran = run_of(alloc, p, plan, Lines::new(alloc))?;
    image_makes_a_core(&ran.image, &contexts);
    let Recorded {
        image,
        steps,
        why,
        recorder,
    } = ran;
    let text = text_of(recorder, steps, why)?;
    Ok((image, contexts, text))
}

/// Runs the program of a script by a plan, writes its core, and answers what it prints.
pub fn stop<F: Files, W: Files>(
    alloc: Global,
    plan: Plan,
    script: &str,
    core: &str,
    files: &mut F,
    dest: &mut W,
) -> Result<Vec<u8>, Refusal>
    requires { IsPossible plan }
    ensures performed { Performed (verb_of (StopCommand plan script.now core.now)) result
        (files_seen (F.told files.old) (F.reads files.old) (F.writes files.old))
        (files_seen (F.told files.new) (F.reads files.new) (F.writes files.new))
        (files_seen (W.told dest.old) (W.reads dest.old) (W.writes dest.old))
        (files_seen (W.told dest.new) (W.reads dest.new) (W.writes dest.new)) }
    ensures apart { KeptApart
        (files_seen (F.told files.old) (F.reads files.old) (F.writes files.old))
        (files_seen (F.told files.new) (F.reads files.new) (F.writes files.new))
        (files_seen (W.told dest.old) (W.reads dest.old) (W.writes dest.old))
        (files_seen (W.told dest.new) (W.reads dest.new) (W.writes dest.new)) }
{
    let p = program_of(alloc, script, files)?;
    let (image, contexts, text) = stopped(alloc, p, plan)?;
    write_core(alloc, &image, &contexts, dest, core)?;
    Ok(text.into_bytes())
}
