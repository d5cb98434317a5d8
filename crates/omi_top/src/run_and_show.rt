//! The command `run`.

ghost use Rattle.std.specs.Prelude.{◌≡◌, ◌≢◌, List, ℕ, IfErr, IsErrAnd, IsErrOf};
ghost use Rattle.omi_outside.specs.Outside.{HasCause};
ghost use Rattle.omi_frame.specs.Left.{IsAnswered};
ghost use Rattle.omi_frame.specs.Verb.{Writes};
ghost use Rattle.omi_top.specs.Asked.{IsPossible};
ghost use Rattle.omi_top.specs.Command.{Run};
ghost use Rattle.omi_top.specs.CommandVerbs.{AreTold, IsUnwritten, verb_of};
ghost use Rattle.omi_top.specs.Apart.{KeptApart};
ghost use Rattle.omi_frame.specs.Refusal.{IsReadFault, status_of};
ghost use Rattle.omi_frame.specs.Seen.{files_seen};

use crate::plan::Plan;
use crate::show::show;
use crate::stop::stop;
use omi_frame::Refusal;
use omi_outside::Files;
use std::alloc::Global;

/// Does what `stop` does, reads the core back, and answers what `stop` prints with the core's report behind it.
pub fn run_and_show<F: Files, W: Files>(
    alloc: Global,
    plan: Plan,
    script: &str,
    core: &str,
    files: &mut F,
    dest: &mut W,
) -> Result<Vec<u8>, Refusal>
    requires { IsPossible plan }
    // The run's core and lines, and the report of what is read back.
    ensures answer { let command = Run plan script.now core.now in
        AreTold command (F.told files.old)
        → IsAnswered (verb_of command) (F.told files.old) result (W.told dest.old core.now)
        (W.told dest.new core.now) }
    ensures usage { result ≢ Err Refusal.Usage }

    // The causes of a fault, and what stays.
    ensures read { HasCause (F.reads files.old) (F.reads files.new)
        (IsErrAnd result IsReadFault) }
    ensures write { HasCause (W.writes dest.old) (W.writes dest.new)
        (IsErrOf result Refusal.WriteFault) }
    ensures unwritten { IfErr result (λ r. IsUnwritten (Run plan script.now core.now) (status_of r)
        → W.told dest.new ≡ W.told dest.old) }
    ensures others { (other : List ℕ) → (Writes (verb_of (Run plan script.now core.now)) other → ⊥)
        → W.told dest.new other ≡ W.told dest.old other }
    ensures apart { KeptApart
        (files_seen (F.told files.old) (F.reads files.old) (F.writes files.old))
        (files_seen (F.told files.new) (F.reads files.new) (F.writes files.new))
        (files_seen (W.told dest.old) (W.reads dest.old) (W.writes dest.old))
        (files_seen (W.told dest.new) (W.reads dest.new) (W.writes dest.new)) }
{
    let mut text = stop(alloc, plan, script, core, files, dest)?;
    let report = show(alloc, core, files)?;
    text.extend_from_slice(&report)?;
    Ok(text)
}
