//! The command `make`.

ghost use Rattle.std.specs.Prelude.{◌≡◌, ◌≢◌, List, ℕ, IfOk, IfErr, IsErrOf, string_bytes};
ghost use Rattle.omi_core.specs.Ends.{count_of, is_of_kind};
ghost use Rattle.omi_model.specs.declared.id.Tid.{Tid};
ghost use Rattle.omi_run_lists.specs.Compact.{with_team};
ghost use Rattle.omi_outside.specs.Outside.{HasCause, Told};
ghost use Rattle.omi_script.specs.Grammar.{Grammar};
ghost use Rattle.omi_frame.specs.Left.{IsAnswered};
ghost use Rattle.omi_frame.specs.Refusal.{IsLate};
ghost use Rattle.omi_top.specs.Asked.{IsMadeText, IsNodes};
ghost use Rattle.omi_top.specs.Command.{Make};
ghost use Rattle.omi_top.specs.Make.{IsMade, made_line, make_text};
ghost use Rattle.omi_top.specs.CommandVerbs.{verb_of};

use crate::limits::MOST_STEPS;
use crate::lines::word_of;
use crate::plan::Plan;
use crate::run::run_of;
use omi_core::{Break, End, Recorder, Stop};
use omi_frame::Refusal;
use omi_model::Team;
use omi_outside::{Files, write_whole};
use omi_run_lists::CompactEvent;
use omi_script::{Program, ScriptError, parse};
use omi_word::OutOfMemory;
use std::alloc::{AllocError, Global};

/// The run that `make` makes.
const RUN: Plan = Plan {
    layout: 0,
    seed: None,
    stop: Stop {
        steps: MOST_STEPS,
        on: None,
    },
};

/// The text of a workload whose four threads each repeat a pair of tasks so many times.
fn make_text(alloc: Global, nodes: u16) -> Result<String, AllocError>
    ensures { IfOk result (λ text. string_bytes text ≡ make_text nodes) }
{
    format!(in alloc;
        "threads 4
func leaf
  work
end
func node
  task leaf
  task leaf
  taskwait
end
func team
  repeat {nodes} node
end
func main
  parallel team num 4
end
"
    )
}

/// The program of such a text.
fn program(alloc: Global, text: &[u8]) -> Result<Program, OutOfMemory>
    requires { IsMadeText text.now }
    ensures { IfOk result (λ p. Grammar text.now p) }
{
    match parse(alloc, text) {
        Ok(p) => Ok(p),
        Err(ScriptError::Fault(_)) => unreachable!(),
        Err(ScriptError::OutOfMemory) => Err(AllocError),
    }
}

/// Whether an event starts an explicit task.
fn starts_task(event: CompactEvent) -> bool
    ensures { (team : List (Tid × ℕ)) → result
        ≡ is_of_kind Break.TaskBegin (with_team team event) }
{
    matches!(
        event,
        CompactEvent::Start { .. } | CompactEvent::StartNow { .. }
    )
}

/// A recorder that counts the explicit tasks that started.
#[derive(Drop)]
pub struct Starts {
    pub count: u64,
}

impl Recorder for Starts {
    ghost use Rattle.omi_core.specs.declared.stop.Break.TheVariants.{TaskBegin};

    ghost tells = { λ starts items. starts.count ≡ count_of TaskBegin items };

    fn record_event(
        &mut self,
        _step: u64,
        _thread: u8,
        event: CompactEvent,
        _team: &Team,
    ) -> Result<(), AllocError> {
        if !starts_task(event) {
            return Ok(());
        }
        let Some(count) = self.count.checked_add(1) else {
            return Err(AllocError);
        };
        self.count = count;
        Ok(())
    }
}

/// What `make` prints of a run that ended so.
fn made_line(alloc: Global, nodes: u16, tasks: u64, why: End) -> Result<String, AllocError>
    ensures { IfOk result (λ line. string_bytes line ≡ made_line nodes tasks why) }
{
    let why = word_of(why);
    format!(in alloc; "made {nodes} tasks {tasks} by {why}\n")
}

/// Runs the program of such a text, and answers what is printed of the run.
fn made(alloc: Global, nodes: u16, text: &[u8]) -> Result<String, OutOfMemory>
    requires nodes { IsNodes nodes }
    requires text { text.now ≡ make_text nodes }
    ensures { IfOk result
        (λ line. (p : Program) × Grammar text.now p × IsMade nodes p (string_bytes line)) }
{
    let p = program(alloc, text)?;
    let ran = run_of(alloc, p, RUN, Starts { count: 0 })?;
    made_line(alloc, nodes, ran.recorder.count, ran.why)
}

/// Makes a workload, runs it, writes its text, and answers what is printed of the run.
pub fn make<W: Files>(
    alloc: Global,
    nodes: u16,
    script: &str,
    dest: &mut W,
) -> Result<Vec<u8>, Refusal>
    requires { IsNodes nodes }
    ensures answer { (told : List ℕ → Told)
        → IsAnswered (verb_of (Make nodes script.now)) told result (W.told dest.old script.now)
        (W.told dest.new script.now) }
    ensures late { IfErr result IsLate }
    ensures write { HasCause (W.writes dest.old) (W.writes dest.new)
        (IsErrOf result Refusal.WriteFault) }
    ensures dest_reads { W.reads dest.new ≡ W.reads dest.old }
    ensures others { (other : List ℕ) → other ≢ script.now
        → W.told dest.new other ≡ W.told dest.old other }
{
    let text = make_text(alloc, nodes)?;
    let line = made(alloc, nodes, text.as_bytes())?;
    write_whole(dest, script, text.as_bytes())?;
    Ok(line.into_bytes())
}
