//! The one call that the program makes, with the clause for each of its promises.

ghost use Rattle.std.specs.Prelude.{◌≡◌, ◌⊎◌, List, ℕ, Option, Some, None, ⊤};
ghost use Rattle.omi_outside.specs.Outside.{holding, put_on};
ghost use Rattle.omi_script.specs.Grammar.{Grammar, Refused as RefusedScript};
ghost use Rattle.omi_script.specs.declared.fault.ScriptFault.{ScriptFault};
ghost use Rattle.omi_script.specs.declared.program.Program.{Program};
ghost use Rattle.omi_frame.specs.Concluded.{Causes, Concluded, Leaves, Performed};
ghost use Rattle.omi_frame.specs.OfScript.{IsBeforeWriting};
ghost use Rattle.omi_frame.specs.Seen.{files_seen, output_seen};
ghost use Rattle.omi_frame.specs.Statuses.{ComesWhere, IsOfCore};
ghost use Rattle.omi_live.specs.Answer.{live_verb};
ghost use Rattle.omi_live.specs.Asked.{asked, IsPossible};
ghost use Rattle.omi_live.specs.Command.{LiveCommand, LiveWrites, live_command_in};
ghost use Rattle.omi_live.specs.Run.{IsLiveRun};

use crate::command::{Request, request_of};
use crate::run::run_of;
use omi_commands::write_core;
use omi_frame::{Refusal, end_with, line_in, program_of, refuse_words, room_for};
use omi_outside::{Files, Gate, Sink, Status};
use std::alloc::Global;
use std::thread::Threads;

/// Runs the threads of a script's program, writes the core, and answers what is printed.
fn perform<R: Threads + Sync, F: Files, G: Gate>(
    rt: &R,
    alloc: Global,
    request: Request<'_>,
    files: &mut F,
    gate: &G,
) -> Result<Vec<u8>, Refusal>
    requires { IsPossible request.plan }
    ensures { Performed (live_verb (asked request.entry)) result
        (files_seen (F.told files.old) (F.reads files.old) (F.writes files.old))
        (files_seen (F.told files.new) (F.reads files.new) (F.writes files.new))
        (files_seen (F.told files.old) (F.reads files.old) (F.writes files.old))
        (files_seen (F.told files.new) (F.reads files.new) (F.writes files.new)) }
{
    let p = program_of(alloc, request.script, files)?;
    let (image, contexts, text) = run_of(rt, alloc, &p, request.plan, gate)?;
    write_core(alloc, &image, &contexts, files, request.core)?;
    Ok(text.into_bytes())
}

/// Does what a request asks for, and prints. Room for the line of a refusal is taken first.
fn carry_out<R: Threads + Sync, F: Files, K: Sink, G: Gate>(
    rt: &R,
    alloc: Global,
    request: Request<'_>,
    files: &mut F,
    out: &mut K,
    gate: &G,
) -> Status
    requires { IsPossible request.plan }
    ensures { Concluded (live_verb (asked request.entry)) result
        (files_seen (F.told files.old) (F.reads files.old) (F.writes files.old))
        (files_seen (F.told files.new) (F.reads files.new) (F.writes files.new))
        (files_seen (F.told files.old) (F.reads files.old) (F.writes files.old))
        (files_seen (F.told files.new) (F.reads files.new) (F.writes files.new))
        (output_seen (K.told out.old) (K.faults out.old) (K.wants out.old))
        (output_seen (K.told out.new) (K.faults out.new) (K.wants out.new)) }
{
    let names = request.names();
    let Ok(mut room) = room_for(alloc, names) else {
        return Status::OutOfMemory;
    };
    let answer = perform(rt, alloc, request, files, gate);
    end_with(names, answer, &mut room, out)
}

/// All that the program does with the words behind its name: `BUDGET SCRIPT CORE` runs each thread of the program of a script as work
/// of its own, for at most BUDGET steps of each, writes the core that they leave, and prints of each thread how many steps it made and
/// its events. `--break NAME` says at which events all threads stop, and `--layout K` in which layout the records stand. It reads and
/// writes `files` and prints to `out`; `gate` is passed before each step.
pub fn live_top<R: Threads + Sync, F: Files, K: Sink, G: Gate>(
    rt: &R,
    alloc: Global,
    words: &Vec<String>,
    files: &mut F,
    out: &mut K,
    gate: &G,
) -> Status
    // No core is read, so none is refused. Where the words are refused, that line is put; and for what
    // cause each fault comes.
    ensures of_core { IsOfCore result → ⊥ }
    ensures usage { result ≡ Status.Usage → live_command_in words.now ≡ None }
    ensures faulty { live_command_in words.now ≡ None
        → (result ≡ Status.Usage) ⊎ (result ≡ Status.OutOfMemory) }
    ensures causes { Causes ⊤ result
        (files_seen (F.told files.old) (F.reads files.old) (F.writes files.old))
        (files_seen (F.told files.new) (F.reads files.new) (F.writes files.new))
        (files_seen (F.told files.old) (F.reads files.old) (F.writes files.old))
        (files_seen (F.told files.new) (F.reads files.new) (F.writes files.new))
        (output_seen (K.told out.old) (K.faults out.old) (K.wants out.old))
        (output_seen (K.told out.new) (K.faults out.new) (K.wants out.new)) }

    // Where the script's file is told: there is none, or the grammar refuses it, exactly where the
    // status says so.
    ensures no_file { (command : LiveCommand) (content : Option (List ℕ))
        → live_command_in words.now ≡ Some command
        → F.told files.old command.script ≡ Some content
        → ComesWhere Status.NoFile result (content ≡ None) }
    ensures script { (command : LiveCommand) (bytes : List ℕ)
        → live_command_in words.now ≡ Some command
        → F.told files.old command.script ≡ Some (Some bytes)
        → ComesWhere Status.Script result ((fault : ScriptFault) × RefusedScript bytes fault) }

    // With success the core is that of the words that a run of the threads left, and what is put is
    // the steps and events of each thread in this run. The words show the state that the events reach
    // in some order, which keeps each thread's own, and each state that they show has its report.
    ensures success { (command : LiveCommand) (bytes : List ℕ)
        → live_command_in words.now ≡ Some command
        → F.told files.old command.script ≡ Some (Some bytes)
        → result ≡ Status.Success
        → (p : Program) × (core text : List ℕ) × Grammar bytes p
        × IsLiveRun p command.plan core text
        × (F.told files.new command.core ≡ holding (F.told files.old command.core) core)
        × (K.told out.new ≡ put_on (K.told out.old) text) }

    // What is left of the core and of the output with every status.
    ensures left { (command : LiveCommand) → live_command_in words.now ≡ Some command
        → Leaves (live_verb command) result
        (files_seen (F.told files.old) (F.reads files.old) (F.writes files.old))
        (files_seen (F.told files.old) (F.reads files.old) (F.writes files.old))
        (files_seen (F.told files.new) (F.reads files.new) (F.writes files.new))
        (output_seen (K.told out.old) (K.faults out.old) (K.wants out.old))
        (output_seen (K.told out.new) (K.faults out.new) (K.wants out.new)) }

    // What stays, whatever is told: all files after a refusal, and those of other names always.
    ensures unwritten { IsBeforeWriting result → F.told files.new ≡ F.told files.old }
    ensures others { (other : List ℕ) → (LiveWrites (live_command_in words.now) other → ⊥)
        → F.told files.new other ≡ F.told files.old other }
{
    let Ok(line) = line_in(alloc, words) else {
        return Status::OutOfMemory;
    };
    match request_of(&line) {
        Some(request) => carry_out(rt, alloc, request, files, out, gate),
        None => refuse_words(out),
    }
}
