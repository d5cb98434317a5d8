//! The one call that the program makes, with the clause for each of its promises.

ghost use Rattle.std.specs.Prelude.{◌≡◌, ◌⊎◌, List, ℕ, Option, Some, None};
ghost use Rattle.omi_outside.specs.Outside.{put_on};
ghost use Rattle.omi_script.specs.Grammar.{Grammar, Refused as RefusedScript};
ghost use Rattle.omi_script.specs.declared.fault.ScriptFault.{ScriptFault};
ghost use Rattle.omi_script.specs.declared.program.Program.{Program};
ghost use Rattle.omi_frame.specs.Concluded.{Causes, Concluded, Leaves, Performed};
ghost use Rattle.omi_frame.specs.Seen.{files_seen, output_seen};
ghost use Rattle.omi_frame.specs.Statuses.{ComesWhere, IsOfCore};
ghost use Rattle.omi_park.specs.Answer.{park_verb};
ghost use Rattle.omi_park.specs.Asked.{asked, IsPossible};
ghost use Rattle.omi_park.specs.Command.{ParkCommand, park_command_in};
ghost use Rattle.omi_park.specs.Shown.{IsParkRun};

use crate::command::{Request, request_of};
use crate::run::run_of;
use omi_frame::{Refusal, end_with, line_in, program_of, refuse_words, room_for};
use omi_outside::{Files, Gate, Sink, Status};
use std::alloc::Global;
use std::sync::Wait;
use std::thread::Threads;

/// Reads the script of a request, runs the threads of its program with stops, and answers what is printed.
fn perform<R: Threads + Wait + Sync, F: Files, G: Gate>(
    rt: &R,
    alloc: Global,
    request: Request<'_>,
    files: &mut F,
    gate: &G,
) -> Result<Vec<u8>, Refusal>
    requires { IsPossible request.plan }
    ensures performed { Performed (park_verb (asked request.entry)) result
        (files_seen (F.told files.old) (F.reads files.old) (F.writes files.old))
        (files_seen (F.told files.new) (F.reads files.new) (F.writes files.new))
        (files_seen (F.told files.old) (F.reads files.old) (F.writes files.old))
        (files_seen (F.told files.new) (F.reads files.new) (F.writes files.new)) }
    ensures writes { F.writes files.new ≡ F.writes files.old }
{
    let p = program_of(alloc, request.script, files)?;
    let text = run_of(rt, alloc, &p, request.plan, gate)?;
    Ok(text)
}

/// Does what a request asks for, and prints. Room for the line of a refusal is taken first.
fn carry_out<R: Threads + Wait + Sync, F: Files, K: Sink, G: Gate>(
    rt: &R,
    alloc: Global,
    request: Request<'_>,
    files: &mut F,
    out: &mut K,
    gate: &G,
) -> Status
    requires { IsPossible request.plan }
    ensures concluded { Concluded (park_verb (asked request.entry)) result
        (files_seen (F.told files.old) (F.reads files.old) (F.writes files.old))
        (files_seen (F.told files.new) (F.reads files.new) (F.writes files.new))
        (files_seen (F.told files.old) (F.reads files.old) (F.writes files.old))
        (files_seen (F.told files.new) (F.reads files.new) (F.writes files.new))
        (output_seen (K.told out.old) (K.faults out.old) (K.wants out.old))
        (output_seen (K.told out.new) (K.faults out.new) (K.wants out.new)) }
    ensures writes { F.writes files.new ≡ F.writes files.old }
{
    let names = request.names();
    let Ok(mut room) = room_for(alloc, names) else {
        return Status::OutOfMemory;
    };
    let answer = perform(rt, alloc, request, files, gate);
    end_with(names, answer, &mut room, out)
}

/// All that the program does with the words behind its name: `BUDGET STOPS SCRIPT` runs each thread of the program of a script as work of
/// its own, in the layout of family 0 and for at most BUDGET steps of each, and stops all of them STOPS times. Behind the run it prints of
/// each stop how many steps each thread had made, the report of the words of that moment, and which tasks of the report before are
/// still current; and then of each thread how many steps it made and its events. It reads from `files`, writes none, and prints to `out`;
/// `gate` is passed before each step, and by the inspector before and behind each call to stop. It waits, and nothing is said of its
/// return.
pub fn park_top<R: Threads + Wait + Sync, F: Files, K: Sink, G: Gate>(
    rt: &R,
    alloc: Global,
    words: &Vec<String>,
    files: &mut F,
    out: &mut K,
    gate: &G,
) -> Status
    // No core is read from a file, so none is refused. Where the words are refused, that line is put; and
    // for what cause each fault comes.
    ensures of_core { IsOfCore result → ⊥ }
    ensures usage { result ≡ Status.Usage → park_command_in words.now ≡ None }
    ensures faulty { park_command_in words.now ≡ None
        → (result ≡ Status.Usage) ⊎ (result ≡ Status.OutOfMemory) }
    ensures causes { Causes ⊥ result
        (files_seen (F.told files.old) (F.reads files.old) (F.writes files.old))
        (files_seen (F.told files.new) (F.reads files.new) (F.writes files.new))
        (files_seen (F.told files.old) (F.reads files.old) (F.writes files.old))
        (files_seen (F.told files.new) (F.reads files.new) (F.writes files.new))
        (output_seen (K.told out.old) (K.faults out.old) (K.wants out.old))
        (output_seen (K.told out.new) (K.faults out.new) (K.wants out.new)) }

    // Where the script's file is told: there is none, or the grammar refuses it, exactly where the
    // status says so.
    ensures no_file { (command : ParkCommand) (content : Option (List ℕ))
        → park_command_in words.now ≡ Some command
        → F.told files.old command.script ≡ Some content
        → ComesWhere Status.NoFile result (content ≡ None) }
    ensures script { (command : ParkCommand) (bytes : List ℕ)
        → park_command_in words.now ≡ Some command
        → F.told files.old command.script ≡ Some (Some bytes)
        → ComesWhere Status.Script result ((fault : ScriptFault) × RefusedScript bytes fault) }

    // With success what is put is of one run of the threads with as many stops as were asked for: of
    // each stop in turn its number, how many steps each thread had made, the report of the state that
    // the words of that moment show, and which tasks of the report before have their life word still;
    // and then the steps and events of each thread. The state is the one that the events up to there
    // reach in some order, which takes of each thread its first steps, as many as were printed.
    ensures success { (command : ParkCommand) (bytes : List ℕ)
        → park_command_in words.now ≡ Some command
        → F.told files.old command.script ≡ Some (Some bytes)
        → result ≡ Status.Success
        → (p : Program) × (text : List ℕ) × Grammar bytes p × IsParkRun p command.plan text
        × (K.told out.new ≡ put_on (K.told out.old) text) }

    // What is left of the output with every status. No file is written.
    ensures left { (command : ParkCommand) → park_command_in words.now ≡ Some command
        → Leaves (park_verb command) result
        (files_seen (F.told files.old) (F.reads files.old) (F.writes files.old))
        (files_seen (F.told files.old) (F.reads files.old) (F.writes files.old))
        (files_seen (F.told files.new) (F.reads files.new) (F.writes files.new))
        (output_seen (K.told out.old) (K.faults out.old) (K.wants out.old))
        (output_seen (K.told out.new) (K.faults out.new) (K.wants out.new)) }
    ensures files_told { F.told files.new ≡ F.told files.old }
    ensures files_writes { F.writes files.new ≡ F.writes files.old }
{
    let Ok(line) = line_in(alloc, words) else {
        return Status::OutOfMemory;
    };
    match request_of(&line) {
        Some(request) => carry_out(rt, alloc, request, files, out, gate),
        None => refuse_words(out),
    }
}
