//! The one call that the program makes, with the clause for each of its promises.

ghost use Rattle.std.specs.Prelude.{◌≡◌, ◌⊎◌, List, ℕ, Option, Some, None, IfOk, IfErr};
ghost use Rattle.omi_outside.specs.Outside.{put_on};
ghost use Rattle.omi_script.specs.Grammar.{Grammar, Refused as RefusedScript};
ghost use Rattle.omi_script.specs.declared.fault.ScriptFault.{ScriptFault};
ghost use Rattle.omi_script.specs.declared.program.Program.{Program};
ghost use Rattle.omi_rewind.specs.declared.test.Test.TheVariants.{State};
ghost use Rattle.omi_frame.specs.Concluded.{Causes, Concluded, Leaves, Performed};
ghost use Rattle.omi_frame.specs.Seen.{files_seen, output_seen};
ghost use Rattle.omi_frame.specs.Statuses.{ComesWhere, IsOfCore};
ghost use Rattle.omi_rewind_top.specs.Answer.{IsRewindText, IsThreadless, LacksThread, MayLackThread, rewind_verb};
ghost use Rattle.omi_rewind_top.specs.Asked.{asked, IsPossible};
ghost use Rattle.omi_rewind_top.specs.Command.{GoTo, FindState, RewindCommand, rewind_command_in, script_of};
ghost use Rattle.omi_rewind_top.specs.Turns.{IsAtText, IsWhenText};

use crate::at::at_text;
use crate::command::{Request, request_of};
use crate::when::when_text;
use omi_frame::{Refusal, end_with, line_in, program_of, refuse_words, room_for};
use omi_outside::{Files, Sink, Status};
use omi_script::Program;
use std::alloc::Global;

/// What a request prints of a program. Its refusal is that of a thread that the program doesn't have.
fn text_of(alloc: Global, p: Program, request: Request<'_>) -> Result<Vec<u8>, Refusal>
    requires { IsPossible request }
    ensures text { IfOk result (λ text. IsRewindText (asked request.entry) p text.items) }
    ensures refused { IfErr result (λ r. (r ≡ Refusal.OutOfMemory)
        ⊎ ((r ≡ Refusal.Usage) × LacksThread (asked request.entry) p)) }
{
    match request {
        Request::GoTo { steps, script: _ } => Ok(at_text(alloc, p, &steps)?),
        Request::FindState {
            thread,
            state,
            last,
            script: _,
        } => {
            if thread >= u64::from(p.threads) {
                return Err(Refusal::Usage);
            }
            let text = when_text(alloc, p, thread as u8, state, last)?;
            Ok(text.into_bytes())
        }
    }
}

/// Reads the script of a request, and answers what is printed of its program.
fn perform<F: Files>(alloc: Global, request: Request<'_>, files: &mut F) -> Result<Vec<u8>, Refusal>
    requires { IsPossible request }
    ensures performed { Performed (rewind_verb (asked request.entry)) result
        (files_seen (F.told files.old) (F.reads files.old) (F.writes files.old))
        (files_seen (F.told files.new) (F.reads files.new) (F.writes files.new))
        (files_seen (F.told files.old) (F.reads files.old) (F.writes files.old))
        (files_seen (F.told files.new) (F.reads files.new) (F.writes files.new)) }
    ensures writes { F.writes files.new ≡ F.writes files.old }
{
    let p = program_of(alloc, request.script(), files)?;
    text_of(alloc, p, request)
}

/// Does what a request asks for, and prints. Room for the line of a refusal is taken first.
fn carry_out<F: Files, K: Sink>(
    alloc: Global,
    request: Request<'_>,
    files: &mut F,
    out: &mut K,
) -> Status
    requires { IsPossible request }
    ensures concluded { Concluded (rewind_verb (asked request.entry)) result
        (files_seen (F.told files.old) (F.reads files.old) (F.writes files.old))
        (files_seen (F.told files.new) (F.reads files.new) (F.writes files.new))
        (files_seen (F.told files.old) (F.reads files.old) (F.writes files.old))
        (files_seen (F.told files.new) (F.reads files.new) (F.writes files.new))
        (output_seen (K.told out.old) (K.faults out.old) (K.wants out.old))
        (output_seen (K.told out.new) (K.faults out.new) (K.wants out.new)) }
    ensures writes { F.writes files.new ≡ F.writes files.old }
{
    let names = request.names();
    let Ok(mut room) = room_for(alloc, names) else {
        return Status::OutOfMemory;
    };
    let answer = perform(alloc, request, files);
    end_with(names, answer, &mut room, out)
}

/// All that the program does with the words behind its name: `at N,N,.. SCRIPT` runs the program of a script, its threads in turn and in
/// the layout of family 0, and prints for each step N its line and the report of the words there; `when I STATE STEPS SCRIPT` prints the
/// first step, from 0 to STEPS, at which thread I is in a state, or that there is none. It reads from `files`, writes none, and prints to
/// `out`.
pub fn rewind_top<F: Files, K: Sink>(
    alloc: Global,
    words: &Vec<String>,
    files: &mut F,
    out: &mut K,
) -> Status
    // No core is read, so none is refused. Where the words are refused, that line is put; and for what
    // cause each fault comes.
    ensures of_core { IsOfCore result → ⊥ }
    ensures usage { result ≡ Status.Usage → MayLackThread (rewind_command_in words.now) }
    ensures faulty { rewind_command_in words.now ≡ None
        → (result ≡ Status.Usage) ⊎ (result ≡ Status.OutOfMemory) }
    ensures causes { Causes ⊥ result
        (files_seen (F.told files.old) (F.reads files.old) (F.writes files.old))
        (files_seen (F.told files.new) (F.reads files.new) (F.writes files.new))
        (files_seen (F.told files.old) (F.reads files.old) (F.writes files.old))
        (files_seen (F.told files.new) (F.reads files.new) (F.writes files.new))
        (output_seen (K.told out.old) (K.faults out.old) (K.wants out.old))
        (output_seen (K.told out.new) (K.faults out.new) (K.wants out.new)) }

    // Where the script's file is told: there is none, the grammar refuses it, or its program has no
    // thread of the command's number, exactly where the status says so.
    ensures no_file { (command : RewindCommand) (content : Option (List ℕ))
        → rewind_command_in words.now ≡ Some command
        → F.told files.old (script_of command) ≡ Some content
        → ComesWhere Status.NoFile result (content ≡ None) }
    ensures script { (command : RewindCommand) (bytes : List ℕ)
        → rewind_command_in words.now ≡ Some command
        → F.told files.old (script_of command) ≡ Some (Some bytes)
        → ComesWhere Status.Script result ((fault : ScriptFault) × RefusedScript bytes fault) }
    ensures thread { (command : RewindCommand) (content : Option (List ℕ))
        → rewind_command_in words.now ≡ Some command
        → F.told files.old (script_of command) ≡ Some content
        → ComesWhere Status.Usage result (IsThreadless command content) }

    // With success of `at` what is put is, for each step in its order, its line and the report of the
    // state that the events up to this step reach, in a run of the program whose threads step in turn.
    ensures at { (steps script bytes : List ℕ)
        → rewind_command_in words.now ≡ Some (GoTo steps script)
        → F.told files.old script ≡ Some (Some bytes) → result ≡ Status.Success
        → (p : Program) × (text : List ℕ) × Grammar bytes p × IsAtText p steps text
        × (K.told out.new ≡ put_on (K.told out.old) text) }

    // With success of `when` what is put is the least step of such a run, from 0 to the last one or to
    // the one that commits `done`, behind which the thread is in the state, or that there is none.
    ensures first { (thread state last : ℕ) (script bytes : List ℕ)
        → rewind_command_in words.now ≡ Some (FindState thread state last script)
        → F.told files.old script ≡ Some (Some bytes) → result ≡ Status.Success
        → (p : Program) × (text : List ℕ) × Grammar bytes p
        × IsWhenText p (State thread state) last text
        × (K.told out.new ≡ put_on (K.told out.old) text) }

    // What is left of the output with every status. No file is written.
    ensures left { (command : RewindCommand) → rewind_command_in words.now ≡ Some command
        → Leaves (rewind_verb command) result
        (files_seen (F.told files.old) (F.reads files.old) (F.writes files.old))
        (files_seen (F.told files.old) (F.reads files.old) (F.writes files.old))
        (files_seen (F.told files.new) (F.reads files.new) (F.writes files.new))
        (output_seen (K.told out.old) (K.faults out.old) (K.wants out.old))
        (output_seen (K.told out.new) (K.faults out.new) (K.wants out.new)) }
    ensures files_told { F.told files.new ≡ F.told files.old }
    ensures files_writes { F.writes files.new ≡ F.writes files.old }
{
    let Ok(line) = line_in(alloc, words) else {
        return Status::OutOfMemory;
    };
    let Ok(request) = request_of(alloc, &line) else {
        return Status::OutOfMemory;
    };
    match request {
        Some(request) => carry_out(alloc, request, files, out),
        None => refuse_words(out),
    }
}
