//! The one call that the program makes, with the clause for each of its promises.

ghost use Rattle.std.specs.Prelude.{◌≡◌, ◌⊎◌, List, ℕ, Some, ⊤};
ghost use Rattle.omi_outside.specs.Outside.{put_on};
ghost use Rattle.omi_frame.specs.Concluded.{Causes, Concluded, Leaves, Performed};
ghost use Rattle.omi_frame.specs.Seen.{files_seen, output_seen};
ghost use Rattle.omi_frame.specs.Statuses.{IsOfCore};
ghost use Rattle.omi_frame.specs.Verb.{Writes};
ghost use Rattle.omi_top.specs.Apart.{KeptApart};
ghost use Rattle.omi_top.specs.Asked.{asked, IsBounded};
ghost use Rattle.omi_top.specs.Command.{Run, Faulty, command_in};
ghost use Rattle.omi_top.specs.Promise.{IsPromised};
ghost use Rattle.omi_top.specs.declared.plan.Plan.{Plan};
ghost use Rattle.omi_top.specs.CommandVerbs.{IsUnwritten, Promises, RefusesCore, verb_of};

use crate::audit::audit;
use crate::command::{Request, names_of, request_of};
use crate::elf::elf;
use crate::follow::follow;
use crate::make::make;
use crate::recode::recode;
use crate::run_and_show::run_and_show;
use crate::show::show;
use crate::stop::stop;
use omi_frame::{Refusal, end_with, line_in, refuse_words, room_for};
use omi_outside::{Files, Sink, Status};
use std::alloc::Global;

/// Does all but the printing.
fn perform<F: Files, W: Files>(
    alloc: Global,
    request: Request<'_>,
    files: &mut F,
    dest: &mut W,
) -> Result<Vec<u8>, Refusal>
    requires { IsBounded request }
    ensures performed { Performed (verb_of (asked request.entry)) result
        (files_seen (F.told files.old) (F.reads files.old) (F.writes files.old))
        (files_seen (F.told files.new) (F.reads files.new) (F.writes files.new))
        (files_seen (W.told dest.old) (W.reads dest.old) (W.writes dest.old))
        (files_seen (W.told dest.new) (W.reads dest.new) (W.writes dest.new)) }
    ensures apart { KeptApart
        (files_seen (F.told files.old) (F.reads files.old) (F.writes files.old))
        (files_seen (F.told files.new) (F.reads files.new) (F.writes files.new))
        (files_seen (W.told dest.old) (W.reads dest.old) (W.writes dest.old))
        (files_seen (W.told dest.new) (W.reads dest.new) (W.writes dest.new)) }
{
    match request {
        Request::Stop { plan, script, core } => stop(alloc, plan, script, core, files, dest),
        Request::Make { nodes, script } => make(alloc, nodes, script, dest),
        Request::Show { core } => show(alloc, core, files),
        Request::Run { plan, script, core } => {
            run_and_show(alloc, plan, script, core, files, dest)
        }
        Request::Recode { order, core, copy } => recode(alloc, order, core, copy, files, dest),
        Request::Elf { core, copy } => elf(alloc, core, copy, files, dest),
        Request::Audit { core } => audit(alloc, core, files),
        Request::Follow { core, later } => follow(alloc, core, later, files),
        Request::Faulty => Err(Refusal::Usage),
    }
}

/// Does what a request asks for, and prints. Room for the line of a refusal is taken first.
fn carry_out<F: Files, W: Files, K: Sink>(
    alloc: Global,
    request: Request<'_>,
    files: &mut F,
    dest: &mut W,
    out: &mut K,
) -> Status
    requires { IsBounded request }
    ensures concluded { Concluded (verb_of (asked request.entry)) result
        (files_seen (F.told files.old) (F.reads files.old) (F.writes files.old))
        (files_seen (F.told files.new) (F.reads files.new) (F.writes files.new))
        (files_seen (W.told dest.old) (W.reads dest.old) (W.writes dest.old))
        (files_seen (W.told dest.new) (W.reads dest.new) (W.writes dest.new))
        (output_seen (K.told out.old) (K.faults out.old) (K.wants out.old))
        (output_seen (K.told out.new) (K.faults out.new) (K.wants out.new)) }
    ensures apart { KeptApart
        (files_seen (F.told files.old) (F.reads files.old) (F.writes files.old))
        (files_seen (F.told files.new) (F.reads files.new) (F.writes files.new))
        (files_seen (W.told dest.old) (W.reads dest.old) (W.writes dest.old))
        (files_seen (W.told dest.new) (W.reads dest.new) (W.writes dest.new)) }
    ensures faulty { asked request.entry ≡ Faulty → result ≡ Status.Usage }
{
    if let Request::Faulty = request {
        return refuse_words(out);
    }
    let names = names_of(request);
    let Ok(mut room) = room_for(alloc, names) else {
        return Status::OutOfMemory;
    };
    let answer = perform(alloc, request, files, dest);
    end_with(names, answer, &mut room, out)
}

/// All that the program does with the words behind its name: `stop STEPS SCRIPT CORE` runs the
/// program of a script for at most STEPS steps, writes its core and prints its events, where options
/// say which threads make the steps, at which event they stop and in which layout; `make N SCRIPT`
/// writes a workload, runs it and prints how many tasks started; `show CORE` prints the report of a
/// core; `run STEPS SCRIPT CORE` does what `stop` does, reads CORE back and prints its report as well;
/// `recode ORDER CORE CORE2` writes a core anew, with the bytes of each word in the order 0 or 1;
/// `elf CORE CORE2` writes a core as an ELF core file;
/// `audit CORE` judges a core's words, and prints that they show a well-formed state, or the first
/// clause of the audit that fails; `follow CORE CORE2` prints of each task of CORE's report whether
/// it is current in CORE2, a later core of the same target.
/// A core that `show`, `run`, `audit` or `follow` reads may be an ELF core file: it is one where it
/// begins with 7f 45 4c 46. It reads from `files` alone, writes to `dest` alone and prints to `out`.
pub fn run_top<F: Files, W: Files, K: Sink>(
    alloc: Global,
    words: &Vec<String>,
    files: &mut F,
    dest: &mut W,
    out: &mut K,
) -> Status
    // For what cause each fault comes, and where a core or the words may be refused.
    ensures causes { Causes ⊤ result
        (files_seen (F.told files.old) (F.reads files.old) (F.writes files.old))
        (files_seen (F.told files.new) (F.reads files.new) (F.writes files.new))
        (files_seen (W.told dest.old) (W.reads dest.old) (W.writes dest.old))
        (files_seen (W.told dest.new) (W.reads dest.new) (W.writes dest.new))
        (output_seen (K.told out.old) (K.faults out.old) (K.wants out.old))
        (output_seen (K.told out.new) (K.faults out.new) (K.wants out.new)) }
    ensures of_core { IsOfCore result → RefusesCore (command_in words.now) result }
    ensures usage { result ≡ Status.Usage → command_in words.now ≡ Faulty }
    ensures faulty { command_in words.now ≡ Faulty
        → (result ≡ Status.Usage) ⊎ (result ≡ Status.OutOfMemory) }

    // What the command promises: when each status comes, and what success puts and writes.
    ensures promises { Promises (command_in words.now) result (F.told files.old)
        (W.told dest.old) (W.told dest.new) (K.told out.old) (K.told out.new) }

    // The promise of the whole, alone. Where the bytes under CORE in `files` are those that `dest`
    // holds under CORE at the end, what is put is the events of a run, each legal, and the report of
    // the state that they reach.
    ensures promise { (plan : Plan) (script core text bytes : List ℕ)
        → command_in words.now ≡ Run plan script core
        → F.told files.old script ≡ Some (Some text) → F.told files.old core ≡ Some (Some bytes)
        → W.told dest.new core ≡ Some (Some bytes) → result ≡ Status.Success
        → (put : List ℕ) × IsPromised text plan put
        × (K.told out.new ≡ put_on (K.told out.old) put) }

    // What is left of the core and of the output with every status.
    ensures left { Leaves (verb_of (command_in words.now)) result
        (files_seen (F.told files.old) (F.reads files.old) (F.writes files.old))
        (files_seen (W.told dest.old) (W.reads dest.old) (W.writes dest.old))
        (files_seen (W.told dest.new) (W.reads dest.new) (W.writes dest.new))
        (output_seen (K.told out.old) (K.faults out.old) (K.wants out.old))
        (output_seen (K.told out.new) (K.faults out.new) (K.wants out.new)) }

    // What stays, whatever is told: after a refusal all that may be written is as before, but for
    // the core that `run` reads back; and `files` are read alone, and `dest` written alone.
    ensures unwritten { IsUnwritten (command_in words.now) result
        → W.told dest.new ≡ W.told dest.old }
    ensures others { (other : List ℕ) → (Writes (verb_of (command_in words.now)) other → ⊥)
        → W.told dest.new other ≡ W.told dest.old other }
    ensures apart { KeptApart
        (files_seen (F.told files.old) (F.reads files.old) (F.writes files.old))
        (files_seen (F.told files.new) (F.reads files.new) (F.writes files.new))
        (files_seen (W.told dest.old) (W.reads dest.old) (W.writes dest.old))
        (files_seen (W.told dest.new) (W.reads dest.new) (W.writes dest.new)) }
{
    match line_in(alloc, words) {
        Ok(line) => carry_out(alloc, request_of(&line), files, dest, out),
        Err(_) => Status::OutOfMemory,
    }
}
