//! The audit of a target's words.

ghost use Rattle.std.specs.Prelude.{◌≡◌, Err, length};
ghost use Rattle.omi_layout.specs.Valid.{IsValid};
ghost use Rattle.omi_outside.specs.Outside.{HasCause};
ghost use Rattle.omi_session.specs.Opened.{StaysWhole};
ghost use Rattle.omi_session.specs.Tells.{Tells};
ghost use Rattle.omi_word.specs.Words.{Words};
ghost use Rattle.omi_audit.specs.Judged.{Judges};
ghost use Rattle.omi_audit.specs.InOrder.{AsksOnly, ended};
ghost use Rattle.omi_audit.specs.Listed.{asked_words};
ghost use Rattle.omi_audit.specs.Search.{reached};
ghost use Rattle.omi_audit.specs.Promise.{OverTold, ReadsInOrder, GivesState, RefusesNoReached};
ghost use Rattle.omi_audit.specs.Verdicts as the;

use crate::chains::judge_chains;
use crate::records::{judge_met, judge_runtime, judge_threads};
use crate::search::Search;
use crate::stop::{Stop, answer_of};
use crate::verdict::{AuditFault, Verdict};
use omi_calls::{Callbacks, ToHost};
use omi_session::Session;
use std::alloc::Global;

/// Judges all words, and answers the number of records that were met.
fn judge_all<C: Callbacks, F: ToHost>(s: &mut Session<C, F>, alloc: Global) -> Result<usize, Stop>
    ensures judged { (memory : Words) → Tells (C.told s.old.table.calls) memory
        → Judges (the.refusals s.old.layout memory) (λ records.
        records ≡ length (reached s.old.layout memory)) result }
    ensures valid { IsValid s.old.layout }
    ensures reads { (memory : Words) → Tells (C.told s.old.table.calls) memory
        → AsksOnly (C.told s.old.table.calls) memory (asked_words s.old.layout memory)
        (C.asked s.old.table.calls) (C.asked s.new.table.calls) (ended result) }
    ensures same { StaysWhole C.told s.old s.new }
    ensures cause { HasCause (C.faults s.old.table.calls) (C.faults s.new.table.calls)
        (result ≡ Err (Stop.Fault AuditFault.Callback)) }
{
    let mut search = Search::new(alloc);
    judge_runtime(s, &mut search)?;
    judge_threads(s, &mut search)?;
    judge_met(s, &mut search)?;
    judge_chains(s.layout(), &search, alloc)?;
    Ok(search.met.len())
}

/// Judges the words of a session's target in the session's layout: Yes where no clause fails. Else the first word, or the first record of a chain, at
/// which one fails: of the runtime record, then of the threads, then of the regions and tasks that these lead to, as a breadth-first search meets them,
/// and then of the chains from these.
pub fn audit<C: Callbacks, F: ToHost>(
    s: &mut Session<C, F>,
    alloc: Global,
) -> Result<Verdict, AuditFault>
    ensures verdict { OverTold C.told s.old result (λ memory v.
        v ≡ the.verdict s.old.layout memory) }
    ensures shown { OverTold C.told s.old result (GivesState s.old.layout) }
    ensures reached { OverTold C.told s.old result (RefusesNoReached s.old.layout) }
    ensures reads { ReadsInOrder C.told C.asked s.old s.new result }
    ensures same { StaysWhole C.told s.old s.new }
    ensures cause { HasCause (C.faults s.old.table.calls) (C.faults s.new.table.calls)
        (result ≡ Err AuditFault.Callback) }
{
    answer_of(judge_all(s, alloc))
}
