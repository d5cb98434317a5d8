//! The command `audit`.

ghost use Rattle.std.specs.Prelude.{◌≡◌, ◌≢◌, ◌≤◌, IfErr, IfOk, IsErrAnd, length, string_bytes};
ghost use Rattle.omi_outside.specs.Outside.{HasCause, Told};
ghost use Rattle.omi_outside.specs.declared.status.Status.TheVariants.{Script};
ghost use Rattle.omi_frame.specs.Left.{IsAnswered};
ghost use Rattle.omi_top.specs.Audit.{audit_line, judged, refusal_of_audit};
ghost use Rattle.omi_top.specs.Command.{Audit};
ghost use Rattle.omi_top.specs.CommandVerbs.{AreTold, verb_of};
ghost use Rattle.omi_frame.specs.Refusal.{IsReadFault, status_of};

use crate::opened::{has_valid_layout, opened};
use crate::question::{Question, ask_file};
use omi_audit::{AuditFault, Verdict, audit as audit_words};
use omi_calls::{Callbacks, ToHost};
use omi_frame::{Input, Refusal, field_text};
use omi_outside::Files;
use omi_word::Natives;
use std::alloc::{AllocError, Global};

/// What an audit's fault is handed on as.
fn refusal_of_audit(fault: AuditFault) -> Refusal
    ensures { result ≡ refusal_of_audit fault }
{
    match fault {
        AuditFault::Callback => Refusal::ReadFault(Input::Core),
        AuditFault::OutOfMemory => Refusal::OutOfMemory,
    }
}

/// What an audit answered, with its fault as it is handed on.
fn judged(audited: Result<Verdict, AuditFault>) -> Result<Verdict, Refusal>
    ensures { result ≡ judged audited }
{
    match audited {
        Ok(verdict) => Ok(verdict),
        Err(fault) => Err(refusal_of_audit(fault)),
    }
}

/// The question what the verdict on the words of a core is.
#[derive(Drop)]
struct VerdictWanted;

impl Question for VerdictWanted {
    ghost use Rattle.omi_top.specs.Audit.{IsJudged};

    type Answer = Verdict;

    ghost answers = { λ _ core verdict. IsJudged core verdict };

    fn ask<C: Callbacks + Drop, H: ToHost>(
        self,
        alloc: Global,
        calls: C,
        contexts: &Natives,
        order: u8,
        to_host: H,
    ) -> (Result<Verdict, Refusal>, C) {
        let mut session = match opened(alloc, calls, order, to_host) {
            Ok(session) => session,
            Err((refusal, calls)) => return (Err(refusal), calls),
        };
        has_valid_layout(&session);
        let verdict = judged(audit_words(&mut session, alloc));
        let table = session.rel_address_space_handle().finalize();
        (verdict, table.into_calls())
    }
}

/// What is printed.
#[tactic(auto, unfolding(omi_text::specs::Numbers::hexadecimal))]
fn audit_line(alloc: Global, verdict: Verdict) -> Result<String, AllocError>
    ensures { IfOk result (λ line. string_bytes line ≡ audit_line verdict) }
{
    match verdict {
        Verdict::Yes { records } => format!(in alloc; "audit ok records {records}\n"),
        Verdict::No {
            addr,
            field,
            clause,
        } => {
            let field = field_text(field);
            format!(in alloc; "audit no 0x{addr:x} {field} {clause}\n")
        }
    }
}

/// Reads a core, and answers the line on the verdict on its words.
pub fn audit<F: Files>(alloc: Global, core: &str, files: &mut F) -> Result<Vec<u8>, Refusal>
    ensures answer { (old : Told) → let command = Audit core.now in
        AreTold command (F.told files.old)
        → IsAnswered (verb_of command) (F.told files.old) result old old }
    ensures usage { result ≢ Err Refusal.Usage }
    ensures write { result ≢ Err Refusal.WriteFault }
    ensures script { IfErr result (λ r. status_of r ≢ Script) }
    ensures read { HasCause (F.reads files.old) (F.reads files.new)
        (IsErrAnd result IsReadFault) }
    ensures files_told { F.told files.new ≡ F.told files.old }
    ensures files_writes { F.writes files.new ≡ F.writes files.old }
{
    let verdict = ask_file(alloc, VerdictWanted, core, files)?;
    let line = audit_line(alloc, verdict)?;
    Ok(line.into_bytes())
}
