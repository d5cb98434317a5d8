//! The command `show`.

ghost use Rattle.std.specs.Prelude.{◌≡◌, ◌≢◌, ◌≤◌, IfErr, IsErrAnd, length};
ghost use Rattle.omi_outside.specs.Outside.{HasCause, Told};
ghost use Rattle.omi_outside.specs.declared.status.Status.TheVariants.{Script};
ghost use Rattle.omi_frame.specs.Left.{IsAnswered};
ghost use Rattle.omi_top.specs.Command.{Show};
ghost use Rattle.omi_top.specs.CommandVerbs.{AreTold, verb_of};
ghost use Rattle.omi_top.specs.Shown.{handed_on};
ghost use Rattle.omi_frame.specs.Refusal.{IsReadFault, status_of};

use crate::opened::{has_valid_layout, opened};
use crate::question::{Question, ask_file};
use omi_calls::{Callbacks, ToHost};
use omi_commands::refusal_of_walk;
use omi_frame::Refusal;
use omi_model::View;
use omi_outside::Files;
use omi_text::report_text;
use omi_walk::{WalkFault, walk};
use omi_word::Natives;
use std::alloc::Global;

/// What a walk answered, with its fault as it is handed on.
fn handed_on(walked: Result<View, WalkFault>) -> Result<View, Refusal>
    ensures { result ≡ handed_on walked }
{
    match walked {
        Ok(view) => Ok(view),
        Err(fault) => Err(refusal_of_walk(fault)),
    }
}

/// The question what the report of a core is.
#[derive(Drop)]
struct ReportWanted;

impl Question for ReportWanted {
    ghost use Rattle.omi_top.specs.Shown.{IsViewed};

    type Answer = View;

    ghost answers = { λ _ core view. IsViewed core view };

    fn ask<C: Callbacks + Drop, H: ToHost>(
        self,
        alloc: Global,
        calls: C,
        contexts: &Natives,
        order: u8,
        to_host: H,
    ) -> (Result<View, Refusal>, C) {
        let mut session = match opened(alloc, calls, order, to_host) {
            Ok(session) => session,
            Err((refusal, calls)) => return (Err(refusal), calls),
        };
        has_valid_layout(&session);
        let view = handed_on(walk(&mut session, alloc, contexts));
        let table = session.rel_address_space_handle().finalize();
        (view, table.into_calls())
    }
}

/// Reads a core, and answers its report.
pub fn show<F: Files>(alloc: Global, core: &str, files: &mut F) -> Result<Vec<u8>, Refusal>
    ensures answer { (old : Told) → let command = Show core.now in
        AreTold command (F.told files.old)
        → IsAnswered (verb_of command) (F.told files.old) result old old }
    ensures usage { result ≢ Err Refusal.Usage }
    ensures write { result ≢ Err Refusal.WriteFault }
    ensures script { IfErr result (λ r. status_of r ≢ Script) }
    ensures read { HasCause (F.reads files.old) (F.reads files.new)
        (IsErrAnd result IsReadFault) }
    ensures files_told { F.told files.new ≡ F.told files.old }
    ensures files_writes { F.writes files.new ≡ F.writes files.old }
{
    let view = ask_file(alloc, ReportWanted, core, files)?;
    let text = report_text(alloc, &view)?;
    Ok(text)
}
