//! The command `follow`.

ghost use Rattle.std.specs.Prelude.{◌≡◌, ◌≢◌, IfErr, IsErrAnd};
ghost use Rattle.omi_outside.specs.Outside.{HasCause, Told};
ghost use Rattle.omi_outside.specs.declared.status.Status.TheVariants.{Script};
ghost use Rattle.omi_frame.specs.Left.{IsAnswered};
ghost use Rattle.omi_top.specs.Command.{Follow};
ghost use Rattle.omi_top.specs.CommandVerbs.{AreTold, verb_of};
ghost use Rattle.omi_top.specs.Follow.{kept_in, of_later};
ghost use Rattle.omi_frame.specs.Refusal.{IsReadFault, status_of};

use crate::opened::{has_valid_layout, opened};
use crate::question::{Question, ask_file};
use omi_calls::{Callbacks, Table, ToHost};
use omi_commands::{KeptTasks, fates, refusal_of_code, refusal_of_walk};
use omi_frame::{Input, Refusal};
use omi_outside::Files;
use omi_session::Parted;
use omi_walk::{KeptList, WalkFault, kept};
use omi_word::Natives;
use std::alloc::Global;

/// What is kept of a session in which these tasks were found, with the fault of the walk as it is handed on.
fn kept_in(parted: Parted, tasks: Result<KeptList, WalkFault>) -> Result<KeptTasks, Refusal>
    ensures { result ≡ kept_in parted tasks }
{
    match tasks {
        Ok(tasks) => Ok(KeptTasks { parted, tasks }),
        Err(fault) => Err(refusal_of_walk(fault)),
    }
}

/// The question which tasks the report of a core has. A handle of each is kept.
#[derive(Drop)]
struct TasksWanted;

impl Question for TasksWanted {
    ghost use Rattle.omi_top.specs.Follow.{IsKept};

    type Answer = KeptTasks;

    ghost answers = { λ _ core kept. IsKept core kept };

    fn ask<C: Callbacks + Drop, H: ToHost>(
        self,
        alloc: Global,
        calls: C,
        contexts: &Natives,
        order: u8,
        to_host: H,
    ) -> (Result<KeptTasks, Refusal>, C) {
        let mut session = match opened(alloc, calls, order, to_host) {
            Ok(session) => session,
            Err((refusal, calls)) => return (Err(refusal), calls),
        };
        has_valid_layout(&session);
        let tasks = kept(&mut session, alloc, contexts);
        let (parted, table) = session.part();
        (kept_in(parted, tasks), table.into_calls())
    }
}

/// The question what became of the tasks of an earlier core.
#[derive(Drop)]
struct FatesWanted {
    kept: KeptTasks,
}

impl Question for FatesWanted {
    ghost use Rattle.omi_top.specs.Follow.{AreFates};

    type Answer = String;

    ghost answers = { λ wanted core text. AreFates wanted.kept core text };

    fn ask<C: Callbacks + Drop, H: ToHost>(
        self,
        alloc: Global,
        calls: C,
        contexts: &Natives,
        order: u8,
        to_host: H,
    ) -> (Result<String, Refusal>, C) {
        let KeptTasks { parted, tasks } = self.kept;
        let mut session = match parted.over(Table::new(calls, order, to_host)) {
            Ok(session) => session,
            Err((rc, _, table)) => return (Err(refusal_of_code(rc)), table.into_calls()),
        };
        let text = fates(&mut session, alloc, &tasks);
        let table = session.rel_address_space_handle().finalize();
        (text, table.into_calls())
    }
}

/// A refusal of the core that is read as one of the later core.
fn of_later(refusal: Refusal) -> Refusal
    ensures { result ≡ of_later refusal }
{
    match refusal {
        Refusal::NoFile(Input::Core) => Refusal::NoFile(Input::Later),
        Refusal::ReadFault(Input::Core) => Refusal::ReadFault(Input::Later),
        other => other,
    }
}

/// Reads a core and a later one of the same target, and answers what became of each task of the first one's report.
pub fn follow<F: Files>(
    alloc: Global,
    core: &str,
    later: &str,
    files: &mut F,
) -> Result<Vec<u8>, Refusal>
    ensures answer { (old : Told) → let command = Follow core.now later.now in
        AreTold command (F.told files.old)
        → IsAnswered (verb_of command) (F.told files.old) result old old }
    ensures usage { result ≢ Err Refusal.Usage }
    ensures write { result ≢ Err Refusal.WriteFault }
    ensures script { IfErr result (λ r. status_of r ≢ Script) }
    ensures read { HasCause (F.reads files.old) (F.reads files.new)
        (IsErrAnd result IsReadFault) }
    ensures files_told { F.told files.new ≡ F.told files.old }
    ensures files_writes { F.writes files.new ≡ F.writes files.old }
{
    let kept = ask_file(alloc, TasksWanted, core, files)?;
    match ask_file(alloc, FatesWanted { kept }, later, files) {
        Ok(text) => Ok(text.into_bytes()),
        Err(refusal) => Err(of_later(refusal)),
    }
}
