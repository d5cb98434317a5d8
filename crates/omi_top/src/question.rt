//! What a command asks of the words of a core, which are read page by page.

ghost use Rattle.std.specs.Prelude.{◌≡◌, ◌≤◌, IfErr, IsErrAnd, List, Option, Result, Some, length, ℕ};
ghost use Rattle.omi_calls.specs.Kept.{GivesNumbers, IsOrderOf, TakesAll};
ghost use Rattle.omi_calls.specs.Memory.{told_by};
ghost use Rattle.omi_corefile.specs.ByteOrder.{number_of};
ghost use Rattle.omi_corefile.specs.declared.core_image.CoreImage.{CoreImage};
ghost use Rattle.omi_outside.specs.Outside.{HasCause};
ghost use Rattle.omi_page.specs.Borrowed.{faults_counted, told_of};
ghost use Rattle.omi_page.specs.Lending.{IsLent};
ghost use Rattle.omi_top.specs.Questions.{ComesOfFile, IsAnswerOf, refusal_of_page};
ghost use Rattle.omi_commands.specs.Inquiries.{ComesOfWords};
ghost use Rattle.omi_frame.specs.Refusal.{IsReadFault};
ghost use Rattle.omi_frame.specs.declared.refusal.Refusal.{Refusal as Why};

use omi_calls::{Callbacks, ToHost};
use omi_corefile::number_of;
use omi_frame::{Input, Refusal};
use omi_outside::Files;
use omi_page::{LentPages, Loan, PageError, Pages, open};
use omi_word::Natives;
use std::alloc::Global;
use std::marker::Brand;

/// What a command asks of a core, by callbacks that tell its words.
pub trait Question: Drop {
    /// What is answered.
    type Answer: Drop;

    /// What the answer says of the core, or why there is none.
    ghost answers: { Self → CoreImage → Result Self.Answer Why → Type 0 };

    /// Asks it of the words that callbacks tell, by a conversion of the bytes of a word in their order, and hands the callbacks back.
    fn ask<C: Callbacks + Drop, H: ToHost>(
        self,
        alloc: Global,
        calls: C,
        contexts: &Natives,
        order: u8,
        to_host: H,
    ) -> (Result<Self::Answer, Refusal>, C)
        requires few { length contexts.now ≤ 64 }
        requires order { IsOrderOf (C.told calls) order }
        requires takes { TakesAll (H.takes to_host) }
        requires gives { GivesNumbers (H.gives to_host) order }
        ensures answered { (core : CoreImage) → C.told calls ≡ told_by core
            → contexts.now ≡ core.contexts → answers self core result.0 }
        ensures words { IfErr result.0 ComesOfWords }
        ensures cause { HasCause (C.faults calls) (C.faults result.1)
            (IsErrAnd result.0 IsReadFault) };
}

/// What the error of opening a core's file is handed on as.
fn refusal_of_page(error: PageError) -> Refusal
    ensures { result ≡ refusal_of_page error }
{
    match error {
        PageError::Fault { at, why } => Refusal::Core(at, why),
        PageError::Elf { at, why } => Refusal::Elf(at, why),
        PageError::NoFile => Refusal::NoFile(Input::Core),
        PageError::Failed => Refusal::ReadFault(Input::Core),
        PageError::OutOfMemory => Refusal::OutOfMemory,
    }
}

/// Asks it of the words that callbacks tell, in their order, and hands the callbacks back.
fn ask_calls<C: Callbacks + Drop, Q: Question>(
    alloc: Global,
    question: Q,
    calls: C,
    contexts: &Natives,
    order: u8,
) -> (Result<Q::Answer, Refusal>, C)
    requires few { length contexts.now ≤ 64 }
    requires order { IsOrderOf (C.told calls) order }
    ensures answered { (core : CoreImage) → C.told calls ≡ told_by core
        → contexts.now ≡ core.contexts → Q.answers question core result.0 }
    ensures words { IfErr result.0 ComesOfWords }
    ensures cause { HasCause (C.faults calls) (C.faults result.1)
        (IsErrAnd result.0 IsReadFault) }
{
    question.ask(
        alloc,
        calls,
        contexts,
        order,
        move |bytes: [u8; 8]| -> u64
            ensures { result ≡ number_of order bytes }
        { number_of(order, bytes) },
    )
}

/// Asks it of the words of a core that is read by pages, in the core's order, and hands the pages back, which borrow what they borrowed.
fn ask_pages<'a, F: Files, L: Loan, Q: Question>(
    alloc: Global,
    question: Q,
    pages: Pages<'a, F>,
    contexts: &Natives,
) -> (Result<Q::Answer, Refusal>, Pages<'a, F>)
    requires few { length contexts.now ≤ 64 }
    requires lent { IsLent L.lending pages }
    ensures lent { IsLent L.lending result.1 }
    ensures answered { (core : CoreImage) → told_of pages.entry ≡ told_by core
        → contexts.now ≡ core.contexts → Q.answers question core result.0 }
    ensures words { IfErr result.0 ComesOfWords }
    ensures cause { HasCause (faults_counted pages.entry) (faults_counted result.1)
        (IsErrAnd result.0 IsReadFault) }
{
    let order = pages.order();
    let lent: LentPages<'a, F, L> = LentPages::of(pages);
    let (answer, lent) = ask_calls(alloc, question, lent, contexts, order);
    (answer, lent.into_pages())
}

/// Asks it of the core in a file, a core file or an ELF core file, which is read page by page.
pub fn ask_file<F: Files, Q: Question>(
    alloc: Global,
    question: Q,
    core: &str,
    files: &mut F,
) -> Result<Q::Answer, Refusal>
    ensures answered { (content : Option (List ℕ)) → F.told files.old core.now ≡ Some content
        → IsAnswerOf (Q.answers question) content result }
    ensures comes { IfErr result ComesOfFile }
    ensures read { HasCause (F.reads files.old) (F.reads files.new)
        (IsErrAnd result IsReadFault) }
    ensures files_told { F.told files.new ≡ F.told files.old }
    ensures files_writes { F.writes files.new ≡ F.writes files.old }
{
    let opened = match open(alloc, files, core) {
        Ok(opened) => opened,
        Err(error) => return Err(refusal_of_page(error)),
    };
    let contexts = opened.contexts().same(alloc)?;
    let pages = Pages::of(files, core, opened);
    let (answer, pages) = ask_pages::<F, Brand, Q>(alloc, question, pages, &contexts);
    let _ = pages.into_files();
    answer
}
