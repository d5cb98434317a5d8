//! A tool that looks into a target, by the name of its core's file.

ghost use Rattle.std.specs.Prelude.{◌≡◌, List, ℕ, OnErr, OnOk, Option, Some, IfErr, IsErrOf, ⊤};
ghost use Rattle.omi_calls.specs.Kept.{GivesNumbers, TakesAll};
ghost use Rattle.omi_calls.specs.Memory.{told_by};
ghost use Rattle.omi_corefile.specs.ByteOrder.{number_of};
ghost use Rattle.omi_corefile.specs.declared.core_image.CoreImage.{CoreImage};
ghost use Rattle.omi_outside.specs.Outside.{HasCause};
ghost use Rattle.omi_page.specs.Borrowed.{faults_counted, order_of, told_of};
ghost use Rattle.omi_page.specs.Lending.{IsLent};
ghost use Rattle.omi.specs.Opened.{IsNotOpened, IsUnopened};
ghost use Rattle.omi.specs.Targets.{HasLooked, HasLookedAt, Target};

use crate::fault::OpenError;
use crate::lending::{open_file, pages_back, session_on};
use omi_calls::{Callbacks, ToHost};
use omi_corefile::number_of;
use omi_outside::Files;
use omi_page::{Loan, Pages};
use omi_session::Session;
use omi_word::Natives;
use std::alloc::Global;
use std::marker::Brand;

/// What a tool does with a target.
pub trait Tool {
    /// What its look into a target may make of it. A tool may leave this out, and then says nothing.
    ghost looks: { Self → Target → Self → Type 0 } = { λ _ _ _. ⊤ };

    /// Asks the session what it wants to know. The threads are the native ids that the core names.
    fn look<C: Callbacks + Drop, H: ToHost>(
        &mut self,
        session: &mut Session<C, H>,
        threads: &Natives,
    )
        ensures { looks self.old
            (record {
              told = C.told session.old.table.calls;
              layout = session.old.layout;
              threads = threads.now;
            })
            self.new };
}

/// Has a tool look into a core by its pages, which are lent for this and come back, by a conversion of the bytes of a word in their order.
fn look_by<'a, F: Files, L: Loan, H: ToHost, T: Tool>(
    alloc: Global,
    pages: Pages<'a, F>,
    threads: &Natives,
    to_host: H,
    tool: &mut T,
) -> (Result<(), OpenError>, Pages<'a, F>)
    requires lent { IsLent L.lending pages }
    requires takes { TakesAll (H.takes to_host) }
    requires gives { GivesNumbers (H.gives to_host) (order_of pages) }
    ensures looked { OnOk result.0
        (HasLookedAt (told_of pages.entry) threads.now T.looks tool.old tool.new) }
    ensures kept { OnErr result.0 (tool.new ≡ tool.old) }
    ensures refused { (core : CoreImage) → told_of pages.entry ≡ told_by core
        → IfErr result.0 (IsUnopened core) }
    ensures lent { IsLent L.lending result.1 }
    ensures cause { IfErr result.0 (λ e. HasCause (faults_counted pages.entry)
        (faults_counted result.1) (e ≡ OpenError.NotRead)) }
{
    match session_on::<F, L, H>(alloc, pages, to_host) {
        Ok(mut session) => {
            tool.look(&mut session, threads);
            (Ok(()), pages_back(session))
        }
        Err(back) => {
            let (error, pages) = back;
            (Err(error), pages)
        }
    }
}

/// Has a tool look into a core by its pages, which are lent for this and come back.
fn look_on<'a, F: Files, L: Loan, T: Tool>(
    alloc: Global,
    pages: Pages<'a, F>,
    threads: &Natives,
    tool: &mut T,
) -> (Result<(), OpenError>, Pages<'a, F>)
    requires lent { IsLent L.lending pages }
    ensures looked { OnOk result.0
        (HasLookedAt (told_of pages.entry) threads.now T.looks tool.old tool.new) }
    ensures kept { OnErr result.0 (tool.new ≡ tool.old) }
    ensures refused { (core : CoreImage) → told_of pages.entry ≡ told_by core
        → IfErr result.0 (IsUnopened core) }
    ensures lent { IsLent L.lending result.1 }
    ensures cause { IfErr result.0 (λ e. HasCause (faults_counted pages.entry)
        (faults_counted result.1) (e ≡ OpenError.NotRead)) }
{
    let order = pages.order();
    look_by::<F, L, _, T>(
        alloc,
        pages,
        threads,
        move |bytes: [u8; 8]| -> u64
            ensures { result ≡ number_of order bytes }
        { number_of(order, bytes) },
        tool,
    )
}

/// Opens the core in a file, a core file or an ELF core file, which is read page by page, and has a tool look into the target whose words
/// it holds.
pub fn look_into<F: Files, T: Tool>(
    alloc: Global,
    files: &mut F,
    name: &str,
    tool: &mut T,
) -> Result<(), OpenError>
    ensures looked { OnOk result
        (HasLooked (F.told files.old name.now) T.looks tool.old tool.new) }
    ensures kept { OnErr result (tool.new ≡ tool.old) }
    ensures refused { (content : Option (List ℕ)) → F.told files.old name.now ≡ Some content
        → IfErr result (IsNotOpened content) }
    ensures cause { HasCause (F.reads files.old) (F.reads files.new)
        (IsErrOf result OpenError.NotRead) }
    ensures same { F.told files.new ≡ F.told files.old }
    ensures writes { F.writes files.new ≡ F.writes files.old }
{
    let (opened, threads) = open_file(alloc, files, name)?;
    let pages = Pages::of(files, name, opened);
    let (looked, pages) = look_on::<F, Brand, T>(alloc, pages, &threads, tool);
    let _ = pages.into_files();
    looked
}
