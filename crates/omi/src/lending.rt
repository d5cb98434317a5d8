//! What is done with the file of a core between its opening and a session: it is opened, and its pages are lent to a session.

ghost use Rattle.std.specs.Prelude.{◌≡◌, List, ℕ, IfErr, IfOk, IsErrOf, Option, Some};
ghost use Rattle.omi_calls.specs.Kept.{GivesNumbers, TakesAll};
ghost use Rattle.omi_calls.specs.Memory.{told_by};
ghost use Rattle.omi_corefile.specs.ByteOrder.{number_of};
ghost use Rattle.omi_corefile.specs.declared.core_image.CoreImage.{CoreImage};
ghost use Rattle.omi_layout.specs.Given.{GivesLayout};
ghost use Rattle.omi_outside.specs.Outside.{HasCause};
ghost use Rattle.omi_page.specs.Borrowed.{faults_counted, order_of, told_of};
ghost use Rattle.omi_page.specs.Lending.{IsLent};
ghost use Rattle.omi_page.specs.Paging.{IsOpened};
ghost use Rattle.omi_page.specs.Told.{told_by_file};
ghost use Rattle.omi.specs.Opened.{IsNotOpened, IsUnopened, words_of_core};
ghost use Rattle.omi.specs.Targets.{TellsCore};

use crate::fault::{OpenError, not_opened};
use crate::session::session_of;
use omi_calls::ToHost;
use omi_corefile::number_of;
use omi_layout::Layout;
use omi_outside::Files;
use omi_page::{LentPages, Loan, Opened, Pages, open};
use omi_session::Session;
use omi_word::Natives;
use std::alloc::Global;

/// Opens the file of a core, with the native ids of the threads that it names. No word is read.
pub fn open_file<F: Files>(
    alloc: Global,
    files: &mut F,
    name: &str,
) -> Result<(Opened, Natives), OpenError>
    ensures core { (content : Option (List ℕ)) → F.told files.old name.now ≡ Some content
        → IfOk result (λ o. TellsCore content (told_by_file (F.told files.new name.now)) o.1) }
    ensures opened { IfOk result (λ o. IsOpened (F.told files.new name.now) o.0.contents) }
    ensures refused { (content : Option (List ℕ)) → F.told files.old name.now ≡ Some content
        → IfErr result (IsNotOpened content) }
    ensures cause { HasCause (F.reads files.old) (F.reads files.new)
        (IsErrOf result OpenError.NotRead) }
    ensures same { F.told files.new ≡ F.told files.old }
    ensures writes { F.writes files.new ≡ F.writes files.old }
{
    let opened = open(alloc, files, name)?;
    let threads = opened.contexts().same(alloc)?;
    Ok((opened, threads))
}

/// A session over pages that are lent, by a conversion of the bytes of a word in their order. A refusal hands the pages back.
pub fn session_on<'a, F: Files, L: Loan, H: ToHost>(
    alloc: Global,
    pages: Pages<'a, F>,
    to_host: H,
) -> Result<Session<LentPages<'a, F, L>, H>, (OpenError, Pages<'a, F>)>
    requires lent { IsLent L.lending pages }
    requires takes { TakesAll (H.takes to_host) }
    requires gives { GivesNumbers (H.gives to_host) (order_of pages) }
    ensures layout { (core : CoreImage) → told_of pages.entry ≡ told_by core
        → IfOk result (λ s. GivesLayout (words_of_core core) s.layout) }
    ensures told { IfOk result (λ s. told_of s.table.calls.pages ≡ told_of pages.entry) }
    ensures refused { (core : CoreImage) → told_of pages.entry ≡ told_by core
        → IfErr result (λ back. IsUnopened core back.0) }
    ensures back { IfErr result (λ back. IsLent L.lending back.1) }
    ensures cause { IfErr result (λ back. HasCause (faults_counted pages.entry)
        (faults_counted back.1) (back.0 ≡ OpenError.NotRead)) }
{
    let order = pages.order();
    let lent: LentPages<'a, F, L> = LentPages::of(pages);
    match session_of(alloc, lent, order, to_host) {
        Ok(session) => Ok(session),
        Err(back) => {
            let (rc, lent) = back;
            Err((not_opened(rc), lent.into_pages()))
        }
    }
}

/// The pages that were lent to a session, which ends.
pub fn pages_back<'a, F: Files, L: Loan, H: ToHost>(
    session: Session<LentPages<'a, F, L>, H>,
) -> Pages<'a, F>
    ensures pages { result ≡ session.entry.table.calls.pages }
    ensures lent { IsLent L.lending result }
{
    let lent = session.rel_address_space_handle().finalize().into_calls();
    lent.into_pages()
}

/// The layout that the words of pages publish, which are lent for this and come back, by a conversion of the bytes of a word in their order.
fn layout_by<'a, F: Files, L: Loan, H: ToHost>(
    alloc: Global,
    pages: Pages<'a, F>,
    to_host: H,
) -> Result<(Layout, Pages<'a, F>), (OpenError, Pages<'a, F>)>
    requires lent { IsLent L.lending pages }
    requires takes { TakesAll (H.takes to_host) }
    requires gives { GivesNumbers (H.gives to_host) (order_of pages) }
    ensures layout { (core : CoreImage) → told_of pages.entry ≡ told_by core
        → IfOk result (λ found. GivesLayout (words_of_core core) found.0.table) }
    ensures told { IfOk result (λ found. told_of found.1 ≡ told_of pages.entry) }
    ensures refused { (core : CoreImage) → told_of pages.entry ≡ told_by core
        → IfErr result (λ back. IsUnopened core back.0) }
    ensures lent { IfOk result (λ found. IsLent L.lending found.1) }
    ensures back { IfErr result (λ back. IsLent L.lending back.1) }
    ensures cause { IfErr result (λ back. HasCause (faults_counted pages.entry)
        (faults_counted back.1) (back.0 ≡ OpenError.NotRead)) }
{
    match session_on::<F, L, H>(alloc, pages, to_host) {
        Ok(session) => {
            let layout = *session.layout();
            Ok((layout, pages_back(session)))
        }
        Err(back) => Err(back),
    }
}

/// The layout that the words of pages publish, which are lent for this and come back.
pub fn layout_on<'a, F: Files, L: Loan>(
    alloc: Global,
    pages: Pages<'a, F>,
) -> Result<(Layout, Pages<'a, F>), (OpenError, Pages<'a, F>)>
    requires lent { IsLent L.lending pages }
    ensures layout { (core : CoreImage) → told_of pages.entry ≡ told_by core
        → IfOk result (λ found. GivesLayout (words_of_core core) found.0.table) }
    ensures told { IfOk result (λ found. told_of found.1 ≡ told_of pages.entry) }
    ensures refused { (core : CoreImage) → told_of pages.entry ≡ told_by core
        → IfErr result (λ back. IsUnopened core back.0) }
    ensures lent { IfOk result (λ found. IsLent L.lending found.1) }
    ensures back { IfErr result (λ back. IsLent L.lending back.1) }
    ensures cause { IfErr result (λ back. HasCause (faults_counted pages.entry)
        (faults_counted back.1) (back.0 ≡ OpenError.NotRead)) }
{
    let order = pages.order();
    layout_by::<F, L, _>(
        alloc,
        pages,
        move |bytes: [u8; 8]| -> u64
            ensures { result ≡ number_of order bytes }
        { number_of(order, bytes) },
    )
}
