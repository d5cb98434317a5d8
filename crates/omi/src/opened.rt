//! From the name of a core's file to a session with the target.

ghost use Rattle.std.specs.Prelude.{◌≡◌, ◌≤◌, List, ℕ, OnErr, Option, Some, IfOk, IfErr, IsErrOf};
ghost use Rattle.omi_calls.specs.Kept.{GivesNumbers, TakesAll};
ghost use Rattle.omi_page.specs.Borrowed.{faults_counted, files_of};
ghost use Rattle.omi_page.specs.Left.{LeavesFiles};
ghost use Rattle.omi.specs.Opened.{IsNotOpened, IsOpened};

use crate::fault::OpenError;
use crate::lending::{layout_on, open_file};
use crate::lowest_first::LowestFirst;
use crate::target::OpenCore;
use omi_calls::{Table, ToHost};
use omi_outside::Files;
use omi_page::Pages;
use omi_session::Session;
use std::alloc::Global;
use std::marker::Brand;

/// Opens the core in a file, a core file or an ELF core file, which is read page by page, and a session with the target whose words it
/// holds. `to_host` makes a number of a word's bytes, the lowest of which comes first, whatever the order of the core is.
pub fn open_core<'a, F: Files, H: ToHost>(
    alloc: Global,
    files: &'a mut F,
    name: &'a str,
    to_host: H,
) -> Result<OpenCore<'a, F, H>, OpenError>
    requires takes { TakesAll (H.takes to_host) }
    requires gives { GivesNumbers (H.gives to_host) 0 }
    ensures opened { (content : Option (List ℕ)) → F.told files.old name.now ≡ Some content
        → IfOk result (IsOpened content) }
    ensures refused { (content : Option (List ℕ)) → F.told files.old name.now ≡ Some content
        → IfErr result (IsNotOpened content) }

    // The session borrows the files, of which no bytes changed.
    ensures reference { IfOk result (λ o. (files_of o.session.table.calls.pages).ghost_name
        ≡ files.entry.ghost_name) }
    ensures same { IfOk result (λ o. F.told (files_of o.session.table.calls.pages).now
        ≡ F.told files.old) }
    ensures writes { IfOk result (λ o. F.writes (files_of o.session.table.calls.pages).now
        ≡ F.writes files.old) }
    ensures later { IfOk result (λ o. F.reads files.old
        ≤ faults_counted o.session.table.calls.pages) }

    // A refusal leaves files that tell the same, of which no write failed, and NotRead comes only where their count of reads rose.
    ensures cause { OnErr result (LeavesFiles F.told F.reads F.writes files.old
        (IsErrOf result OpenError.NotRead)) }
{
    let (opened, threads) = open_file(alloc, files, name)?;
    let pages = Pages::of(files, name, opened);
    let (layout, pages) = match layout_on::<F, Brand>(alloc, pages) {
        Ok(found) => found,
        Err(back) => return Err(back.0),
    };
    let table = Table::new(LowestFirst { pages }, 0, to_host);
    Ok(OpenCore {
        session: Session::in_layout(alloc, table, layout),
        threads,
    })
}
