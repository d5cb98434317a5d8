//! The file of a core that was opened: what stands in it beside its words, and room for pages.

ghost use Rattle.std.specs.Prelude.{◌≡◌, ◌≤◌, List, ℕ, Some, None, IfOk, OnOk, IsOk, IfErr, IsErrOf, Err, length, vec_len, []};
ghost use Rattle.omi_outside.specs.Outside.{HasCause};
ghost use Rattle.omi_corefile.specs.declared.core_image.CoreImage.{CoreImage};
ghost use Rattle.omi_corefile.specs.declared.limits.TheConstants.{MOST_CONTEXTS};
ghost use Rattle.omi_page.specs.declared.limits.TheConstants.{MOST_PAGES, PAGE_BYTES};
ghost use Rattle.omi_page.specs.CoreFiles.{IsFault, IsFileOf, StandsForCore};
ghost use Rattle.omi_page.specs.Outcomes.{IsFaultOf, UnlessFree};
ghost use Rattle.omi_page.specs.declared.fault.PageError.{PageError};
ghost use Rattle.omi_read.specs.Holding.{Holds};
ghost use Rattle.omi_page.specs.Paging.{IsOpened};

use crate::contents::Contents;
use crate::formats::read_contents;
use crate::keeping::Kept;
use crate::{MOST_PAGES, PAGE_BYTES, PageError};
use lru::LruCache;
use omi_list::OutOfMemory;
use omi_outside::Files;
use omi_word::Natives;
use std::alloc::Global;
use std::num::NonZeroUsize;

/// The file of a core that was opened. All memory that its pages need is taken, but for the pages that are kept.
#[derive(Drop)]
pub struct Opened {
    pub alloc: Global,
    pub contents: Contents,
    pub kept: Kept,
    pub buffer: Vec<u8>,
    pub ghost room: { vec_len buffer ≡ PAGE_BYTES },
    pub ghost none: { kept.entries ≡ [] },
    pub ghost places: { kept.cap ≡ MOST_PAGES },
}

impl Opened {
    /// The native ids of the core's threads, which rise.
    pub fn contexts(&self) -> &Natives
        ensures contexts { result.now ≡ self.now.contents.contexts }
        ensures few { length result.now ≤ MOST_CONTEXTS }
    {
        &self.contents.contexts
    }
}

/// Room for the pages that are kept.
fn no_pages(alloc: Global) -> Result<Kept, OutOfMemory>
    ensures none { IfOk result (λ kept. kept.entries ≡ []) }
    ensures places { IfOk result (λ kept. kept.cap ≡ MOST_PAGES) }
{
    let most = NonZeroUsize::new(MOST_PAGES).unwrap();
    LruCache::sparse(alloc, most)
}

/// Opens the file of a core, an ELF core file where it begins with the four bytes of every ELF file, and else a core file. It reads what stands
/// in it beside its words, and no word.
pub fn open<F: Files>(alloc: Global, files: &mut F, name: &str) -> Result<Opened, PageError>
    // What is answered of a file that is a core, of one that isn't, and of one that isn't there.
    ensures accepts { (bytes : List ℕ) (c : CoreImage) → Holds (F.told files.old name.now) bytes
        → IsFileOf bytes c → UnlessFree result (IsOk result) }
    ensures contexts { (bytes : List ℕ) (c : CoreImage)
        → Holds (F.told files.old name.now) bytes → IsFileOf bytes c
        → IfOk result (λ opened. opened.contents.contexts ≡ c.contexts) }
    ensures order { (bytes : List ℕ) (c : CoreImage)
        → Holds (F.told files.old name.now) bytes → IsFileOf bytes c
        → IfOk result (λ opened. opened.contents.order ≡ c.order) }
    ensures fault { (bytes : List ℕ) → Holds (F.told files.old name.now) bytes
        → IfErr result (IsFaultOf bytes) }
    ensures refuses { (bytes : List ℕ) (error : PageError)
        → Holds (F.told files.old name.now) bytes → IsFault bytes error
        → UnlessFree result (result ≡ Err error) }
    ensures missing { F.told files.old name.now ≡ Some None
        → UnlessFree result (result ≡ Err PageError.NoFile) }
    ensures core { (bytes : List ℕ) → Holds (F.told files.old name.now) bytes
        → OnOk result (StandsForCore bytes) }
    ensures opened { IfOk result (λ opened. IsOpened (F.told files.new name.now) opened.contents) }

    // No bytes change. A fault is counted as one of reading.
    ensures same { F.told files.new ≡ F.told files.old }
    ensures cause { HasCause (F.reads files.old) (F.reads files.new)
        (IsErrOf result PageError.Failed) }
    ensures writes { F.writes files.new ≡ F.writes files.old }
{
    let contents = read_contents(alloc, files, name)?;
    let kept = no_pages(alloc)?;
    let buffer = vec![in alloc; 0u8; PAGE_BYTES]?;
    Ok(Opened {
        alloc,
        contents,
        kept,
        buffer,
    })
}
