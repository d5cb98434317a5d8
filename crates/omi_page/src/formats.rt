//! Which of two formats the file of a core has, and what stands in it beside its words.

ghost use Rattle.std.specs.Prelude.{◌≡◌, List, ℕ, IfOk, IfErr, OnOk, IsErrOf, Some, None, Err};
ghost use Rattle.omi_outside.specs.Outside.{AreBytes, HasCause};
ghost use Rattle.omi_elf.specs.Header.{begins_as_elf};
ghost use Rattle.omi_read.specs.Holding.{IsLength, Holds};
ghost use Rattle.omi_page.specs.Bounds.{EndWithin};
ghost use Rattle.omi_page.specs.Outcomes.{IsFaultOf, UnlessFree, UnlessFreeError};
ghost use Rattle.omi_page.specs.Paging.{IsContentsOf};

use crate::PageError;
use crate::contents::Contents;
use crate::elf::read_elf_core;
use crate::limits::MAGIC_BYTES;
use crate::opening::read_core;
use omi_elf::begins_as_elf;
use omi_outside::Files;
use omi_read::front;
use std::alloc::Global;

/// The length of a file.
fn len_of<F: Files>(files: &mut F, name: &str) -> Result<u64, PageError>
    ensures len { IfOk result (IsLength (F.told files.old name.now)) }
    ensures there { F.told files.old name.now ≡ Some None
        → UnlessFree result (result ≡ Err PageError.NoFile) }
    ensures free { (bytes : List ℕ) → Holds (F.told files.old name.now) bytes
        → IfErr result (λ error. UnlessFreeError error ⊥) }
    ensures are_bytes { (bytes : List ℕ) → Holds (F.told files.old name.now) bytes
        → OnOk result (AreBytes bytes) }

    // No bytes change. A fault is counted as one of reading.
    ensures same { F.told files.new ≡ F.told files.old }
    ensures cause { HasCause (F.reads files.old) (F.reads files.new)
        (IsErrOf result PageError.Failed) }
    ensures writes { F.writes files.new ≡ F.writes files.old }
{
    match files.size(name)? {
        Some(len) => Ok(len),
        None => Err(PageError::NoFile),
    }
}

/// Whether a file of `len` bytes begins as every ELF file does.
fn is_elf<F: Files>(files: &mut F, name: &str, len: u64) -> Result<bool, PageError>
    requires len { IsLength (F.told files.old name.now) len }
    ensures begins { (bytes : List ℕ) → Holds (F.told files.old name.now) bytes
        → IfOk result (λ elf. elf ≡ begins_as_elf bytes) }
    ensures failed { IfErr result (λ error. error ≡ PageError.Failed) }

    // No bytes change. A fault is counted as one of reading.
    ensures same { F.told files.new ≡ F.told files.old }
    ensures cause { HasCause (F.reads files.old) (F.reads files.new)
        (IsErrOf result PageError.Failed) }
    ensures writes { F.writes files.new ≡ F.writes files.old }
{
    let mut piece = [0u8; MAGIC_BYTES];
    let count = front(files, name, len, 0, MAGIC_BYTES, &mut piece)?;
    Ok(begins_as_elf(&piece[..count]))
}

/// What stands in the file of a core beside its words. No word is read.
pub fn read_contents<F: Files>(
    alloc: Global,
    files: &mut F,
    name: &str,
) -> Result<Contents, PageError>
    ensures contents { (bytes : List ℕ) → Holds (F.told files.old name.now) bytes
        → IfOk result (IsContentsOf bytes) }
    ensures fault { (bytes : List ℕ) → Holds (F.told files.old name.now) bytes
        → IfErr result (IsFaultOf bytes) }
    ensures missing { F.told files.old name.now ≡ Some None
        → UnlessFree result (result ≡ Err PageError.NoFile) }
    ensures len { IfOk result (λ x. IsLength (F.told files.old name.now) x.len) }
    ensures ends { IfOk result (λ x. EndWithin x.len x.spans) }

    // No bytes change. A fault is counted as one of reading.
    ensures same { F.told files.new ≡ F.told files.old }
    ensures cause { HasCause (F.reads files.old) (F.reads files.new)
        (IsErrOf result PageError.Failed) }
    ensures writes { F.writes files.new ≡ F.writes files.old }
{
    let len = len_of(files, name)?;
    let elf = is_elf(files, name, len)?;
    if elf {
        read_elf_core(alloc, files, name, len)
    } else {
        read_core(alloc, files, name, len)
    }
}
