//! What the commands share that write a copy of a core.

ghost use Rattle.std.specs.Prelude.{◌≡◌, ◌≢◌, ◌⊎◌, false, List, ℕ, Option, Some, IfOk, IfErr, IsErrAnd, string_bytes};
ghost use Rattle.omi_corefile.specs.Spelling.{Core};
ghost use Rattle.omi_outside.specs.Outside.{HasCause};
ghost use Rattle.omi_frame.specs.Concluded.{Performed};
ghost use Rattle.omi_top.specs.Apart.{KeptApart};
ghost use Rattle.omi_top.specs.verbs.Copy.{copy_verb};
ghost use Rattle.omi_top.specs.Copy.{IsOfCoreFile};
ghost use Rattle.omi_top.specs.Files.{Holds};
ghost use Rattle.omi_top.specs.Questions.{IsCoreRefusal};
ghost use Rattle.omi_frame.specs.Refusal.{IsReadFault, IsUnread};
ghost use Rattle.omi_frame.specs.Seen.{files_seen};

use crate::limits::CORE_FRONT;
use omi_corefile::{CoreImage, decode};
use omi_frame::{Input, Refusal, load};
use omi_outside::{Files, write_whole};
use std::alloc::{AllocError, Global};

/// The bytes of a copy, and what is printed of it.
#[derive(Drop)]
pub struct Copied {
    pub bytes: Vec<u8>,
    pub line: String,
}

/// How a command copies a core.
pub trait Copying: Drop {
    /// Of the file of a core these are the bytes of the copy and the line.
    ghost copies: { Self → List ℕ → List ℕ → List ℕ → Type 0 };

    /// The copy of a core.
    fn copied(self, alloc: Global, core: CoreImage) -> Result<Copied, AllocError>
        ensures { (bytes : List ℕ) → Core bytes core → IfOk result
            (λ made. copies self bytes made.bytes.items (string_bytes made.line)) };
}

/// The core in a file of the format of core files, which is read whole.
fn core_in<F: Files>(alloc: Global, core: &str, files: &mut F) -> Result<CoreImage, Refusal>
    ensures core { (content : Option (List ℕ)) → F.told files.old core.now ≡ Some content
        → IfOk result (Holds false content) }
    ensures refused { (content : Option (List ℕ)) → F.told files.old core.now ≡ Some content
        → IfErr result (λ r. IsCoreRefusal content r ⊎ IsUnread Input.Core r) }
    ensures kind { IfErr result IsOfCoreFile }
    ensures cause { HasCause (F.reads files.old) (F.reads files.new)
        (IsErrAnd result IsReadFault) }
    ensures same { F.told files.new ≡ F.told files.old }
    ensures writes { F.writes files.new ≡ F.writes files.old }
{
    let bytes = load(alloc, Input::Core, core, CORE_FRONT, files)?;
    let core = decode(alloc, &bytes)?;
    Ok(core)
}

/// Reads a core, writes a copy of it, and answers what is printed.
pub fn write_copy<F: Files, W: Files, C: Copying>(
    alloc: Global,
    copying: C,
    core: &str,
    copy: &str,
    files: &mut F,
    dest: &mut W,
) -> Result<Vec<u8>, Refusal>
    ensures performed { Performed (copy_verb (C.copies copying) core.now copy.now) result
        (files_seen (F.told files.old) (F.reads files.old) (F.writes files.old))
        (files_seen (F.told files.new) (F.reads files.new) (F.writes files.new))
        (files_seen (W.told dest.old) (W.reads dest.old) (W.writes dest.old))
        (files_seen (W.told dest.new) (W.reads dest.new) (W.writes dest.new)) }
    ensures apart { KeptApart
        (files_seen (F.told files.old) (F.reads files.old) (F.writes files.old))
        (files_seen (F.told files.new) (F.reads files.new) (F.writes files.new))
        (files_seen (W.told dest.old) (W.reads dest.old) (W.writes dest.old))
        (files_seen (W.told dest.new) (W.reads dest.new) (W.writes dest.new)) }
{
    let image = core_in(alloc, core, files)?;
    let made = copying.copied(alloc, image)?;
    write_whole(dest, copy, &made.bytes)?;
    Ok(made.line.into_bytes())
}
