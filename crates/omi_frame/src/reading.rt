//! Reading a file that a command reads.

ghost use Rattle.std.specs.Prelude.{◌≡◌, ◌⊎◌, List, ℕ, Option, Some, None, IfOk, IfErr, IsErrAnd, take};
ghost use Rattle.omi_outside.specs.Outside.{HasCause};
ghost use Rattle.omi_frame.specs.Refusal.{IsReadFault, IsUnread};

use crate::refusal::{Input, Refusal};
use omi_outside::{Files, ReadError, read_whole};
use std::alloc::Global;

/// The first `most` bytes of a file that a command reads, or all of them where it has fewer. A refusal says what the file is read as.
pub fn load<F: Files>(
    alloc: Global,
    input: Input,
    name: &str,
    most: u64,
    files: &mut F,
) -> Result<Vec<u8>, Refusal>
    ensures bytes { (content : Option (List ℕ)) → F.told files.old name.now ≡ Some content
        → IfOk result (λ whole. (bytes : List ℕ) × (content ≡ Some bytes)
        × (whole.items ≡ take most bytes)) }
    ensures no_file { (content : Option (List ℕ)) → F.told files.old name.now ≡ Some content
        → IfErr result (λ r. (r ≡ Refusal.NoFile input × content ≡ None) ⊎ IsUnread input r) }
    ensures kind { IfErr result (λ r. (r ≡ Refusal.NoFile input) ⊎ IsUnread input r) }
    ensures cause { HasCause (F.reads files.old) (F.reads files.new)
        (IsErrAnd result IsReadFault) }
    ensures same { F.told files.new ≡ F.told files.old }
    ensures writes { F.writes files.new ≡ F.writes files.old }
{
    match read_whole(alloc, files, name, most) {
        Ok(bytes) => Ok(bytes),
        Err(ReadError::NoFile) => Err(Refusal::NoFile(input)),
        Err(ReadError::Failed) => Err(Refusal::ReadFault(input)),
        Err(ReadError::OutOfMemory) => Err(Refusal::OutOfMemory),
    }
}
