// Whole files and whole texts, piece by piece.
ghost use Rattle.std.specs.Prelude.{◌≡◌, ◌≢◌, ◌<◌, ◌≤◌, List, ℕ, length, take, IfOk, OnOk, OnErr, IsErrOf, Option, Some, None, vec_len};
ghost use Rattle.omi_outside.specs.Outside.{holding, put_on, HasCause, IsPartly, IsCut, IsPartlyPut, IsPutCut};
ghost use Rattle.omi_outside.specs.declared.files.Refused.{Refused};
ghost use Rattle.omi_outside.specs.declared.whole.ReadError.TheVariants.{OutOfMemory as NoMemory, Failed as ReadFailed};
ghost use Rattle.omi_outside.specs.Whole.{read_error_of};

use crate::{Failed, Files, PIECE, Refused, Sink};
use std::alloc::{AllocError, Global};

/// Why a file wasn't read whole.
#[derive(Clone, Copy, Debug, PartialEq, Eq)]
pub enum ReadError {
    /// There is no file of this name.
    NoFile,
    /// A fault, which the files counted.
    Failed,
    /// Memory ran out.
    OutOfMemory,
}

impl From<AllocError> for ReadError {
    ghost from_gives = { λ _ e. e ≡ NoMemory };

    fn from(_: AllocError) -> ReadError {
        ReadError::OutOfMemory
    }
}

impl From<Failed> for ReadError {
    ghost from_gives = { λ _ e. e ≡ ReadFailed };

    fn from(_: Failed) -> ReadError {
        ReadError::Failed
    }
}

impl From<Refused> for ReadError {
    ghost from_gives = { λ refused e. e ≡ read_error_of refused };

    fn from(refused: Refused) -> ReadError {
        match refused {
            Refused::Failed => ReadError::Failed,
            Refused::OutOfMemory => ReadError::OutOfMemory,
        }
    }
}

/// The first `most` bytes of a file, or all of them where it has fewer. At most `PIECE` bytes are
/// asked for at a time. Room is taken once, for as many bytes as are wanted by the size that the
/// files tell.
pub fn read_whole<F: Files>(
    alloc: Global,
    files: &mut F,
    name: &str,
    most: u64,
) -> Result<Vec<u8>, ReadError>
    ensures bytes { (content : Option (List ℕ)) → F.told files.old name.now ≡ Some content
        → IfOk result (λ whole. (bytes : List ℕ) × (content ≡ Some bytes)
        × (whole.items ≡ take most bytes)) }
    ensures no_file { (content : Option (List ℕ)) → F.told files.old name.now ≡ Some content
        → IsErrOf result ReadError.NoFile → content ≡ None }
    ensures length { IfOk result (λ whole. vec_len whole ≤ most) }

    // No bytes change. A fault is counted as one of reading.
    ensures same { F.told files.new ≡ F.told files.old }
    ensures cause { HasCause (F.reads files.old) (F.reads files.new)
        (IsErrOf result ReadError.Failed) }
    ensures writes { F.writes files.new ≡ F.writes files.old }
{
    let Some(size) = files.size(name)? else {
        return Err(ReadError::NoFile);
    };
    let wanted = size.min(most);
    let mut whole = Vec::with_capacity(alloc, wanted as usize)?;
    let mut piece = [0u8; PIECE];
    let mut at: u64 = 0;
    while at < wanted {
        let room = (wanted - at).min(PIECE as u64) as usize;
        let count = files.read_at(name, at, &mut piece[..room])?;
        whole.extend_from_slice(&piece[..count])?;
        at += count as u64;
    }
    Ok(whole)
}

/// Creates the name, and appends the bytes in pieces of `PIECE` bytes, of which the last may be
/// shorter.
pub fn write_whole<F: Files>(files: &mut F, name: &str, bytes: &[u8]) -> Result<(), Refused>
    ensures written { OnOk result (F.told files.new name.now
        ≡ holding (F.told files.old name.now) bytes.now) }

    // What is left where the call is refused, too. No other name changes.
    ensures partly { IsPartly (F.told files.old name.now) (F.told files.new name.now) bytes.now }
    ensures cut { OnErr result (IsCut (F.told files.old name.now)
        (F.told files.new name.now) bytes.now) }
    ensures others { (other : List ℕ) → other ≢ name.now
        → F.told files.new other ≡ F.told files.old other }

    // A fault is counted as one of writing.
    ensures cause { HasCause (F.writes files.old) (F.writes files.new)
        (IsErrOf result Refused.Failed) }
    ensures reads { F.reads files.new ≡ F.reads files.old }
{
    files.create(name)?;
    let mut at = 0;
    while at < bytes.len() {
        let end = at + (bytes.len() - at).min(PIECE);
        files.append(name, &bytes[at..end])?;
        at = end;
    }
    Ok(())
}

/// Puts the bytes in pieces of `PIECE` bytes, of which the last may be shorter.
pub fn put_whole<K: Sink>(out: &mut K, bytes: &[u8]) -> Result<(), Refused>
    ensures put { OnOk result (K.told out.new ≡ put_on (K.told out.old) bytes.now) }

    // What is left where the call is refused, too.
    ensures partly { IsPartlyPut bytes.now (K.told out.old) (K.told out.new) }
    ensures cut { OnErr result (IsPutCut bytes.now (K.told out.old) (K.told out.new)) }

    // Each refusal is counted, and a count rises by its own refusals alone.
    ensures cause { HasCause (K.faults out.old) (K.faults out.new) (IsErrOf result Refused.Failed) }
    ensures want { HasCause (K.wants out.old) (K.wants out.new)
        (IsErrOf result Refused.OutOfMemory) }
    ensures ok_faults { OnOk result (K.faults out.new ≡ K.faults out.old) }
    ensures ok_wants { OnOk result (K.wants out.new ≡ K.wants out.old) }
    ensures failed_wants { IsErrOf result Refused.Failed → K.wants out.new ≡ K.wants out.old }
    ensures want_faults { IsErrOf result Refused.OutOfMemory → K.faults out.new ≡ K.faults out.old }
{
    let mut at = 0;
    while at < bytes.len() {
        let end = at + (bytes.len() - at).min(PIECE);
        out.put(&bytes[at..end])?;
        at = end;
    }
    Ok(())
}
