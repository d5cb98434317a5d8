//! The native ids of the threads whose status stands in the notes of a file.

ghost use Rattle.std.specs.Prelude.{◌≡◌, ◌≤◌, ◌<◌, ◌^◌, List, ℕ, length, IsErr, IfOk, IsErrOf};
ghost use Rattle.omi_outside.specs.Outside.{HasCause};
ghost use Rattle.omi_read.specs.Holding.{Holds, IsLength};
ghost use Rattle.omi_elf.specs.Found.{IsNoteAt, EndsWithin};
ghost use Rattle.omi_elf.specs.Notes.{notes_from};
ghost use Rattle.omi_process.specs.Ids.{thread_at};
ghost use Rattle.omi_process.specs.Reading.{gathered, notes_of};
ghost use Rattle.omi_process.specs.Outcomes.{IsGathered};

use crate::limits::{PID_END, PID_PLACE};
use crate::{ProcessError, ProcessFault};
use omi_elf::{Note, Place, ProgramHeader, note_at, number32};
use omi_outside::{Failed, Files};
use omi_read::fill;
use omi_word::Natives;

/// The native id that the note of a thread tells. None where it tells none.
fn thread_at<F: Files>(
    files: &mut F,
    name: &str,
    len: u64,
    order: u8,
    note: Note,
) -> Result<Option<u64>, Failed>
    requires len { IsLength (F.told files.old name.now) len }
    requires low { len < 2 ^ 63 }
    requires within { EndsWithin len note }
    ensures thread { (bytes : List ℕ) → Holds (F.told files.old name.now) bytes
        → (at : ℕ) → IsNoteAt order bytes at note
        → IfOk result (λ thread. thread ≡ thread_at order bytes at) }

    // No bytes change. A fault is counted as one of reading.
    ensures same { F.told files.new ≡ F.told files.old }
    ensures cause { HasCause (F.reads files.old) (F.reads files.new) (IsErr result) }
    ensures writes { F.writes files.new ≡ F.writes files.old }
{
    if u64::from(note.size) < PID_END {
        return Ok(None);
    }
    let mut piece = [0u8; 4];
    fill(files, name, note.description + PID_PLACE, &mut piece)?;
    let pid = number32(order, &piece, 0);
    if pid == 0 || pid > i32::MAX as u32 {
        return Ok(None);
    }
    Ok(Some(u64::from(pid)))
}

/// Adds the ids of the threads of the notes from a place on, where so many bytes of a segment are left. A note has bytes, so there are no
/// more of them than bytes.
fn add_from<F: Files>(
    files: &mut F,
    name: &str,
    len: u64,
    order: u8,
    at: u64,
    left: u64,
    ids: &mut Natives,
) -> Result<(), ProcessError>
    requires len { IsLength (F.told files.old name.now) len }
    requires low { len < 2 ^ 63 }
    ensures gathered { (bytes : List ℕ) → Holds (F.told files.old name.now) bytes
        → IsGathered order bytes result ids.new
        (gathered order bytes ids.old (notes_from order bytes (length bytes) at left)) }

    // No bytes change. A fault is counted as one of reading.
    ensures same { F.told files.new ≡ F.told files.old }
    ensures cause { HasCause (F.reads files.old) (F.reads files.new)
        (IsErrOf result ProcessError.Failed) }
    ensures writes { F.writes files.new ≡ F.writes files.old }
{
    let mut place = at;
    let mut room = left;
    for _ in 0..len {
        match note_at(files, name, len, order, place, room)? {
            Place::End => return Ok(()),
            Place::There { note, step } => {
                if note.status {
                    let Some(id) = thread_at(files, name, len, order, note)? else {
                        return Err(ProcessError::Fault {
                            at: note.description,
                            why: ProcessFault::BadThread(note.description),
                        });
                    };
                    ids.push(id)?;
                }
                place += step;
                room = room.saturating_sub(step);
            }
        }
    }
    Ok(())
}

/// Adds the ids of the threads of the notes of these segments of a file of `len` bytes.
pub fn add_threads<F: Files>(
    files: &mut F,
    name: &str,
    len: u64,
    order: u8,
    headers: &[ProgramHeader],
    ids: &mut Natives,
) -> Result<(), ProcessError>
    requires len { IsLength (F.told files.old name.now) len }
    requires low { len < 2 ^ 63 }
    ensures gathered { (bytes : List ℕ) → Holds (F.told files.old name.now) bytes
        → IsGathered order bytes result ids.new
        (gathered order bytes ids.old (notes_of order bytes headers.now)) }

    // No bytes change. A fault is counted as one of reading.
    ensures same { F.told files.new ≡ F.told files.old }
    ensures cause { HasCause (F.reads files.old) (F.reads files.new)
        (IsErrOf result ProcessError.Failed) }
    ensures writes { F.writes files.new ≡ F.writes files.old }
{
    for header in headers {
        if header.is_note_segment() {
            add_from(
                files,
                name,
                len,
                order,
                header.p_offset,
                header.p_filesz,
                ids,
            )?;
        }
    }
    Ok(())
}
