//! The notes of a file, and the search for the one that holds the native ids of threads.

ghost use Rattle.std.specs.Prelude.{◌≡◌, ◌≤◌, ◌+◌, ◌-◌, ◌^◌, ◌<◌, List, ℕ, length, min, IfOk, IsErrOf};
ghost use Rattle.omi_outside.specs.Outside.{HasCause};
ghost use Rattle.omi_read.specs.Holding.{Holds, IsLength};
ghost use Rattle.omi_elf.specs.declared.limits.TheConstants.{NOTE_BEGINNING};
ghost use Rattle.omi_elf.specs.Notes.{padded, n_descsz, to_description, is_named as named};
ghost use Rattle.omi_elf.specs.Found.{IsPieceOf, IsFound, IsPlace, IsReadPlace, IsDescribedIfAny, StaysWithin, EndsWithinIfAny, last_from, last_in};

use crate::fault::{ElfError, ElfReadError};
use crate::header::short;
use crate::limits::NOTE_BEGINNING;
use crate::numbers::number32;
use crate::{NOTE_FRONT_BYTES, NOTE_NAME, NOTE_TYPE, ProgramHeader, STATUS_NAME, STATUS_TYPE};
use omi_outside::Files;
use omi_read::front;

/// The least multiple of 4 that isn't below.
fn padded(size: u32) -> u64
    ensures { result ≡ padded size }
{
    4 * ((u64::from(size) + 3) / 4)
}

/// How far behind the place of a note that begins so its description stands.
fn to_description(order: u8, beginning: &[u8]) -> u64
    requires { NOTE_FRONT_BYTES ≤ length beginning.now }
    ensures value { result ≡ to_description order beginning.now 0 }
    ensures bound { result ≤ 5_000_000_000 }
{
    NOTE_FRONT_BYTES + padded(number32(order, beginning, 0))
}

/// The number of bytes of the description of a note that begins so.
fn description_size(order: u8, beginning: &[u8]) -> u32
    requires { NOTE_FRONT_BYTES ≤ length beginning.now }
    ensures { result ≡ n_descsz order beginning.now 0 }
{
    number32(order, beginning, 4)
}

/// A note that begins so has this name and this type.
fn is_named(order: u8, beginning: &[u8], name: &[u8], kind: u32) -> bool
    requires { NOTE_FRONT_BYTES ≤ length beginning.now }
    ensures { result ≡ named name.now kind order beginning.now 0 }
{
    let rest = &beginning[NOTE_FRONT_BYTES as usize..];
    number32(order, beginning, 0) as usize == name.len()
        && number32(order, beginning, 8) == kind
        && rest.starts_with(name)
}

/// A note: where it stands, which it is, and where how many bytes of its description do.
#[derive(Clone, Copy)]
pub struct Note {
    pub at: u64,
    /// It holds native ids.
    pub ours: bool,
    /// It holds the status of a thread.
    pub status: bool,
    pub description: u64,
    pub size: u32,
}

/// What stands at a place of a segment of notes.
pub enum Place {
    /// No further note: the segment has no room for one.
    End,
    /// A note. The next one stands so many bytes further.
    There { note: Note, step: u64 },
}

/// What stands at a place of a file of `len` bytes, where so many bytes of a segment are left. `beginning` is what stands there first.
fn note_of(len: u64, order: u8, at: u64, left: u64, beginning: &[u8]) -> Result<Place, ElfError>
    requires room { NOTE_FRONT_BYTES ≤ left }
    requires within { at + NOTE_FRONT_BYTES ≤ len }
    requires low { len < 2 ^ 63 }
    requires beginning { length beginning.now ≡ min NOTE_BEGINNING (len - at) }
    ensures place { (bytes : List ℕ) → length bytes ≡ len → IsPieceOf bytes at beginning.now
        → IsPlace order bytes at left result }
    ensures within { IfOk result (StaysWithin len at) }
{
    let front = to_description(order, beginning);
    let size = description_size(order, beginning);
    let end = front + u64::from(size);
    if left < end {
        return Ok(Place::End);
    }
    if len - at < end {
        return Err(short(len));
    }
    let ours = is_named(order, beginning, &NOTE_NAME, NOTE_TYPE);
    let status = is_named(order, beginning, &STATUS_NAME, STATUS_TYPE);
    let description = at + front;
    let note = Note {
        at,
        ours,
        status,
        description,
        size,
    };
    let step = front + padded(size);
    Ok(Place::There { note, step })
}

/// What stands at a place where so many bytes of a segment are left. No more of a note is read than its sizes, its type and the first
/// bytes of its name.
pub fn note_at<F: Files>(
    files: &mut F,
    name: &str,
    len: u64,
    order: u8,
    at: u64,
    left: u64,
) -> Result<Place, ElfReadError>
    requires len { IsLength (F.told files.old name.now) len }
    requires low { len < 2 ^ 63 }
    ensures place { (bytes : List ℕ) → Holds (F.told files.old name.now) bytes
        → IsReadPlace order bytes at left result }
    ensures within { IfOk result (StaysWithin len at) }

    // No bytes change. A fault is counted as one of reading.
    ensures same { F.told files.new ≡ F.told files.old }
    ensures cause { HasCause (F.reads files.old) (F.reads files.new)
        (IsErrOf result ElfReadError.Failed) }
    ensures writes { F.writes files.new ≡ F.writes files.old }
{
    if left < NOTE_FRONT_BYTES {
        return Ok(Place::End);
    }
    if len < at || len - at < NOTE_FRONT_BYTES {
        return Err(short(len).into());
    }
    let mut piece = [0u8; NOTE_BEGINNING];
    let count = front(files, name, len, at, NOTE_BEGINNING, &mut piece)?;
    let place = note_of(len, order, at, left, &piece[..count])?;
    Ok(place)
}

/// The first note of ours from a place on, where so many bytes of a segment are left. A note has bytes, so there are no more of them
/// than bytes.
fn first_in<F: Files>(
    files: &mut F,
    name: &str,
    len: u64,
    order: u8,
    at: u64,
    left: u64,
) -> Result<Option<Note>, ElfReadError>
    requires len { IsLength (F.told files.old name.now) len }
    requires low { len < 2 ^ 63 }
    ensures found { (bytes : List ℕ) → Holds (F.told files.old name.now) bytes
        → IsFound bytes result (last_from order bytes (length bytes) at left) }
    ensures described { (bytes : List ℕ) → Holds (F.told files.old name.now) bytes
        → IfOk result (IsDescribedIfAny order bytes) }
    ensures within { IfOk result (EndsWithinIfAny len) }

    // No bytes change. A fault is counted as one of reading.
    ensures same { F.told files.new ≡ F.told files.old }
    ensures cause { HasCause (F.reads files.old) (F.reads files.new)
        (IsErrOf result ElfReadError.Failed) }
    ensures writes { F.writes files.new ≡ F.writes files.old }
{
    let mut place = at;
    let mut room = left;
    for _ in 0..len {
        match note_at(files, name, len, order, place, room)? {
            Place::End => return Ok(None),
            Place::There { note, step } => {
                if note.ours {
                    return Ok(Some(note));
                }
                place += step;
                room = room.saturating_sub(step);
            }
        }
    }
    Ok(None)
}

/// The first note of ours in these segments of a file of `len` bytes.
pub fn first_note<F: Files>(
    files: &mut F,
    name: &str,
    len: u64,
    order: u8,
    headers: &[ProgramHeader],
) -> Result<Option<Note>, ElfReadError>
    requires len { IsLength (F.told files.old name.now) len }
    requires low { len < 2 ^ 63 }
    ensures found { (bytes : List ℕ) → Holds (F.told files.old name.now) bytes
        → IsFound bytes result (last_in order bytes headers.now) }
    ensures described { (bytes : List ℕ) → Holds (F.told files.old name.now) bytes
        → IfOk result (IsDescribedIfAny order bytes) }
    ensures within { IfOk result (EndsWithinIfAny len) }

    // No bytes change. A fault is counted as one of reading.
    ensures same { F.told files.new ≡ F.told files.old }
    ensures cause { HasCause (F.reads files.old) (F.reads files.new)
        (IsErrOf result ElfReadError.Failed) }
    ensures writes { F.writes files.new ≡ F.writes files.old }
{
    for header in headers {
        if header.is_note_segment() {
            let found = first_in(files, name, len, order, header.p_offset, header.p_filesz)?;
            if found.is_some() {
                return Ok(found);
            }
        }
    }
    Ok(None)
}
