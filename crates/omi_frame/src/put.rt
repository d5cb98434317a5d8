//! What a command prints at its end: the text of its answer, or the line of a refusal.

ghost use Rattle.std.specs.Prelude.{◌≡◌, ◌⊎◌, ◌≤◌, ◌++◌, ◌∷◌, [], codes, Some, string_bytes};
ghost use Rattle.std.specs.String.{string_capacity};
ghost use Rattle.omi_outside.specs.Outside.{HasCause, IsPutCut, put_on};
ghost use Rattle.omi_frame.specs.Refusal.{HasRoom, named, refusal_line, status_of};
ghost use Rattle.omi_frame.specs.Said.{IsCounted, IsSaid};
ghost use Rattle.omi_frame.specs.Concluded.{IsEnded};
ghost use Rattle.omi_frame.specs.Seen.{output_seen};
ghost use Rattle.omi_frame.specs.Statuses.{IsPrinting};

use crate::names::Names;
use crate::refusal::Refusal;
use crate::refusal_line::line_of;
use omi_outside::{Refused, Sink, Status, put_whole};

/// Puts the text of an answer.
fn print<K: Sink>(text: &[u8], out: &mut K) -> Status
    ensures success { result ≡ Status.Success → K.told out.new ≡ put_on (K.told out.old) text.now }
    ensures cut { (result ≡ Status.Success)
        ⊎ IsPutCut text.now (K.told out.old) (K.told out.new) }
    ensures status { IsPrinting result }
    ensures cause { HasCause (K.faults out.old) (K.faults out.new) (result ≡ Status.WriteFault) }
    ensures want { HasCause (K.wants out.old) (K.wants out.new) (result ≡ Status.OutOfMemory) }
{
    match put_whole(out, text) {
        Ok(()) => Status::Success,
        Err(Refused::Failed) => Status::WriteFault,
        Err(Refused::OutOfMemory) => Status::OutOfMemory,
    }
}

/// Puts the line of a refusal of a command that gives these names, made in the room that there is for it. Its status stays where the
/// line can't be put.
fn refuse<K: Sink>(names: Names<'_>, refusal: Refusal, room: &mut String, out: &mut K) -> Status
    requires empty { string_bytes room.old ≡ [] }
    requires enough { HasRoom (named names) (string_capacity room.old) }
    ensures status { result ≡ status_of refusal }
    ensures line { IsSaid (refusal_line (named names.entry) refusal)
        (IsCounted (K.faults out.old) (K.faults out.new) (K.wants out.old) (K.wants out.new))
        (K.told out.old) (K.told out.new) }
    ensures faults { K.faults out.old ≤ K.faults out.new }
    ensures wants { K.wants out.old ≤ K.wants out.new }
{
    if let Some(line) = line_of(names, refusal, room) {
        let _ = out.put(line.as_bytes());
    }
    refusal.status()
}

/// Ends a call of a command that gives these names: it puts the text of its answer, or the line of its refusal, made in the room that there
/// is for it.
pub fn end_with<K: Sink>(
    names: Names<'_>,
    answer: Result<Vec<u8>, Refusal>,
    room: &mut String,
    out: &mut K,
) -> Status
    requires empty { string_bytes room.old ≡ [] }
    requires enough { HasRoom (named names) (string_capacity room.old) }
    ensures { IsEnded (named names.entry) answer result
        (output_seen (K.told out.old) (K.faults out.old) (K.wants out.old))
        (output_seen (K.told out.new) (K.faults out.new) (K.wants out.new)) }
{
    match answer {
        Ok(text) => print(&text, out),
        Err(refusal) => refuse(names, refusal, room, out),
    }
}

/// Puts the line of refused words, which needs no memory.
pub fn refuse_words<K: Sink>(out: &mut K) -> Status
    ensures status { result ≡ Status.Usage }
    ensures line { IsSaid (Some (codes "usage" ++ 10 ∷ []))
        (IsCounted (K.faults out.old) (K.faults out.new) (K.wants out.old) (K.wants out.new))
        (K.told out.old) (K.told out.new) }
    ensures faults { K.faults out.old ≤ K.faults out.new }
    ensures wants { K.wants out.old ≤ K.wants out.new }
{
    let _ = out.put(b"usage\n");
    Status::Usage
}
