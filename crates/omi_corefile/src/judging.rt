//! The fields of a core file that a rule judges. Each function reads a file of `len` bytes, of which `bytes` are left, and gives the bytes after the field.

ghost use Rattle.std.specs.Prelude.{◌≡◌, ◌≤◌, ◌<◌, length, IfOk};
ghost use Rattle.omi_word.specs.declared.limits.TheConstants.{MEMORY_END};
ghost use Rattle.omi_corefile.specs.Limits.{least_after};
ghost use Rattle.omi_corefile.specs.Refusals.{version_at, order_at, context_count_at, segment_count_at, id_at, start_at, word_count_at};
ghost use Rattle.omi_corefile.specs.Outcomes.{Gives};

use crate::fault::{CoreError, CoreFault};
use crate::fields::{byte, number16, number32, number64, place};
use crate::{MOST_CONTEXTS, MOST_SEGMENTS};
use omi_word::MEMORY_END;

/// The version, which is 1.
pub fn version(len: usize, bytes: &[u8]) -> Result<(u8, &[u8]), CoreError>
    ensures { Gives (λ x. (x.0, x.1.now)) result (version_at len bytes.now) }
{
    let at = place(len, bytes);
    let (version, rest) = byte(len, bytes)?;
    if version != 1 {
        let why = CoreFault::Version(version);
        return Err(CoreError::Fault { at, why });
    }
    Ok((version, rest))
}

/// The order, which is 0 or 1.
pub fn order(len: usize, bytes: &[u8]) -> Result<(u8, &[u8]), CoreError>
    ensures { Gives (λ x. (x.0, x.1.now)) result (order_at len bytes.now) }
{
    let at = place(len, bytes);
    let (order, rest) = byte(len, bytes)?;
    if order > 1 {
        let why = CoreFault::Order(order);
        return Err(CoreError::Fault { at, why });
    }
    Ok((order, rest))
}

/// The number of contexts, at most `MOST_CONTEXTS`.
pub fn context_count(len: usize, bytes: &[u8]) -> Result<(u16, &[u8]), CoreError>
    ensures { Gives (λ x. (x.0, x.1.now)) result (context_count_at len bytes.now) }
{
    let at = place(len, bytes);
    let (count, rest) = number16(len, bytes)?;
    if count > MOST_CONTEXTS {
        let why = CoreFault::BadContext(at);
        return Err(CoreError::Fault { at, why });
    }
    Ok((count, rest))
}

/// The number of segments, at most `MOST_SEGMENTS`.
pub fn segment_count(len: usize, bytes: &[u8]) -> Result<(u32, &[u8]), CoreError>
    ensures { Gives (λ x. (x.0, x.1.now)) result (segment_count_at len bytes.now) }
{
    let at = place(len, bytes);
    let (count, rest) = number32(len, bytes)?;
    if count > MOST_SEGMENTS {
        let why = CoreFault::SegmentOrder(at);
        return Err(CoreError::Fault { at, why });
    }
    Ok((count, rest))
}

/// A native id, which is above the one before.
pub fn id(len: usize, before: Option<u64>, bytes: &[u8]) -> Result<(u64, &[u8]), CoreError>
    ensures { Gives (λ x. (x.0, x.1.now)) result (id_at len (least_after before) bytes.now) }
{
    let at = place(len, bytes);
    let (id, rest) = number64(len, bytes)?;
    let rises = match before {
        None => true,
        Some(other) => other < id,
    };
    if !rises {
        let why = CoreFault::BadContext(at);
        return Err(CoreError::Fault { at, why });
    }
    Ok((id, rest))
}

/// The start address of a segment, which is at least `least`.
pub fn start(len: usize, least: u64, bytes: &[u8]) -> Result<(u64, &[u8]), CoreError>
    ensures read { Gives (λ x. (x.0, x.1.now)) result (start_at len least bytes.now) }
    ensures bound { IfOk result (λ x. x.0 < MEMORY_END) }
{
    let at = place(len, bytes);
    let (start, rest) = number64(len, bytes)?;
    if start % 8 != 0 || start < least || start >= MEMORY_END {
        let why = CoreFault::SegmentOrder(at);
        return Err(CoreError::Fault { at, why });
    }
    Ok((start, rest))
}

/// The number of words of a segment, from 1 to `room`.
pub fn word_count(len: usize, room: u64, bytes: &[u8]) -> Result<(u64, &[u8]), CoreError>
    ensures read { Gives (λ x. (x.0, x.1.now)) result (word_count_at len room bytes.now) }
    ensures bound { IfOk result (λ x. x.0 ≤ room) }
{
    let at = place(len, bytes);
    let (count, rest) = number64(len, bytes)?;
    if count == 0 {
        let why = CoreFault::SegmentOrder(at);
        return Err(CoreError::Fault { at, why });
    }
    if count > room {
        let why = CoreFault::TooLarge(count);
        return Err(CoreError::Fault { at, why });
    }
    Ok((count, rest))
}
