//! The fields of a core file. Each function reads a file of `len` bytes, of which `bytes` are left, and gives the bytes after what it read.

ghost use Rattle.std.specs.Prelude.{◌≡◌, ◌-◌, length, Err, if◌then◌else◌};
ghost use Rattle.std.specs.Int.{w16, w32, w64};
ghost use Rattle.omi_corefile.specs.Refusals.{place_in_file as place_of, number_at, word_at, byte_at, magic_at};
ghost use Rattle.omi_corefile.specs.Outcomes.{Gives};

use crate::byte_order::number_of;
use crate::fault::{CoreError, CoreFault};

/// The place in the file of what is left.
pub fn place(len: usize, bytes: &[u8]) -> u64
    ensures { result ≡ place_of len bytes.now }
{
    len.saturating_sub(bytes.len()) as u64
}

/// The fault of a file that ends before a field is whole.
pub fn short(len: usize) -> CoreError
    ensures { result ≡ CoreError.Fault len (CoreFault.Short len) }
{
    let at = len as u64;
    let why = CoreFault::Short(at);
    CoreError::Fault { at, why }
}

/// The eight bytes that name the format.
#[tactic(auto, unfolding(crate::specs::Refusals::magic_at))]
pub fn magic(len: usize, bytes: &[u8]) -> Result<&[u8], CoreError>
    ensures { Gives (λ rest. rest.now) result (magic_at len bytes.now) }
{
    if bytes.len() < 8 {
        return Err(short(len));
    }
    if !bytes.starts_with(b"OMPDCOR1") {
        let why = CoreFault::BadMagic;
        return Err(CoreError::Fault { at: 0, why });
    }
    Ok(&bytes[8..])
}

/// One byte.
pub fn byte(len: usize, bytes: &[u8]) -> Result<(u8, &[u8]), CoreError>
    ensures { Gives (λ x. (x.0, x.1.now)) result (byte_at len bytes.now) }
{
    match bytes {
        [] => Err(short(len)),
        [first, rest @ ..] => Ok((*first, rest)),
    }
}

/// A number of two bytes.
pub fn number16(len: usize, bytes: &[u8]) -> Result<(u16, &[u8]), CoreError>
    ensures { Gives (λ x. (x.0, x.1.now)) result (number_at w16 len bytes.now) }
{
    if bytes.len() < 2 {
        return Err(short(len));
    }
    let (front, rest) = bytes.split_at(2);
    Ok((u16::from_le_bytes([front[0], front[1]]), rest))
}

/// A number of four bytes.
pub fn number32(len: usize, bytes: &[u8]) -> Result<(u32, &[u8]), CoreError>
    ensures { Gives (λ x. (x.0, x.1.now)) result (number_at w32 len bytes.now) }
{
    if bytes.len() < 4 {
        return Err(short(len));
    }
    let (front, rest) = bytes.split_at(4);
    let number = u32::from_le_bytes([front[0], front[1], front[2], front[3]]);
    Ok((number, rest))
}

/// A word of a segment, in this order.
pub fn word(len: usize, order: u8, bytes: &[u8]) -> Result<(u64, &[u8]), CoreError>
    ensures { Gives (λ x. (x.0, x.1.now)) result (word_at order len bytes.now) }
{
    if bytes.len() < 8 {
        return Err(short(len));
    }
    let (front, rest) = bytes.split_at(8);
    let eight = [
        front[0], front[1], front[2], front[3], front[4], front[5], front[6], front[7],
    ];
    Ok((number_of(order, eight), rest))
}

/// A number of eight bytes.
pub fn number64(len: usize, bytes: &[u8]) -> Result<(u64, &[u8]), CoreError>
    ensures { Gives (λ x. (x.0, x.1.now)) result (number_at w64 len bytes.now) }
{
    word(len, 0, bytes)
}
