//! The numbers of a file. Each function reads one at a place, with its lowest byte first in order 0 and its highest in order 1.

ghost use Rattle.std.specs.Prelude.{◌≡◌, ◌≤◌, ◌+◌, length};
ghost use Rattle.std.specs.Int.{w16, w32, w64};
ghost use Rattle.omi_elf.specs.Header.{field};

/// A number of two bytes.
#[tactic(auto, unfolding(crate::specs::Header::field))]
pub fn number16(order: u8, bytes: &[u8], at: usize) -> u16
    requires { at + 2 ≤ length bytes.now }
    ensures { result ≡ field w16 order bytes.now at }
{
    let (front, _) = bytes[at..].split_at(2);
    let two = [front[0], front[1]];
    if order == 0 {
        u16::from_le_bytes(two)
    } else {
        u16::from_be_bytes(two)
    }
}

/// A number of four bytes.
#[tactic(auto, unfolding(crate::specs::Header::field))]
pub fn number32(order: u8, bytes: &[u8], at: usize) -> u32
    requires { at + 4 ≤ length bytes.now }
    ensures { result ≡ field w32 order bytes.now at }
{
    let (front, _) = bytes[at..].split_at(4);
    let four = [front[0], front[1], front[2], front[3]];
    if order == 0 {
        u32::from_le_bytes(four)
    } else {
        u32::from_be_bytes(four)
    }
}

/// A number of eight bytes.
#[tactic(auto, unfolding(crate::specs::Header::field))]
pub fn number64(order: u8, bytes: &[u8], at: usize) -> u64
    requires { at + 8 ≤ length bytes.now }
    ensures { result ≡ field w64 order bytes.now at }
{
    let (front, _) = bytes[at..].split_at(8);
    let eight = [
        front[0], front[1], front[2], front[3], front[4], front[5], front[6], front[7],
    ];
    if order == 0 {
        u64::from_le_bytes(eight)
    } else {
        u64::from_be_bytes(eight)
    }
}
