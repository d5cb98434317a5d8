// What files and sinks in memory hold, and what a call of theirs makes of it.
ghost use Rattle.std.specs.Prelude.{◌≡◌, ◌≢◌, ◌+◌, ◌++◌, ◌<◌, ◌≤◌, List, ℕ, length, take, drop, IfErr, IsErr, OnOk, OnErr, Some, None};
ghost use Rattle.std.specs.Option.{option_map};
ghost use Rattle.omi_outside.specs.Outside.{AreBytes, content_len, extended, HasCause};
ghost use Rattle.omi_outside.specs.Memory.{content_of, told_by};

use crate::{OutOfMemory, Refused};
use std::alloc::Global;
use std::collections::BTreeMap;

/// How many bytes these are.
fn byte_count(bytes: &[u8]) -> u64
    ensures count { result ≡ length bytes.now }
    ensures are_bytes { AreBytes bytes.now }
{
    bytes.len() as u64
}

/// The length of a file.
pub fn size_of_file(held: &BTreeMap<String, Vec<u8>>, name: &str) -> Option<u64>
    ensures length { result ≡ option_map length (content_of held.now name.now) }
    ensures are_bytes { (bytes : List ℕ) → content_of held.now name.now ≡ Some bytes
        → AreBytes bytes }
{
    match held.get(name) {
        Some(bytes) => Some(byte_count(bytes.as_slice())),
        None => None,
    }
}

/// Fills a front of `to` from a file that is there.
pub fn read_file(held: &BTreeMap<String, Vec<u8>>, name: &str, at: u64, to: &mut [u8]) -> usize
    requires room { 0 < length to.old }
    requires within { at < content_len (content_of held.now name.now) }
    ensures count { (0 < result) × (result ≤ length to.new) }
    ensures bytes { (bytes : List ℕ) → content_of held.now name.now ≡ Some bytes
        → (at + result ≤ length bytes) × (take result to.new ≡ take result (drop at bytes)) }
{
    match held.get(name) {
        Some(bytes) => {
            let at = at as usize;
            let count = to.len().min(bytes.len() - at);
            to[..count].copy_from_slice(&bytes[at..at + count]);
            count
        }
        None => unreachable!(),
    }
}

/// Makes the name hold these bytes.
pub fn hold(
    alloc: Global,
    held: &mut BTreeMap<String, Vec<u8>>,
    name: &str,
    bytes: &[u8],
) -> Result<(), OutOfMemory>
    ensures made { OnOk result (told_by held.new name.now ≡ Some (Some bytes.now)) }
    ensures others { (other : List ℕ) → other ≢ name.now
        → told_by held.new other ≡ told_by held.old other }
    ensures refused { OnErr result (told_by held.new ≡ told_by held.old) }
{
    let name = String::from_str(alloc, name)?;
    let bytes = bytes.to_vec(alloc)?;
    held.insert(name, bytes)?;
    Ok(())
}

/// Adds bytes at the end of a file.
pub fn extend(
    alloc: Global,
    held: &mut BTreeMap<String, Vec<u8>>,
    name: &str,
    bytes: &[u8],
) -> Result<(), OutOfMemory>
    ensures added { OnOk result (told_by held.new name.now
        ≡ extended (told_by held.old name.now) bytes.now) }
    ensures others { (other : List ℕ) → other ≢ name.now
        → told_by held.new other ≡ told_by held.old other }
    ensures refused { OnErr result (told_by held.new ≡ told_by held.old) }
{
    match held.get_mut(name) {
        Some(file) => file.extend_from_slice(bytes),
        None => hold(alloc, held, name, bytes),
    }
}

/// Adds bytes to those put so far. Where there is no memory for them, this is counted.
pub fn add(held: &mut Vec<u8>, wants: &mut u64, bytes: &[u8]) -> Result<(), Refused>
    ensures added { OnOk result (held.new.items ≡ held.old.items ++ bytes.now) }
    ensures refused { OnErr result (held.new.items ≡ held.old.items) }
    ensures want { HasCause wants.old wants.new (IsErr result) }
    ensures kept { OnOk result (wants.new ≡ wants.old) }
    ensures why { IfErr result (λ why. why ≡ Refused.OutOfMemory) }
{
    match held.extend_from_slice(bytes) {
        Ok(()) => Ok(()),
        Err(_) => {
            *wants = wants.saturating_add(1);
            Err(Refused::OutOfMemory)
        }
    }
}
