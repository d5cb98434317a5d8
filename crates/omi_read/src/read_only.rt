//! Bytes in memory as files that can be read and not written.

ghost use Rattle.std.specs.Prelude.{◌≡◌, ◌+◌, ◌<◌, ◌≤◌, List, ℕ, length, take, drop, Some};
ghost use Rattle.omi_outside.specs.Outside.{AreBytes};

use omi_outside::{Failed, Files, Refused};

/// Bytes in memory as files: each name holds them. No read fails, and each write is a fault, which is counted.
#[derive(Drop)]
pub struct ReadOnly<'a> {
    bytes: &'a [u8],
    writes: u64,
}

impl<'a> ReadOnly<'a> {
    /// The bytes under each name.
    pub fn over(bytes: &'a [u8]) -> ReadOnly<'a>
        ensures told { (name : List ℕ) → ⟦<ReadOnly<'a> as Files>⟧.told result name
            ≡ Some (Some bytes.now) }
        ensures reads { ⟦<ReadOnly<'a> as Files>⟧.reads result ≡ 0 }
    {
        ReadOnly { bytes, writes: 0 }
    }
}

/// How many bytes these are.
fn byte_count(bytes: &[u8]) -> u64
    ensures length { result ≡ length bytes.now }
    ensures are_bytes { AreBytes bytes.now }
{
    bytes.len() as u64
}

/// Fills a front of `to` with the bytes from place `at` on, and answers how many.
fn read_bytes(bytes: &[u8], at: u64, to: &mut [u8]) -> usize
    requires room { 0 < length to.old }
    requires within { at < length bytes.now }
    ensures some { 0 < result }
    ensures count { result ≤ length to.new }
    ensures within { at + result ≤ length bytes.now }
    ensures bytes { take result to.new ≡ take result (drop at bytes.now) }
{
    let at = at as usize;
    let count = to.len().min(bytes.len() - at);
    to[..count].copy_from_slice(&bytes[at..at + count]);
    count
}

impl<'a> Files for ReadOnly<'a> {
    ghost told = { λ file _. Some (Some file.bytes.now) };

    ghost reads = { λ _. 0 };

    ghost writes = { λ file. file.writes };

    fn size(&mut self, _name: &str) -> Result<Option<u64>, Refused> {
        Ok(Some(byte_count(self.bytes)))
    }

    fn read_at(&mut self, _name: &str, at: u64, to: &mut [u8]) -> Result<usize, Failed> {
        Ok(read_bytes(self.bytes, at, to))
    }

    fn create(&mut self, _name: &str) -> Result<(), Refused> {
        self.writes = self.writes.saturating_add(1);
        Err(Refused::Failed)
    }

    fn append(&mut self, _name: &str, _bytes: &[u8]) -> Result<(), Refused> {
        self.writes = self.writes.saturating_add(1);
        Err(Refused::Failed)
    }
}
