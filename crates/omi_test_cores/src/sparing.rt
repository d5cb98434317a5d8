//! Files that give few bytes at a time, and count the bytes that they gave.

ghost use Rattle.omi_outside.specs.Memory.{told_of, read_faults, write_faults};

use omi_outside::{Call, Failed, Files, MemFiles, OutOfMemory, Refused};
use std::alloc::Global;

/// Files in memory that give at most `most` bytes a read.
pub struct Sparing {
    files: MemFiles,
    most: usize,
    pub given: u64,
}

// Written out: docs/DECISIONS.md, "A drop written out".
impl Drop for Sparing {
    fn drop(self) {
        let Sparing {
            files: _files,
            most: _most,
            given: _given,
        } = self;
    }
}

impl Sparing {
    /// The files hold these bytes under `c`. The reads of these numbers fail.
    pub fn with(
        alloc: Global,
        bytes: &[u8],
        most: usize,
        failing: &[u64],
    ) -> Result<Sparing, OutOfMemory> {
        let mut calls = Vec::new(alloc);
        for number in failing {
            calls.push((Call::ReadAt, *number))?;
        }
        let mut files = MemFiles::new(alloc, calls);
        files.put("c", bytes)?;
        Ok(Sparing {
            files,
            most,
            given: 0,
        })
    }
}

impl Files for Sparing {
    ghost told = { λ files. told_of files.files };

    ghost reads = { λ files. read_faults files.files };

    ghost writes = { λ files. write_faults files.files };

    fn size(&mut self, name: &str) -> Result<Option<u64>, Refused> {
        self.files.size(name)
    }

    fn read_at(&mut self, name: &str, at: u64, to: &mut [u8]) -> Result<usize, Failed> {
        let most = self.most.max(1).min(to.len());
        let count = self.files.read_at(name, at, &mut to[..most])?;
        self.given = self.given.saturating_add(count as u64);
        Ok(count)
    }

    fn create(&mut self, name: &str) -> Result<(), Refused> {
        self.files.create(name)
    }

    fn append(&mut self, name: &str, bytes: &[u8]) -> Result<(), Refused> {
        self.files.append(name, bytes)
    }
}
