//! Files in memory that count what is read of them.

ghost use Rattle.omi_outside.specs.Memory.{told_of, read_faults, write_faults};

use omi_outside::{Failed, Files, MemFiles, Refused};

/// Files in memory with the number of their reads, and of the bytes that these gave.
pub struct Counted {
    pub files: MemFiles,
    pub reads: u64,
    pub given: u64,
}

// Written out: docs/DECISIONS.md, "A drop written out".
impl Drop for Counted {
    fn drop(self) {
        let Counted {
            files: _files,
            reads: _reads,
            given: _given,
        } = self;
    }
}

impl Files for Counted {
    ghost told = { λ counted. told_of counted.files };

    ghost reads = { λ counted. read_faults counted.files };

    ghost writes = { λ counted. write_faults counted.files };

    fn size(&mut self, name: &str) -> Result<Option<u64>, Refused> {
        self.files.size(name)
    }

    fn read_at(&mut self, name: &str, at: u64, to: &mut [u8]) -> Result<usize, Failed> {
        self.reads = self.reads.saturating_add(1);
        let count = self.files.read_at(name, at, to)?;
        self.given = self.given.saturating_add(count as u64);
        Ok(count)
    }

    fn create(&mut self, name: &str) -> Result<(), Refused> {
        self.files.create(name)
    }

    fn append(&mut self, name: &str, bytes: &[u8]) -> Result<(), Refused> {
        self.files.append(name, bytes)
    }
}
