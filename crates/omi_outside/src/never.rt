// Files and a sink in memory without faults.
ghost use Rattle.std.specs.Prelude.{◌≡◌, ◌≢◌, [], List, ℕ, OnOk, OnErr, Some, None};
ghost use Rattle.std.specs.Option.{option_map};
ghost use Rattle.omi_outside.specs.Memory.{told_by};

use crate::contents::{add, extend, hold, read_file, size_of_file};
use crate::{Failed, Files, OutOfMemory, Refused, Sink};
use std::alloc::Global;
use std::collections::BTreeMap;

/// Files in memory without faults: both counts are always 0.
#[derive(Drop)]
pub struct NeverFiles {
    alloc: Global,
    held: BTreeMap<String, Vec<u8>>,
}

impl NeverFiles {
    /// No files.
    pub fn new(alloc: Global) -> NeverFiles
        ensures { (name : List ℕ) → ⟦<NeverFiles as Files>⟧.told result name ≡ Some None }
    {
        NeverFiles {
            alloc,
            held: BTreeMap::new(alloc),
        }
    }

    /// Makes a name hold these bytes.
    pub fn put(&mut self, name: &str, bytes: &[u8]) -> Result<(), OutOfMemory>
        ensures put { OnOk result (⟦<NeverFiles as Files>⟧.told self.new name.now
            ≡ Some (Some bytes.now)) }
        ensures others { (other : List ℕ) → other ≢ name.now
            → ⟦<NeverFiles as Files>⟧.told self.new other
            ≡ ⟦<NeverFiles as Files>⟧.told self.old other }
        ensures refused { OnErr result (⟦<NeverFiles as Files>⟧.told self.new
            ≡ ⟦<NeverFiles as Files>⟧.told self.old) }
    {
        hold(self.alloc, &mut self.held, name, bytes)
    }

    /// The bytes of a name, where there is such a file.
    pub fn bytes(&self, name: &str) -> Option<&[u8]>
        ensures { Some (option_map (λ bytes. bytes.now) result)
            ≡ ⟦<NeverFiles as Files>⟧.told self.now name.now }
    {
        match self.held.get(name) {
            Some(bytes) => Some(bytes.as_slice()),
            None => None,
        }
    }
}

impl Files for NeverFiles {
    ghost told = { λ files. told_by files.held };

    ghost reads = { λ _. 0 };

    ghost writes = { λ _. 0 };

    fn size(&mut self, name: &str) -> Result<Option<u64>, Refused> {
        Ok(size_of_file(&self.held, name))
    }

    fn read_at(&mut self, name: &str, at: u64, to: &mut [u8]) -> Result<usize, Failed> {
        Ok(read_file(&self.held, name, at, to))
    }

    fn create(&mut self, name: &str) -> Result<(), Refused> {
        Ok(hold(self.alloc, &mut self.held, name, &[])?)
    }

    fn append(&mut self, name: &str, bytes: &[u8]) -> Result<(), Refused> {
        Ok(extend(self.alloc, &mut self.held, name, bytes)?)
    }
}

/// A sink in memory without faults: their count is always 0.
#[derive(Drop)]
pub struct NeverSink {
    bytes: Vec<u8>,
    wants: u64,
}

impl NeverSink {
    /// Nothing is put yet.
    pub fn new(alloc: Global) -> NeverSink
        ensures told { ⟦<NeverSink as Sink>⟧.told result ≡ Some [] }
        ensures faults { ⟦<NeverSink as Sink>⟧.faults result ≡ 0 }
        ensures wants { ⟦<NeverSink as Sink>⟧.wants result ≡ 0 }
    {
        NeverSink {
            bytes: Vec::new(alloc),
            wants: 0,
        }
    }

    /// The bytes put so far.
    pub fn bytes(&self) -> &[u8]
        ensures { ⟦<NeverSink as Sink>⟧.told self.now ≡ Some result.now }
    {
        &self.bytes
    }
}

impl Sink for NeverSink {
    ghost told = { λ sink. Some sink.bytes.items };

    ghost faults = { λ _. 0 };

    ghost wants = { λ sink. sink.wants };

    fn put(&mut self, bytes: &[u8]) -> Result<(), Refused> {
        add(&mut self.bytes, &mut self.wants, bytes)
    }
}
