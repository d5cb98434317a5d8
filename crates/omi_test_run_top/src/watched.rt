//! Files in memory that note their calls, in one log for the object to read and the one to write.

ghost use Rattle.omi_outside.specs.Memory.{told_of, read_faults, write_faults};

use omi_outside::{Call, Failed, Files, MemFiles, Refused};
use std::alloc::{AllocError, Global};
use std::cell::{Cell, RefCell};

/// One of the two objects that the top call is handed.
#[derive(Clone, Copy, Debug, PartialEq, Eq)]
pub enum Object {
    /// The one to read.
    Source,
    /// The one to write.
    Dest,
}

/// A call of one of the two objects.
#[derive(Drop)]
pub struct Noted {
    pub object: Object,
    pub call: Call,
    pub name: String,
}

/// The calls of both objects, in order.
#[derive(Drop)]
pub struct Log {
    alloc: Global,
    calls: RefCell<Vec<Noted>>,
    /// Whether a call is missing.
    lost: Cell<bool>,
}

impl Log {
    /// No call yet.
    pub fn new(alloc: Global) -> Log {
        Log {
            alloc,
            calls: RefCell::new(Vec::new(alloc)),
            lost: Cell::new(false),
        }
    }

    fn add(&self, object: Object, call: Call, name: &str) -> Result<(), AllocError> {
        let name = String::from_str(self.alloc, name)?;
        let Ok(mut calls) = self.calls.try_borrow_mut() else {
            return Err(AllocError);
        };
        calls.push(Noted { object, call, name })?;
        Ok(())
    }

    /// Adds a call.
    pub fn note(&self, object: Object, call: Call, name: &str) {
        if self.add(object, call, name).is_err() {
            self.lost.set(true);
        }
    }

    /// All calls. None where one is missing.
    pub fn calls(self) -> Option<Vec<Noted>> {
        if self.lost.get() {
            return None;
        }
        Some(self.calls.into_inner())
    }
}

/// Files in memory that note each call before they make it.
pub struct Watched<'a> {
    pub files: MemFiles,
    pub object: Object,
    pub log: &'a Log,
}

// Written out: docs/DECISIONS.md, "A drop written out".
impl Drop for Watched<'_> {
    fn drop(self) {
        let Watched {
            files: _files,
            object: _object,
            log: _log,
        } = self;
    }
}

impl<'a> Files for Watched<'a> {
    ghost told = { λ watched. told_of watched.files };

    ghost reads = { λ watched. read_faults watched.files };

    ghost writes = { λ watched. write_faults watched.files };

    fn size(&mut self, name: &str) -> Result<Option<u64>, Refused> {
        self.log.note(self.object, Call::Size, name);
        self.files.size(name)
    }

    fn read_at(&mut self, name: &str, at: u64, to: &mut [u8]) -> Result<usize, Failed> {
        self.log.note(self.object, Call::ReadAt, name);
        self.files.read_at(name, at, to)
    }

    fn create(&mut self, name: &str) -> Result<(), Refused> {
        self.log.note(self.object, Call::Create, name);
        self.files.create(name)
    }

    fn append(&mut self, name: &str, bytes: &[u8]) -> Result<(), Refused> {
        self.log.note(self.object, Call::Append, name);
        self.files.append(name, bytes)
    }
}
