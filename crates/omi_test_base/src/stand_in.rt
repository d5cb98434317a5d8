//! Stand-ins for the system's files and output, which take few bytes a call, are interrupted and
//! fail. The bytes go to real files.
use omi_outside::OutOfMemory;
use std::alloc::{Allocator, Global};
use std::cell::Cell;
use std::fmt::Display;
use std::fs::{File, Metadata, OpenFile, OpenOptions};
use std::io::{ErrorKind, Print, Read, Seek, SeekFrom, Write};
use std::{fs, io};

/// The most bytes that a stand-in takes or gives at a time.
const FEW: usize = 1_000;

/// Bytes of which no two neighbours are equal: the one at place `k` is `k % 251`.
pub fn letters(alloc: Global, count: u32) -> Result<Vec<u8>, OutOfMemory> {
    let mut bytes = Vec::new(alloc);
    for k in 0..count {
        bytes.push((k % 251) as u8)?;
    }
    Ok(bytes)
}

/// Which calls fail: an open or a sync of any kind, and a read or a write by its number from 1. At
/// 0 none does.
#[derive(Clone, Copy)]
struct Failing {
    open: Option<ErrorKind>,
    sync: Option<ErrorKind>,
    read: u64,
    write: u64,
}

/// Files whose reads and writes are short, and interrupted each second time.
pub struct Unruly {
    rt: HostRuntime,
    failing: Failing,
}

// Written out: docs/DECISIONS.md, "A drop written out".
impl Drop for Unruly {
    fn drop(self) {
        let Unruly {
            rt: _rt,
            failing: _failing,
        } = self;
    }
}

impl Unruly {
    /// No call fails.
    pub fn new(rt: HostRuntime) -> Unruly {
        Unruly {
            rt,
            failing: Failing {
                open: None,
                sync: None,
                read: 0,
                write: 0,
            },
        }
    }

    pub fn failing_open(mut self, kind: ErrorKind) -> Unruly {
        self.failing.open = Some(kind);
        self
    }

    pub fn failing_sync(mut self, kind: ErrorKind) -> Unruly {
        self.failing.sync = Some(kind);
        self
    }

    pub fn failing_read(mut self, number: u64) -> Unruly {
        self.failing.read = number;
        self
    }

    pub fn failing_write(mut self, number: u64) -> Unruly {
        self.failing.write = number;
        self
    }
}

/// An open file of the stand-in, with the numbers of its reads and writes, and whether the next of
/// them is interrupted.
pub struct UnrulyFile {
    file: File,
    failing: Failing,
    reads: u64,
    writes: u64,
    interrupts: bool,
}

// Written out: docs/DECISIONS.md, "A drop written out".
impl Drop for UnrulyFile {
    fn drop(self) {
        let UnrulyFile {
            file: _file,
            failing: _failing,
            reads: _reads,
            writes: _writes,
            interrupts: _interrupts,
        } = self;
    }
}

impl UnrulyFile {
    /// Each second call is interrupted.
    fn interrupt(&mut self) -> io::Result<()> {
        self.interrupts = !self.interrupts;
        if self.interrupts {
            return Err(io::Error::from(ErrorKind::Interrupted));
        }
        Ok(())
    }
}

impl Read for UnrulyFile {
    fn read(&mut self, buf: &mut [u8]) -> io::Result<usize> {
        self.interrupt()?;
        self.reads = self.reads.saturating_add(1);
        if self.reads == self.failing.read {
            return Err(io::Error::from(ErrorKind::Other));
        }
        let few = buf.len().min(FEW);
        self.file.read(&mut buf[..few])
    }
}

impl Write for UnrulyFile {
    fn write(&mut self, buf: &[u8]) -> io::Result<usize> {
        self.interrupt()?;
        self.writes = self.writes.saturating_add(1);
        if self.writes == self.failing.write {
            return Err(io::Error::from(ErrorKind::StorageFull));
        }
        let few = buf.len().min(FEW);
        self.file.write(&buf[..few])
    }

    fn flush(&mut self) -> io::Result<()> {
        Ok(())
    }
}

impl Seek for UnrulyFile {
    fn seek(&mut self, to: SeekFrom) -> io::Result<u64> {
        self.file.seek(to)
    }
}

impl OpenFile for UnrulyFile {
    fn metadata(&self) -> io::Result<Metadata> {
        self.file.metadata()
    }

    fn set_len(&self, size: u64) -> io::Result<()> {
        self.file.set_len(size)
    }

    fn sync_all(&self) -> io::Result<()> {
        match self.failing.sync {
            Some(kind) => Err(io::Error::from(kind)),
            None => self.file.sync_all(),
        }
    }

    fn sync_data(&self) -> io::Result<()> {
        self.sync_all()
    }
}

/// What the stand-in leaves out.
fn unsupported<T>() -> io::Result<T> {
    Err(io::Error::from(ErrorKind::Unsupported))
}

impl fs::Files for Unruly {
    type File = UnrulyFile;

    type Dir = UnrulyFile;

    fn open_file(&self, how: &OpenOptions, path: &str) -> io::Result<UnrulyFile> {
        if let Some(kind) = self.failing.open {
            return Err(io::Error::from(kind));
        }
        Ok(UnrulyFile {
            file: self.rt.open_file(how, path)?,
            failing: self.failing,
            reads: 0,
            writes: 0,
            interrupts: false,
        })
    }

    fn open_dir(&self, _path: &str) -> io::Result<UnrulyFile> {
        unsupported()
    }

    fn metadata(&self, _path: &str) -> io::Result<Metadata> {
        unsupported()
    }

    fn symlink_metadata(&self, _path: &str) -> io::Result<Metadata> {
        unsupported()
    }

    fn copy(&self, _from: &str, _to: &str) -> io::Result<u64> {
        unsupported()
    }

    fn rename(&self, _from: &str, _to: &str) -> io::Result<()> {
        unsupported()
    }

    fn remove_file(&self, _path: &str) -> io::Result<()> {
        unsupported()
    }

    fn create_dir(&self, _path: &str) -> io::Result<()> {
        unsupported()
    }

    fn remove_dir(&self, _path: &str) -> io::Result<()> {
        unsupported()
    }

    fn remove_dir_all<B: Allocator>(&self, _alloc: B, _path: &str) -> io::Result<()> {
        unsupported()
    }
}

/// An output that goes to a file, and fails at one put by its number from 1, or at none.
pub struct UnrulyOutput {
    file: File,
    failing: u64,
    puts: Cell<u64>,
}

// Written out: docs/DECISIONS.md, "A drop written out".
impl Drop for UnrulyOutput {
    fn drop(self) {
        let UnrulyOutput {
            file: _file,
            failing: _failing,
            puts: _puts,
        } = self;
    }
}

impl UnrulyOutput {
    pub fn new(file: File, failing: u64) -> UnrulyOutput {
        UnrulyOutput {
            file,
            failing,
            puts: Cell::new(0),
        }
    }
}

impl Print for UnrulyOutput {
    fn print<D: Display + Drop>(&self, _: D) -> io::Result<()> {
        unsupported()
    }

    fn println<D: Display + Drop>(&self, _: D) -> io::Result<()> {
        unsupported()
    }

    fn write_all(&self, bytes: &[u8]) -> io::Result<()> {
        self.puts.set(self.puts.get().saturating_add(1));
        if self.puts.get() == self.failing {
            return Err(io::Error::from(ErrorKind::BrokenPipe));
        }
        let mut file = &self.file;
        file.write_all(bytes)
    }
}
