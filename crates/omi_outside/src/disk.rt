// The thin edge over real files. It tells no bytes, and counts each fault. Each call of the system
// stands in one place.
ghost use Rattle.std.specs.Prelude.{◌≡◌, ◌≤◌, IfOk, OnOk, IsErr, IsErrOf, IsSome, List, None, length, ℕ};
ghost use Rattle.std.specs.Option.{option_map};
ghost use Rattle.omi_outside.specs.Disk.{disk_fault, disk_read_faults, disk_unsynced, disk_write_faults, TellsFault};
ghost use Rattle.omi_outside.specs.Outside.{HasCause, Rose};

use crate::{Failed, Fault, Files, Place, Refused};
use std::fs::{OpenFile, OpenOptions};
use std::io::{ErrorKind, Read, Seek, SeekFrom, Write};
use std::{fs, io};

/// A file that is open, and its name.
#[derive(Drop)]
struct Opened<F> {
    name: String,
    file: F,
}

/// Real files. Two of them stay open: the one that `size` found last, from which alone `read_at`
/// reads, and the one that is written, from its `create` to its last `append`. So while a file is
/// read or written, its name is looked up once. What was written is handed to its device by `sync`,
/// and before another file is written.
///
/// A read of another name than that of `size` is a fault, and so is one past the file's end. Of the
/// write that the system refused last it keeps the reason.
pub struct DiskFiles<R: fs::Files + AllocGlobal + Drop> {
    rt: R,
    read: Option<Opened<R::File>>,
    written: Option<Opened<R::File>>,
    reads: u64,
    writes: u64,
    unsynced: u64,
    fault: Option<Fault>,
}

// Written out: docs/DECISIONS.md, "A drop written out".
impl<R: fs::Files + AllocGlobal + Drop> Drop for DiskFiles<R> {
    fn drop(self) {
        let DiskFiles {
            rt: _rt,
            read: _read,
            written: _written,
            reads: _reads,
            writes: _writes,
            unsynced: _unsynced,
            fault: _fault,
        } = self;
    }
}

impl<R: fs::Files + AllocGlobal + Drop> DiskFiles<R> {
    /// No file is open, and all counts are 0.
    pub fn new(rt: R) -> DiskFiles<R>
        ensures told { (name : List ℕ) → ⟦<DiskFiles<R> as Files>⟧.told result name ≡ None }
        ensures reads { disk_read_faults result ≡ 0 }
        ensures writes { disk_write_faults result ≡ 0 }
        ensures synced { disk_unsynced result ≡ 0 }
        ensures fault { disk_fault result ≡ None }
    {
        DiskFiles {
            rt,
            read: None,
            written: None,
            reads: 0,
            writes: 0,
            unsynced: 0,
            fault: None,
        }
    }

    /// The write that the system refused last.
    pub fn fault(&self) -> Option<&Fault>
        ensures { option_map (λ fault. fault.now) result ≡ disk_fault self.now }
    {
        self.fault.as_ref()
    }

    /// Counts a write that was refused, and keeps why.
    fn refused(&mut self, name: Option<String>, reason: io::Error)
        ensures later { disk_write_faults self.old ≤ disk_write_faults self.new }
        ensures rose { Rose (disk_write_faults self.old) (disk_write_faults self.new) }
        ensures told { IsSome (disk_fault self.new) }
        ensures reads { disk_read_faults self.new ≡ disk_read_faults self.old }
    {
        self.writes = self.writes.saturating_add(1);
        let place = match name {
            Some(name) => Place::File(name),
            None => Place::Unnamed,
        };
        self.fault = Some(Fault { place, reason });
    }

    /// Has the system hand the file that was written last to its device, so that a fault which is
    /// told only then is told. It does nothing where nothing was written since, and where the file is
    /// one that can't be handed over, as a pipe.
    pub fn sync(&mut self) -> Result<(), Failed>
        ensures synced { OnOk result (disk_unsynced self.new ≡ 0) }
        ensures cause { HasCause (disk_write_faults self.old) (disk_write_faults self.new)
            (IsErr result) }
        ensures no_fault { OnOk result (disk_write_faults self.new ≡ disk_write_faults self.old) }
        ensures told { TellsFault (disk_fault self.old) (disk_fault self.new) (IsErr result) }
        ensures reads { disk_read_faults self.new ≡ disk_read_faults self.old }
    {
        if self.unsynced > 0
            && let Some(opened) = &self.written
            && let Err(e) = opened.file.sync_all()
            && e.kind() != ErrorKind::InvalidInput
        {
            let name = String::from_str(self.rt.alloc(), opened.name.as_str()).ok();
            self.refused(name, e);
            return Err(Failed);
        }
        self.unsynced = 0;
        Ok(())
    }

    /// The file to add to: the one that was written last, if this is its name, or else one that is
    /// opened at its end, and made where it isn't there.
    fn open_to_append(&mut self, name: &str) -> Result<Opened<R::File>, Refused>
        ensures cause { HasCause (disk_write_faults self.old) (disk_write_faults self.new)
            (IsErrOf result Refused.Failed) }
        ensures told { TellsFault (disk_fault self.old) (disk_fault self.new)
            (IsErrOf result Refused.Failed) }
        ensures reads { disk_read_faults self.new ≡ disk_read_faults self.old }
    {
        if let Some(opened) = self.written.take_if(|last| last.name.as_str() == name) {
            return Ok(opened);
        }
        if self.sync().is_err() {
            return Err(Refused::Failed);
        }
        let kept = String::from_str(self.rt.alloc(), name)?;
        match OpenOptions::new()
            .append(true)
            .create(true)
            .open(&self.rt, name)
        {
            Ok(file) => Ok(Opened { name: kept, file }),
            Err(e) => {
                self.refused(Some(kept), e);
                Err(Refused::Failed)
            }
        }
    }
}

/// Opens a file to read it, and answers its length too. None where there is no such file: the name
/// isn't there, or a part of its path is no folder.
fn open_to_read<R: fs::Files>(rt: &R, name: &str) -> io::Result<Option<(R::File, u64)>> {
    match fs::open(rt, name) {
        Ok(mut file) => {
            let len = file.seek(SeekFrom::End(0))?;
            Ok(Some((file, len)))
        }
        Err(e) => match e.kind() {
            ErrorKind::NotFound | ErrorKind::NotADirectory => Ok(None),
            _ => Err(e),
        },
    }
}

/// Reads from a place on until `to` is full or the file ends, and answers how many bytes. A read
/// that was interrupted is made again.
fn read_open<F: Read + Seek>(file: &mut F, at: u64, to: &mut [u8]) -> io::Result<usize>
    ensures { IfOk result (λ count. count ≤ length to.new) }
{
    file.seek(SeekFrom::Start(at))?;
    let mut count = 0;
    for _ in 0..u64::MAX {
        if count == to.len() {
            break;
        }
        match file.read(&mut to[count..]) {
            Ok(0) => break,
            Ok(more) => count += more,
            Err(e) if e.kind() == ErrorKind::Interrupted => {}
            Err(e) => return Err(e),
        }
    }
    Ok(count)
}

impl<R: fs::Files + AllocGlobal + Drop> Files for DiskFiles<R> {
    ghost told = { λ _ _. None };

    ghost reads = { disk_read_faults };

    ghost writes = { disk_write_faults };

    fn size(&mut self, name: &str) -> Result<Option<u64>, Refused> {
        self.read = None;
        let kept = String::from_str(self.rt.alloc(), name)?;
        match open_to_read(&self.rt, name) {
            Ok(Some((file, len))) => {
                self.read = Some(Opened { name: kept, file });
                Ok(Some(len))
            }
            Ok(None) => Ok(None),
            Err(_) => {
                self.reads = self.reads.saturating_add(1);
                Err(Refused::Failed)
            }
        }
    }

    fn read_at(&mut self, name: &str, at: u64, to: &mut [u8]) -> Result<usize, Failed> {
        if let Some(opened) = &mut self.read
            && opened.name.as_str() == name
            && let Ok(count) = read_open(&mut opened.file, at, to)
            && count > 0
        {
            return Ok(count);
        }
        self.reads = self.reads.saturating_add(1);
        Err(Failed)
    }

    fn create(&mut self, name: &str) -> Result<(), Refused>
        // What was made isn't handed over yet.
        ensures unsynced { OnOk result (1 ≤ disk_unsynced self.new) }

        // What each form says.
        ensures cause { HasCause (disk_write_faults self.old) (disk_write_faults self.new)
            (IsErrOf result Refused.Failed) }
        ensures told { TellsFault (disk_fault self.old) (disk_fault self.new)
            (IsErrOf result Refused.Failed) }
        ensures reads { disk_read_faults self.new ≡ disk_read_faults self.old }
    {
        if self.sync().is_err() {
            return Err(Refused::Failed);
        }
        self.written = None;
        let kept = String::from_str(self.rt.alloc(), name)?;
        match fs::create(&self.rt, name) {
            Ok(file) => {
                self.written = Some(Opened { name: kept, file });
                self.unsynced = 1;
                Ok(())
            }
            Err(e) => {
                self.refused(Some(kept), e);
                Err(Refused::Failed)
            }
        }
    }

    fn append(&mut self, name: &str, bytes: &[u8]) -> Result<(), Refused>
        // What was added isn't handed over yet.
        ensures unsynced { OnOk result (1 ≤ disk_unsynced self.new) }

        // What each form says.
        ensures cause { HasCause (disk_write_faults self.old) (disk_write_faults self.new)
            (IsErrOf result Refused.Failed) }
        ensures told { TellsFault (disk_fault self.old) (disk_fault self.new)
            (IsErrOf result Refused.Failed) }
        ensures reads { disk_read_faults self.new ≡ disk_read_faults self.old }
    {
        let mut opened = self.open_to_append(name)?;
        let added = opened.file.write_all(bytes);
        self.written = Some(opened);
        self.unsynced = self.unsynced.saturating_add(1);
        match added {
            Ok(()) => Ok(()),
            Err(e) => {
                let name = String::from_str(self.rt.alloc(), name).ok();
                self.refused(name, e);
                Err(Refused::Failed)
            }
        }
    }
}
