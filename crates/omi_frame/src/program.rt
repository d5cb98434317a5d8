//! What a program does before and behind its top call.

ghost use Rattle.std.specs.Prelude.{◌≡◌, ◌≢◌, ◌⊎◌, IfErr, alloc_error};
ghost use Rattle.omi_outside.specs.Disk.{disk_read_faults as read_faults, disk_unsynced as unsynced, disk_write_faults as write_faults};
ghost use Rattle.omi_outside.specs.Outside.{Rose};

use omi_outside::{DiskFiles, Fault, Status};
use std::alloc::AllocError;
use std::env::Env;
use std::fs::Files;
use std::{env, io};

/// The words behind the program's name. Where one can't be read, as it is no text, they make no command line, and there are none.
pub fn words_of<R: Env + AllocGlobal>(rt: &R) -> Result<Vec<String>, AllocError>
    ensures { IfErr result (λ e. e ≡ alloc_error) }
{
    let mut words = Vec::new(rt.alloc());
    let read = match env::args(rt) {
        Ok(read) => read,
        Err(e) if e.kind() == io::ErrorKind::OutOfMemory => return Err(AllocError),
        Err(_) => return Ok(words),
    };
    for word in read.skip(1) {
        words.push(word)?;
    }
    Ok(words)
}

/// The status of a command that ended with this one. What it wrote is handed to its device first, whatever the status is, and a fault
/// that is told only then is a fault of writing.
pub fn handed_over<R: Files + AllocGlobal + Drop>(
    status: Status,
    files: &mut DiskFiles<R>,
) -> Status
    // All is handed over, and the status stays; or a fault was counted, and this is the status.
    ensures handed { ((result ≡ status) × (unsynced files.new ≡ 0))
        ⊎ ((result ≡ Status.WriteFault) × Rose (write_faults files.old) (write_faults files.new)) }
    ensures no_fault { result ≢ Status.WriteFault
        → write_faults files.new ≡ write_faults files.old }
    // Nothing is read.
    ensures reads { read_faults files.new ≡ read_faults files.old }
{
    match files.sync() {
        Ok(()) => status,
        Err(_) => Status::WriteFault,
    }
}

/// Writes to standard error why a command ended with the status of a refused write: the file or the output, and the system's reason. What
/// can't be written there is left out.
pub fn tell_fault<R: Eprint>(rt: &R, program: &str, status: Status, fault: Option<&Fault>) {
    if status == Status::WriteFault
        && let Some(fault) = fault
    {
        let _ = eprintln!(rt; "{program}: {fault}");
    }
}
