//! The faults of cores of processes.

ghost use Rattle.std.specs.Prelude.{◌≡◌};
ghost use Rattle.omi_process.specs.Outcomes.{process_error_of};
ghost use Rattle.omi_process.specs.declared.fault.ProcessError.TheVariants.{Failed as failed, OutOfMemory as memory};

use omi_elf::{ElfFault, ElfReadError};
use omi_list::OutOfMemory as NoMemory;
use omi_outside::Failed as ReadFailed;
use std::alloc::AllocError;
use thiserror::Error;

/// Why a file is no core of a process: the first fault in the order of the table in `docs/PROCESS_CORE.md`.
#[derive(Clone, Copy, Debug, PartialEq, Eq)]
pub enum ProcessFault {
    /// A fault that ELF core files have too.
    Elf(ElfFault),
    /// `e_phnum` is `PN_XNUM`: how many program headers there are stands elsewhere.
    ManyHeaders,
    /// No note holds native ids, nor the status of a thread.
    NoThreads,
    /// The note of a thread whose description stands at this place has no id above 0.
    BadThread(u64),
}

/// Why the core of a process could not be read.
#[derive(Clone, Copy, Debug, PartialEq, Eq, Error)]
pub enum ProcessError {
    /// The file is no core of a process, by what stands at this place.
    #[error("no core of a process: {why:?} at {at}")]
    Fault { at: u64, why: ProcessFault },
    /// A fault of reading, which the files counted.
    #[error("reading failed")]
    Failed,
    #[error("out of memory")]
    OutOfMemory,
}

impl From<AllocError> for ProcessError {
    ghost from_gives = { λ _ e. e ≡ memory };

    fn from(_: AllocError) -> ProcessError {
        ProcessError::OutOfMemory
    }
}

impl From<ReadFailed> for ProcessError {
    ghost from_gives = { λ _ e. e ≡ failed };

    fn from(_: ReadFailed) -> ProcessError {
        ProcessError::Failed
    }
}

impl From<ElfReadError> for ProcessError {
    ghost from_gives = { λ error e. e ≡ process_error_of error };

    fn from(error: ElfReadError) -> ProcessError {
        match error {
            ElfReadError::Fault { at, why } => ProcessError::Fault {
                at,
                why: ProcessFault::Elf(why),
            },
            ElfReadError::Failed => ProcessError::Failed,
            ElfReadError::OutOfMemory => ProcessError::OutOfMemory,
        }
    }
}
