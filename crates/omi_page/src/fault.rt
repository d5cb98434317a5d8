//! Why the file of a core can't be read on demand.

ghost use Rattle.std.specs.Prelude.{◌≡◌};
ghost use Rattle.omi_page.specs.declared.fault.PageError.TheVariants.{Failed as failed, OutOfMemory as memory};
ghost use Rattle.omi_page.specs.Faults.{page_error_of, page_error_of_elf, page_error_of_refused};

use omi_corefile::{CoreError, CoreFault};
use omi_elf::{ElfFault, ElfReadError};
use omi_outside::{Failed, Refused};
use std::alloc::AllocError;
use thiserror::Error;

/// Why the file of a core can't be read on demand.
#[derive(Clone, Copy, Debug, PartialEq, Eq, Error)]
pub enum PageError {
    /// The file is no core, by the field at this place, in bytes.
    #[error("no core: {why:?} at {at}")]
    Fault { at: u64, why: CoreFault },
    /// The file begins as an ELF file and is no ELF core file, by what stands at this place.
    #[error("no ELF core: {why:?} at {at}")]
    Elf { at: u64, why: ElfFault },
    /// There is no file of this name.
    #[error("no such file")]
    NoFile,
    /// A fault of reading, which the files counted.
    #[error("reading failed")]
    Failed,
    #[error("out of memory")]
    OutOfMemory,
}

impl From<AllocError> for PageError {
    ghost from_gives = { λ _ e. e ≡ memory };

    fn from(_: AllocError) -> PageError {
        PageError::OutOfMemory
    }
}

impl From<Failed> for PageError {
    ghost from_gives = { λ _ e. e ≡ failed };

    fn from(_: Failed) -> PageError {
        PageError::Failed
    }
}

impl From<CoreError> for PageError {
    ghost from_gives = { λ error e. e ≡ page_error_of error };

    fn from(error: CoreError) -> PageError {
        match error {
            CoreError::Fault { at, why } => PageError::Fault { at, why },
            CoreError::OutOfMemory => PageError::OutOfMemory,
        }
    }
}

impl From<ElfReadError> for PageError {
    ghost from_gives = { λ error e. e ≡ page_error_of_elf error };

    fn from(error: ElfReadError) -> PageError {
        match error {
            ElfReadError::Fault { at, why } => PageError::Elf { at, why },
            ElfReadError::Failed => PageError::Failed,
            ElfReadError::OutOfMemory => PageError::OutOfMemory,
        }
    }
}

impl From<Refused> for PageError {
    ghost from_gives = { λ refused e. e ≡ page_error_of_refused refused };

    fn from(refused: Refused) -> PageError {
        match refused {
            Refused::Failed => PageError::Failed,
            Refused::OutOfMemory => PageError::OutOfMemory,
        }
    }
}
