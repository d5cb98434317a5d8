//! Why a core isn't opened.

ghost use Rattle.std.specs.Prelude.{◌≡◌};
ghost use Rattle.omi.specs.Faults.{open_error_of_code, open_error_of_page};
ghost use Rattle.omi.specs.declared.fault.OpenError.TheVariants.{OutOfMemory};

use omi_corefile::CoreFault;
use omi_elf::ElfFault;
use omi_page::PageError;
use omi_session::Rc;
use std::alloc::AllocError;
use thiserror::Error;

/// Why a core isn't opened.
#[derive(Clone, Copy, Debug, PartialEq, Eq, Error)]
pub enum OpenError {
    /// There is no file of this name.
    #[error("there is no such file")]
    NoFile,
    /// A read failed. The files counted the fault.
    #[error("the file cannot be read")]
    NotRead,
    /// The file is no core, by the field at this place, in bytes.
    #[error("no core: {why:?} at {at}")]
    NoCore { at: u64, why: CoreFault },
    /// The file begins as an ELF file and is no ELF core file, by what stands at this place, in bytes.
    #[error("no ELF core: {why:?} at {at}")]
    NoElf { at: u64, why: ElfFault },
    /// The core's words publish no layout that this library knows: Incompatible, or Error at the word of the layout table that is
    /// wrong.
    #[error("{0}")]
    NoTarget(Rc),
    #[error("out of memory")]
    OutOfMemory,
}

impl From<AllocError> for OpenError {
    ghost from_gives = { λ _ e. e ≡ OutOfMemory };

    fn from(_: AllocError) -> OpenError {
        OpenError::OutOfMemory
    }
}

impl From<PageError> for OpenError {
    ghost from_gives = { λ error e. e ≡ open_error_of_page error };

    fn from(error: PageError) -> OpenError {
        match error {
            PageError::Fault { at, why } => OpenError::NoCore { at, why },
            PageError::Elf { at, why } => OpenError::NoElf { at, why },
            PageError::NoFile => OpenError::NoFile,
            PageError::Failed => OpenError::NotRead,
            PageError::OutOfMemory => OpenError::OutOfMemory,
        }
    }
}

/// What the code of a session that doesn't open is handed on as.
pub fn not_opened(rc: Rc) -> OpenError
    ensures { result ≡ open_error_of_code rc }
{
    match rc {
        Rc::CallbackError => OpenError::NotRead,
        other => OpenError::NoTarget(other),
    }
}
