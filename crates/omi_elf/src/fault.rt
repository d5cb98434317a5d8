//! The faults of ELF core files, with their numbers and names.

ghost use Rattle.std.specs.Prelude.{◌≡◌};
ghost use Rattle.omi_elf.specs.Faults.{elf_fault_number, elf_fault_text};
ghost use Rattle.omi_elf.specs.Faults.{read_error_of};
ghost use Rattle.omi_elf.specs.declared.fault.ElfError.TheVariants.{OutOfMemory as memory};
ghost use Rattle.omi_elf.specs.declared.fault.ElfReadError.TheVariants.{Failed as failed, OutOfMemory as no_memory};

use omi_outside::Failed as ReadFailed;
use std::alloc::AllocError;
use thiserror::Error;

/// Why bytes are no ELF core file: the first fault in the order of the table in `docs/ELF_CORE.md`.
#[derive(Clone, Copy, Debug, PartialEq, Eq)]
pub enum ElfFault {
    /// The first four bytes aren't those of an ELF file.
    NotElf,
    /// This class isn't 2, that of 64 bits.
    Class(u8),
    /// This order of bytes is neither 1 nor 2.
    Order(u8),
    /// This type isn't that of a core file.
    NotCore(u16),
    /// A program header has this size, and not 56 bytes.
    HeaderSize(u16),
    /// The file ends, with so many bytes, inside something that has to be read.
    Short(u64),
    /// A segment of memory starts at this address, which is no multiple of 8.
    Unaligned(u64),
    /// So many bytes of the file, or so many words of its segments, pass the limit.
    TooLarge(u64),
    /// A segment of memory starts at this address, which lies in another one.
    Overlap(u64),
    /// No note holds native ids.
    NoContexts,
    /// The note's description at this place is no list of at most 64 ids that rise.
    BadContext(u64),
    /// So many segments, those that touch counted as one, pass the limit.
    TooMany(u64),
}

impl ElfFault {
    /// The fault's number, from 21 to 32.
    pub fn number(&self) -> u8
        ensures { result ≡ elf_fault_number self.now }
    {
        match self {
            ElfFault::NotElf => 21,
            ElfFault::Class(_) => 22,
            ElfFault::Order(_) => 23,
            ElfFault::NotCore(_) => 24,
            ElfFault::HeaderSize(_) => 25,
            ElfFault::Short(_) => 26,
            ElfFault::Unaligned(_) => 27,
            ElfFault::TooLarge(_) => 28,
            ElfFault::Overlap(_) => 29,
            ElfFault::NoContexts => 30,
            ElfFault::BadContext(_) => 31,
            ElfFault::TooMany(_) => 32,
        }
    }

    /// The fault's name.
    pub fn text(&self) -> &'static str
        ensures { result.now ≡ elf_fault_text self.now }
    {
        match self {
            ElfFault::NotElf => "NotElf",
            ElfFault::Class(_) => "Class",
            ElfFault::Order(_) => "Order",
            ElfFault::NotCore(_) => "NotCore",
            ElfFault::HeaderSize(_) => "HeaderSize",
            ElfFault::Short(_) => "Short",
            ElfFault::Unaligned(_) => "Unaligned",
            ElfFault::TooLarge(_) => "TooLarge",
            ElfFault::Overlap(_) => "Overlap",
            ElfFault::NoContexts => "NoContexts",
            ElfFault::BadContext(_) => "BadContext",
            ElfFault::TooMany(_) => "TooMany",
        }
    }
}

/// Why an ELF core file could not be read.
#[derive(Clone, Copy, Debug, PartialEq, Eq, Error)]
pub enum ElfError {
    /// The bytes are no ELF core file, by what stands at this place.
    #[error("no ELF core: {why:?} at {at}")]
    Fault { at: u64, why: ElfFault },
    #[error("out of memory")]
    OutOfMemory,
}

impl From<AllocError> for ElfError {
    ghost from_gives = { λ _ e. e ≡ memory };

    fn from(_e: AllocError) -> ElfError {
        ElfError::OutOfMemory
    }
}

/// Why an ELF core file, of which pieces are read, could not be read.
#[derive(Clone, Copy, Debug, PartialEq, Eq, Error)]
pub enum ElfReadError {
    /// The file is no ELF core file, by what stands at this place.
    #[error("no ELF core: {why:?} at {at}")]
    Fault { at: u64, why: ElfFault },
    /// A fault of reading, which the files counted.
    #[error("reading failed")]
    Failed,
    #[error("out of memory")]
    OutOfMemory,
}

impl From<AllocError> for ElfReadError {
    ghost from_gives = { λ _ e. e ≡ no_memory };

    fn from(_: AllocError) -> ElfReadError {
        ElfReadError::OutOfMemory
    }
}

impl From<ReadFailed> for ElfReadError {
    ghost from_gives = { λ _ e. e ≡ failed };

    fn from(_: ReadFailed) -> ElfReadError {
        ElfReadError::Failed
    }
}

impl From<ElfError> for ElfReadError {
    ghost from_gives = { λ error e. e ≡ read_error_of error };

    fn from(error: ElfError) -> ElfReadError {
        match error {
            ElfError::Fault { at, why } => ElfReadError::Fault { at, why },
            ElfError::OutOfMemory => ElfReadError::OutOfMemory,
        }
    }
}
