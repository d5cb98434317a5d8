//! Why a command ends without an answer, and the status of each cause.

ghost use Rattle.std.specs.Prelude.{◌≡◌, IfOk, None};
ghost use Rattle.std.specs.Option.{option_map};
ghost use Rattle.omi_frame.specs.declared.refusal.Refusal.TheVariants.{OutOfMemory};
ghost use Rattle.omi_frame.specs.Refusal.{refusal_of_write, refusal_of_script, refusal_of_core, refusal_of_elf, status_of};

use omi_corefile::{CoreError, CoreFault};
use omi_elf::{ElfError, ElfFault};
use omi_outside::{Refused, Status};
use omi_script::{ScriptError, ScriptFault};
use std::alloc::{AllocError, AllocFailed};

/// What a command reads a file as.
#[derive(Clone, Copy)]
pub enum Input {
    Script,
    Core,
    /// A core of the same target at a later stop.
    Later,
}

/// Why a command ends without an answer.
#[derive(Clone, Copy)]
pub enum Refusal {
    /// The words of the command line are refused.
    Usage,
    /// There is no file of the name that is read.
    NoFile(Input),
    /// A read of this file failed.
    ReadFault(Input),
    /// A write of a file failed.
    WriteFault,
    /// The grammar of scripts refuses the script.
    Script(ScriptFault),
    /// The grammar of core files refuses the core, at this place.
    Core(u64, CoreFault),
    /// The rules of ELF core files refuse the core, at this place.
    Elf(u64, ElfFault),
    /// The core's words are damaged: the byte address of a record or of a pointer, and the number of the field. Field 0 stands for the
    /// layout table.
    Damaged { addr: u64, field: u8 },
    /// A chain of scheduling tasks or of enclosing regions in the core's words meets this byte address a second time.
    Cycle { addr: u64 },
    /// There is no layout table in the core's words, or one of another version.
    Incompatible,
    /// Memory ran out.
    OutOfMemory,
}

impl From<AllocError> for Refusal {
    ghost from_gives = { λ _ e. e ≡ OutOfMemory };

    fn from(_: AllocError) -> Refusal {
        Refusal::OutOfMemory
    }
}

impl<T: Drop> From<AllocFailed<T>> for Refusal {
    ghost from_gives = { λ _ e. e ≡ OutOfMemory };

    fn from(_: AllocFailed<T>) -> Refusal {
        Refusal::OutOfMemory
    }
}

// What is handed on from `Refused` is always the refusal of a write.
impl From<Refused> for Refusal {
    ghost from_gives = { λ refused e. e ≡ refusal_of_write refused };

    fn from(refused: Refused) -> Refusal {
        match refused {
            Refused::Failed => Refusal::WriteFault,
            Refused::OutOfMemory => Refusal::OutOfMemory,
        }
    }
}

impl From<ScriptError> for Refusal {
    ghost from_gives = { λ error e. e ≡ refusal_of_script error };

    fn from(error: ScriptError) -> Refusal {
        match error {
            ScriptError::Fault(fault) => Refusal::Script(fault),
            ScriptError::OutOfMemory => Refusal::OutOfMemory,
        }
    }
}

impl From<CoreError> for Refusal {
    ghost from_gives = { λ error e. e ≡ refusal_of_core error };

    fn from(error: CoreError) -> Refusal {
        match error {
            CoreError::Fault { at, why } => Refusal::Core(at, why),
            CoreError::OutOfMemory => Refusal::OutOfMemory,
        }
    }
}

impl From<ElfError> for Refusal {
    ghost from_gives = { λ error e. e ≡ refusal_of_elf error };

    fn from(error: ElfError) -> Refusal {
        match error {
            ElfError::Fault { at, why } => Refusal::Elf(at, why),
            ElfError::OutOfMemory => Refusal::OutOfMemory,
        }
    }
}

impl Refusal {
    /// What the program ends with.
    pub fn status(&self) -> Status
        ensures { result ≡ status_of self.now }
    {
        match self {
            Refusal::Usage => Status::Usage,
            Refusal::NoFile(_) => Status::NoFile,
            Refusal::ReadFault(_) => Status::ReadFault,
            Refusal::WriteFault => Status::WriteFault,
            Refusal::Script(_) => Status::Script,
            Refusal::Core(_, _) | Refusal::Elf(_, _) => Status::Core,
            Refusal::Damaged { .. } | Refusal::Cycle { .. } => Status::Damaged,
            Refusal::Incompatible => Status::Incompatible,
            Refusal::OutOfMemory => Status::OutOfMemory,
        }
    }
}
