//! What is wrong with a script, and where.
ghost use Rattle.std.specs.Prelude.{◌≡◌};
ghost use Rattle.omi_script.specs.Faults.{number_of_fault, text_of_fault};
ghost use Rattle.omi_script.specs.declared.fault.LineError.TheVariants.{OutOfMemory as NoMemory};
ghost use Rattle.omi_script.specs.declared.fault.ScriptError.TheVariants.{OutOfMemory};
ghost use Rattle.omi_script.specs.Errors.{error_at};

use std::alloc::{AllocError, AllocFailed};
use thiserror::Error;

/// What is wrong with a line of a script.
#[derive(Clone, Copy, Debug, PartialEq, Eq)]
pub enum Why {
    /// A byte that is neither text nor blank.
    NotText,
    /// None of the shapes that are allowed at the line's place.
    UnknownWord,
    /// A word that isn't a number in its range, where one has to stand.
    BadNumber,
    /// No name, or the name of no function that is closed above.
    UnknownName,
    /// A head line or a function name for the second time.
    Repeated,
    /// A task over a function that reaches a barrier.
    BarrierInTask,
    /// An `only` or `critical` of a function that reaches a barrier.
    BarrierNested,
    /// Too many functions or statements, too deep, or too long.
    OverLimit,
    /// No function `main`.
    NoMain,
    /// The text ends inside a function.
    Unclosed,
}

impl Why {
    /// The fault's number, 1 to 10.
    pub fn number(&self) -> u8
        ensures { result ≡ number_of_fault self.now }
    {
        match self {
            Why::NotText => 1,
            Why::UnknownWord => 2,
            Why::BadNumber => 3,
            Why::UnknownName => 4,
            Why::Repeated => 5,
            Why::BarrierInTask => 6,
            Why::BarrierNested => 7,
            Why::OverLimit => 8,
            Why::NoMain => 9,
            Why::Unclosed => 10,
        }
    }

    /// The fault's name.
    pub fn text(&self) -> &'static str
        ensures { result.now ≡ text_of_fault self.now }
    {
        match self {
            Why::NotText => "NotText",
            Why::UnknownWord => "UnknownWord",
            Why::BadNumber => "BadNumber",
            Why::UnknownName => "UnknownName",
            Why::Repeated => "Repeated",
            Why::BarrierInTask => "BarrierInTask",
            Why::BarrierNested => "BarrierNested",
            Why::OverLimit => "OverLimit",
            Why::NoMain => "NoMain",
            Why::Unclosed => "Unclosed",
        }
    }
}

/// The first faulty line of a script, counted from 1, and its least fault. The end of the text is
/// one past the last line.
#[derive(Clone, Copy, Debug, PartialEq, Eq)]
pub struct ScriptFault {
    pub line: u32,
    pub why: Why,
}

/// Why there is no program.
#[derive(Debug, Drop, Error)]
pub enum ScriptError {
    #[error("line {}: {}", .0.line, .0.why.text())]
    Fault(ScriptFault),
    #[error("out of memory")]
    OutOfMemory,
}

/// Why a reader does not go on behind a line.
#[derive(Drop)]
pub enum LineError {
    Fault(Why),
    OutOfMemory,
}

impl LineError {
    /// The error of the line with a number.
    pub fn at(self, line: u32) -> ScriptError
        ensures { result ≡ error_at line self }
    {
        match self {
            LineError::Fault(why) => ScriptError::Fault(ScriptFault { line, why }),
            LineError::OutOfMemory => ScriptError::OutOfMemory,
        }
    }
}

impl From<AllocError> for LineError {
    ghost from_gives = { λ _ e. e ≡ NoMemory };

    fn from(_e: AllocError) -> LineError {
        LineError::OutOfMemory
    }
}

impl<T: Drop> From<AllocFailed<T>> for LineError {
    ghost from_gives = { λ _ e. e ≡ NoMemory };

    fn from(_e: AllocFailed<T>) -> LineError {
        LineError::OutOfMemory
    }
}

impl From<AllocError> for ScriptError {
    ghost from_gives = { λ _ e. e ≡ OutOfMemory };

    fn from(_e: AllocError) -> ScriptError {
        ScriptError::OutOfMemory
    }
}

impl<T: Drop> From<AllocFailed<T>> for ScriptError {
    ghost from_gives = { λ _ e. e ≡ OutOfMemory };

    fn from(_e: AllocFailed<T>) -> ScriptError {
        ScriptError::OutOfMemory
    }
}
