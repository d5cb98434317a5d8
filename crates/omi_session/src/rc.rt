//! What a call answers in place of a value: the return codes of OMPD, with the numbers of this project.

ghost use Rattle.std.specs.Prelude.{◌≡◌};

use thiserror::Error;

/// Why a call has no value. Code 0, for Ok, has no variant.
#[derive(Clone, Copy, Debug, PartialEq, Eq, Error)]
pub enum Rc {
    /// The target has nothing of this kind, such as an enclosing region of the outermost one.
    #[error("the target has none")]
    Unavailable,
    /// The handle's object is gone: its record has another life word now.
    #[error("the object of the handle is gone")]
    StaleHandle,
    /// A handle isn't held, or an argument is out of range.
    #[error("a handle is not held, or an argument is out of range")]
    BadInput,
    /// The target's words are damaged: the byte address of a record or of a pointer, and the number of the field. Field 0 stands for
    /// the layout table.
    #[error("damaged at {addr:#x}, field {field}")]
    Error { addr: u64, field: u8 },
    /// The call isn't there for this argument.
    #[error("not supported")]
    Unsupported,
    /// The target keeps no states.
    #[error("the target keeps no states")]
    NeedsStateTracking,
    /// The target is none that this library knows.
    #[error("the target is none that this library knows")]
    Incompatible,
    /// Memory ran out.
    #[error("out of memory")]
    NoMem,
    /// The value is a list of several numbers, of which this is the first.
    #[error("a list of several numbers, the first of which is {0}")]
    Incomplete(u64),
    /// A callback of the debugger failed. The debugger counted the fault.
    #[error("a callback failed")]
    CallbackError,
}

impl Rc {
    ghost use Rattle.omi_session.specs.Rc.{code_of};

    /// The number of the return code.
    pub fn code(&self) -> u8
        ensures { result ≡ code_of self.now }
    {
        match self {
            Rc::Unavailable => 1,
            Rc::StaleHandle => 2,
            Rc::BadInput => 3,
            Rc::Error { .. } => 4,
            Rc::Unsupported => 5,
            Rc::NeedsStateTracking => 6,
            Rc::Incompatible => 7,
            Rc::NoMem => 10,
            Rc::Incomplete(_) => 11,
            Rc::CallbackError => 12,
        }
    }
}
