//! What a refusal of the library is handed on as.

ghost use Rattle.std.specs.Prelude.{◌≡◌};
ghost use Rattle.omi_commands.specs.Inquiries.{refusal_of_code, refusal_of_walk};

use omi_frame::{Input, Refusal};
use omi_session::Rc;
use omi_walk::WalkFault;

/// What the code of a session that doesn't open, or of an inquiry on a handle, is handed on as: a callback that fails is a read that failed.
pub fn refusal_of_code(rc: Rc) -> Refusal
    ensures { result ≡ refusal_of_code rc }
{
    match rc {
        Rc::CallbackError => Refusal::ReadFault(Input::Core),
        Rc::Error { addr, field } => Refusal::Damaged { addr, field },
        _ => Refusal::Incompatible,
    }
}

/// What the fault of a walk is handed on as.
pub fn refusal_of_walk(fault: WalkFault) -> Refusal
    ensures { result ≡ refusal_of_walk fault }
{
    match fault {
        WalkFault::Damaged { addr, field } => Refusal::Damaged { addr, field },
        WalkFault::Cycle { addr } => Refusal::Cycle { addr },
        WalkFault::Callback => Refusal::ReadFault(Input::Core),
        WalkFault::OutOfMemory => Refusal::OutOfMemory,
    }
}
