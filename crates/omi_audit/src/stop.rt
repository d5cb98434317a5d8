//! Why an audit goes no further.

ghost use Rattle.std.specs.Prelude.{◌≡◌};
ghost use Rattle.omi_audit.specs.declared.stop.Stop.TheVariants.{Fault};
ghost use Rattle.omi_audit.specs.Judged.{answer};
ghost use Rattle.omi_audit.specs.declared.verdict.AuditFault.TheVariants.{OutOfMemory};

use crate::verdict::{AuditFault, Verdict};
use std::alloc::{AllocError, AllocFailed};

/// Why an audit goes no further: a clause fails at a word or a record, or there is no verdict.
#[derive(Clone, Copy, Debug, PartialEq, Eq)]
pub enum Stop {
    Fails { addr: u64, field: u8, clause: u8 },
    Fault(AuditFault),
}

impl From<AuditFault> for Stop {
    ghost from_gives = { λ fault stop. stop ≡ Fault fault };

    fn from(fault: AuditFault) -> Stop {
        Stop::Fault(fault)
    }
}

impl From<AllocError> for Stop {
    ghost from_gives = { λ _ stop. stop ≡ Fault OutOfMemory };

    fn from(_: AllocError) -> Stop {
        Stop::Fault(AuditFault::OutOfMemory)
    }
}

impl<T: Drop> From<AllocFailed<T>> for Stop {
    ghost from_gives = { λ _ stop. stop ≡ Fault OutOfMemory };

    fn from(_: AllocFailed<T>) -> Stop {
        Stop::Fault(AuditFault::OutOfMemory)
    }
}

/// The answer of an audit that met so many records, or stopped.
pub fn answer_of(records: Result<usize, Stop>) -> Result<Verdict, AuditFault>
    ensures { result ≡ answer records }
{
    match records {
        Ok(records) => Ok(Verdict::Yes {
            records: records as u64,
        }),
        Err(
            Stop::Fails {
                addr,
                field,
                clause,
            },
        ) => Ok(Verdict::No {
            addr,
            field,
            clause,
        }),
        Err(Stop::Fault(fault)) => Err(fault),
    }
}
