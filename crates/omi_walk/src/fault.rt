//! Why a walk has no answer, and what it makes of the refusal of an inquiry.

ghost use Rattle.std.specs.Prelude.{◌≡◌};
ghost use Rattle.std.specs.FinMap.{get};
ghost use Rattle.omi_walk.specs.declared.fault.WalkFault.TheVariants.{OutOfMemory};
ghost use Rattle.omi_walk.specs.Fault as the;

use omi_calls::{Callbacks, ToHost};
use omi_handle::Held;
use omi_layout::Field;
use omi_session::{Rc, Session, life_field};
use std::alloc::{AllocError, AllocFailed};
use thiserror::Error;

/// Why a walk has no answer.
#[derive(Clone, Copy, Debug, PartialEq, Eq, Error)]
pub enum WalkFault {
    /// A word of the record at this byte address isn't mapped or is out of range, by the number of its field. Or the address is
    /// that to which this field of another record points, and no live record is there.
    #[error("damaged at {addr:#x}, field {field}")]
    Damaged { addr: u64, field: u8 },
    /// A chain of scheduling tasks or of enclosing regions meets this address a second time.
    #[error("a chain meets the record at {addr:#x} a second time")]
    Cycle { addr: u64 },
    /// A callback failed.
    #[error("a callback failed")]
    Callback,
    /// Memory ran out.
    #[error("out of memory")]
    OutOfMemory,
}

impl From<AllocError> for WalkFault {
    ghost from_gives = { λ _ e. e ≡ OutOfMemory };

    fn from(_: AllocError) -> WalkFault {
        WalkFault::OutOfMemory
    }
}

impl<T: Drop> From<AllocFailed<T>> for WalkFault {
    ghost from_gives = { λ _ e. e ≡ OutOfMemory };

    fn from(_: AllocFailed<T>) -> WalkFault {
        WalkFault::OutOfMemory
    }
}

/// The fault of an object whose record's life word is no longer the one that its handle keeps.
fn stale(found: Option<Held>) -> WalkFault
    ensures { result ≡ the.stale found }
{
    match found {
        Some(held) => WalkFault::Damaged {
            addr: held.addr,
            field: life_field(held.kind).number(),
        },
        None => WalkFault::Damaged { addr: 0, field: 0 },
    }
}

/// What the refusal of an inquiry about what is held is to a walk.
fn fault_from(found: Option<Held>, rc: Rc) -> WalkFault
    ensures { result ≡ the.fault_of found rc }
{
    match rc {
        Rc::Error { addr, field } => WalkFault::Damaged { addr, field },
        Rc::CallbackError => WalkFault::Callback,
        Rc::NoMem => WalkFault::OutOfMemory,
        _ => stale(found),
    }
}

/// What the refusal of an inquiry on a handle is to a walk.
pub(crate) fn fault_of<C: Callbacks, F: ToHost>(
    s: &Session<C, F>,
    pair: (u64, u64),
    rc: Rc,
) -> WalkFault
    ensures { result ≡ the.fault_of (get s.now.handles.held pair) rc }
{
    fault_from(s.find(pair.0, pair.1), rc)
}

/// The fault of a region whose size is another one than before.
fn damaged_size<C: Callbacks, F: ToHost>(s: &Session<C, F>, pair: (u64, u64)) -> WalkFault
    ensures { result ≡ the.damaged_size (get s.now.handles.held pair) }
{
    match s.find(pair.0, pair.1) {
        Some(region) => WalkFault::Damaged {
            addr: region.addr,
            field: Field::RegionSize.number(),
        },
        None => WalkFault::Damaged { addr: 0, field: 0 },
    }
}

/// What the refusal of an inquiry for a member of a region is to a walk, where the member's number was below the region's size. Where it
/// isn't below the size that is read again, this size is damaged.
pub(crate) fn member_fault<C: Callbacks, F: ToHost>(
    s: &Session<C, F>,
    pair: (u64, u64),
    rc: Rc,
) -> WalkFault
    ensures { result ≡ the.member_fault (get s.now.handles.held pair) rc }
{
    match rc {
        Rc::BadInput => damaged_size(s, pair),
        _ => fault_of(s, pair, rc),
    }
}

/// What the answer of an inquiry about what is held is to a walk.
pub(crate) fn walked_from<T: Drop>(
    found: Option<Held>,
    answer: Result<T, Rc>,
) -> Result<T, WalkFault>
    ensures { result ≡ the.walked found answer }
{
    match answer {
        Ok(x) => Ok(x),
        Err(rc) => Err(fault_from(found, rc)),
    }
}

/// What the answer of an inquiry on a handle is to a walk.
pub(crate) fn walked<T: Drop, C: Callbacks, F: ToHost>(
    s: &Session<C, F>,
    pair: (u64, u64),
    answer: Result<T, Rc>,
) -> Result<T, WalkFault>
    ensures { result ≡ the.walked (get s.now.handles.held pair) answer }
{
    walked_from(s.find(pair.0, pair.1), answer)
}

/// What the refusal of an inquiry about what is held is to a walk, where there may be no such object.
pub(crate) fn absent_from<T: Drop>(found: Option<Held>, rc: Rc) -> Result<Option<T>, WalkFault>
    ensures { result ≡ the.absent found rc }
{
    match rc {
        Rc::Unavailable => Ok(None),
        _ => Err(fault_from(found, rc)),
    }
}

/// What the refusal of an inquiry on a handle is to a walk, where there may be no such object.
pub(crate) fn absent<T: Drop, C: Callbacks, F: ToHost>(
    s: &Session<C, F>,
    pair: (u64, u64),
    rc: Rc,
) -> Result<Option<T>, WalkFault>
    ensures { result ≡ the.absent (get s.now.handles.held pair) rc }
{
    absent_from(s.find(pair.0, pair.1), rc)
}

/// The same of an inquiry for a state, where the target may keep none.
pub(crate) fn untracked<T: Drop, C: Callbacks, F: ToHost>(
    s: &Session<C, F>,
    pair: (u64, u64),
    rc: Rc,
) -> Result<Option<T>, WalkFault>
    ensures { result ≡ the.untracked (get s.now.handles.held pair) rc }
{
    match rc {
        Rc::NeedsStateTracking => Ok(None),
        _ => Err(fault_of(s, pair, rc)),
    }
}
