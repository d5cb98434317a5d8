//! The faults of core files, with their numbers and names.

ghost use Rattle.std.specs.Prelude.{◌≡◌};
ghost use Rattle.omi_corefile.specs.Faults.{core_fault_number, core_fault_text};
ghost use Rattle.omi_corefile.specs.declared.fault.CoreError.TheVariants.{OutOfMemory as memory};

use std::alloc::AllocError;
use thiserror::Error;

/// Why bytes are no core: the first fault from the front, each field being judged once it is whole.
#[derive(Clone, Copy, Debug, PartialEq, Eq)]
pub enum CoreFault {
    /// The first eight bytes aren't `OMPDCOR1`.
    BadMagic,
    /// This version isn't 1.
    Version(u8),
    /// This order is neither 0 nor 1.
    Order(u8),
    /// The file ends at this place before a field is whole.
    Short(u64),
    /// So many words more would pass the limit of all segments.
    TooLarge(u64),
    /// At this place stands a count of more than 64 segments, a start address that breaks its rule, or a count of no words.
    SegmentOrder(u64),
    /// At this place stands a count of more than 64 contexts, or an id that isn't above the one before.
    BadContext(u64),
    /// Bytes follow the last segment, from this place on.
    Trailing(u64),
}

impl CoreFault {
    /// The fault's number, from 1 to 8.
    pub fn number(&self) -> u8
        ensures { result ≡ core_fault_number self.now }
    {
        match self {
            CoreFault::BadMagic => 1,
            CoreFault::Version(_) => 2,
            CoreFault::Order(_) => 3,
            CoreFault::Short(_) => 4,
            CoreFault::TooLarge(_) => 5,
            CoreFault::SegmentOrder(_) => 6,
            CoreFault::BadContext(_) => 7,
            CoreFault::Trailing(_) => 8,
        }
    }

    /// The fault's name.
    pub fn text(&self) -> &'static str
        ensures { result.now ≡ core_fault_text self.now }
    {
        match self {
            CoreFault::BadMagic => "BadMagic",
            CoreFault::Version(_) => "Version",
            CoreFault::Order(_) => "Order",
            CoreFault::Short(_) => "Short",
            CoreFault::TooLarge(_) => "TooLarge",
            CoreFault::SegmentOrder(_) => "SegmentOrder",
            CoreFault::BadContext(_) => "BadContext",
            CoreFault::Trailing(_) => "Trailing",
        }
    }
}

/// Why a core could not be read.
#[derive(Clone, Copy, Debug, PartialEq, Eq, Error)]
pub enum CoreError {
    /// The bytes are no core, by the field at this place.
    #[error("no core: {why:?} at {at}")]
    Fault { at: u64, why: CoreFault },
    #[error("out of memory")]
    OutOfMemory,
}

impl From<AllocError> for CoreError {
    ghost from_gives = { λ _ e. e ≡ memory };

    fn from(_e: AllocError) -> CoreError {
        CoreError::OutOfMemory
    }
}
