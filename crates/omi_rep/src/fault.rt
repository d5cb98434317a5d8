//! Why a look at words has no answer.

/// Why a look at words has no answer.
#[derive(Clone, Copy, Debug, PartialEq, Eq)]
pub enum LookFault {
    /// A word of the record at this address isn't mapped or is out of range, by the number of its field. Or the address is
    /// that to which this field of another record points, and no live record is there.
    Damaged { addr: u64, field: u8 },
    /// A chain of scheduling tasks or of enclosing regions meets this address a second time.
    Cycle { addr: u64 },
}
