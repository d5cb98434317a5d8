//! Numbers of the format.

/// The most bytes of a file: a place in one is an `off_t`, whose highest bit is the sign.
pub const MOST_BYTES: u64 = 0x7fff_ffff_ffff_ffff;

/// `PN_XNUM`, an `e_phnum` that says that the number of program headers stands elsewhere.
pub const MANY_HEADERS: u16 = 0xffff;

/// Where `e_phnum` stands in a file.
pub const MANY_HEADERS_PLACE: u64 = 56;

/// Where `pr_pid` stands in the description of a note of NT_PRSTATUS, and where it ends.
pub const PID_PLACE: u64 = 32;

pub const PID_END: u64 = 36;
