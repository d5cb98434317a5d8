//! Places of records.

/// The place of a region's or a task's record: the thread that makes it, and its slot among that thread's records of
/// the kind.
#[derive(Clone, Copy)]
pub struct Place {
    pub creator: u8,
    pub slot: u16,
}
