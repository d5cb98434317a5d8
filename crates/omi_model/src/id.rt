//! The names of regions and tasks.

/// The name of a region or a task: the thread that made it, its slot among that thread's records of the kind, and
/// how many objects the slot had before.
#[derive(Clone, Copy, Debug, PartialEq, Eq)]
pub struct Id {
    pub creator: u8,
    pub slot: u16,
    pub generation: u32,
}

/// The name of a task, printed `kC.S.G`.
#[derive(Clone, Copy, Debug, PartialEq, Eq)]
pub struct Tid(pub Id);

/// The name of a region, printed `rC.S.G`.
#[derive(Clone, Copy, Debug, PartialEq, Eq)]
pub struct Rid(pub Id);
