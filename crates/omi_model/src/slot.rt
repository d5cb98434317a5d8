//! The slots in which objects live.

/// A slot: how many generations it has had, and the object that lives in it.
#[derive(Drop)]
pub struct Slot<T> {
    pub generations: u64,
    pub live: Option<T>,
}
