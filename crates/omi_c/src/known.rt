//! Words of the target that are known.

/// What stands at a byte address of the target, which is a multiple of 8: a word, or none where nothing is mapped.
#[repr(C)]
#[derive(Clone, Copy)]
pub struct Known {
    pub addr: u64,
    pub word: u64,
    pub mapped: bool,
}
