//! What inquiries answer to C. In each answer stands a code first: 0, a return code of OMPD, or the one below; and then, but for
//! an entry of an enumeration, a place: the byte address of the word that is needed, of a damaged record or pointer, or the number of a
//! word of the layout table that is wrong. All else is 0 where the code isn't 0, but for the number of an Incomplete.

/// The code of an answer that has a value.
pub const OK: u32 = 0;

/// The code where a word is needed that isn't known. The place is its byte address.
pub const NEEDS_WORD: u32 = 255;

/// An object: the byte address of its record, and the life word that the record has while the object lives.
#[repr(C)]
#[derive(Clone, Copy)]
pub struct Object {
    pub addr: u64,
    pub life: u64,
}

/// Why there is no value.
#[derive(Clone, Copy)]
pub struct Refusal {
    pub code: u32,
    pub place: u64,
}

/// An object that was found.
#[repr(C)]
#[derive(Clone, Copy)]
pub struct Found {
    pub code: u32,
    pub place: u64,
    pub object: Object,
}

/// A number. Where the code is Incomplete, it is the first of several.
#[repr(C)]
#[derive(Clone, Copy)]
pub struct Number {
    pub code: u32,
    pub place: u64,
    pub number: u64,
}

/// The state of a thread, and the id on which it waits.
#[repr(C)]
#[derive(Clone, Copy)]
pub struct State {
    pub code: u32,
    pub place: u64,
    pub state: u32,
    pub wait: u64,
}

/// The frames of a task by their byte addresses, each 0 where there is none, with their flags.
#[repr(C)]
#[derive(Clone, Copy)]
pub struct TaskFrames {
    pub code: u32,
    pub place: u64,
    pub exit: u64,
    pub enter: u64,
    pub exit_flag: u8,
    pub enter_flag: u8,
}

/// The entry of an enumeration behind another: its number, its scope where it is a control variable, whether more follow, and the
/// length of its name in bytes.
#[repr(C)]
#[derive(Clone, Copy)]
pub struct Entry {
    pub code: u32,
    pub next: u32,
    pub scope: u32,
    pub more: bool,
    pub length: u64,
}

/// The length of a text in bytes. As many of them as there was room for stand at the front of the bytes that were lent.
#[repr(C)]
#[derive(Clone, Copy)]
pub struct Text {
    pub code: u32,
    pub place: u64,
    pub length: u64,
}

/// The verdict on words: Yes, where so many records are reached, or the clause that fails first, from 1 to 8, with the byte address and the
/// number of the field at which it fails.
#[repr(C)]
#[derive(Clone, Copy)]
pub struct Audited {
    pub code: u32,
    pub place: u64,
    pub yes: bool,
    pub records: u64,
    pub addr: u64,
    pub field: u8,
    pub clause: u8,
}
