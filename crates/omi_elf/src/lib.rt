//! ELF64 core files: what one says in the words of the System V ABI, and how a core is written as one.
#![tactic(auto)]

mod decoding;
mod encoding;
mod fault;
mod gathering;
mod header;
mod judging;
mod limits;
mod notes;
mod numbers;
mod program_header;
mod reading;

pub use decoding::{ElfContents, decode_elf, read_elf};
pub use encoding::encode_elf;
pub use fault::{ElfError, ElfFault, ElfReadError};
pub use gathering::ids_of;
pub use header::{Header, begins_as_elf};
pub use judging::sort_by_start;
pub use limits::{
    CORE_TYPE, ELF_MAGIC, HEADER_BYTES, LOAD_SEGMENT, MOST_ELF_BYTES, NOTE_FRONT_BYTES, NOTE_NAME,
    NOTE_SEGMENT, NOTE_TYPE, PROGRAM_HEADER_BYTES, STATUS_NAME, STATUS_TYPE,
};
pub use notes::{Note, Place, first_note, note_at};
pub use numbers::number32;
pub use omi_list::OutOfMemory;
pub use program_header::ProgramHeader;
pub use reading::{read_header, read_headers};
