//! The numbers of an ELF64 core file. Each stands here alone: definitions, code and the crates above name it.

/// The most bytes of an ELF core file that is read.
pub const MOST_ELF_BYTES: u64 = 16_777_216;

/// The four bytes that every ELF file begins with.
pub const ELF_MAGIC: [u8; 4] = [0x7f, 0x45, 0x4c, 0x46];

/// The bytes of the file's header.
pub const HEADER_BYTES: u64 = 64;

/// The bytes of a program header.
pub const PROGRAM_HEADER_BYTES: u64 = 56;

/// The bytes of a note in front of its name: two sizes and a type.
pub const NOTE_FRONT_BYTES: u64 = 12;

/// `ET_CORE`, the type of a core file.
pub const CORE_TYPE: u16 = 4;

/// `PT_LOAD`, the type of a segment of memory.
pub const LOAD_SEGMENT: u32 = 1;

/// `PT_NOTE`, the type of a segment of notes.
pub const NOTE_SEGMENT: u32 = 4;

/// The type of the note that holds the native ids of threads.
pub const NOTE_TYPE: u32 = 1;

/// The name of that note, with the zero byte that ends it.
pub const NOTE_NAME: [u8; 5] = [0x4f, 0x4d, 0x50, 0x44, 0];

/// `NT_PRSTATUS`, the type of the note that holds the status of a thread.
pub const STATUS_TYPE: u32 = 1;

/// The name of that note, with the zero byte that ends it: `CORE`.
pub const STATUS_NAME: [u8; 5] = [0x43, 0x4f, 0x52, 0x45, 0];

/// The bytes with which a note of either name begins: what stands in front of its name, and the name.
pub const NOTE_BEGINNING: usize = 17;

/// The most bytes of the ids that it lists: those of the most contexts that a core has.
pub const MOST_ID_BYTES: usize = 512;
