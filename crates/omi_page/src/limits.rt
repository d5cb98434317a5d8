//! The sizes of pages. Each stands here alone: definitions and code name it.

/// The bytes of a page: 512 words.
pub const PAGE_BYTES: usize = 4_096;

/// The most pages that are kept.
pub const MOST_PAGES: usize = 16;

/// The bytes that tell whether a file is an ELF file.
pub const MAGIC_BYTES: usize = 4;

/// The bytes of a core file before its contexts.
pub const HEADER_BYTES: usize = 16;

/// The bytes of the most contexts that a core has.
pub const CONTEXT_BYTES: usize = 512;

/// The bytes of a segment before its words: its start address and their number.
pub const SPAN_BYTES: usize = 16;

/// The most segments whose words are not read: an ELF file has no more program headers. As spans they take 1.6 megabytes.
pub const MOST_SPANS: usize = 65_535;

/// Every word stands below this byte address, 2^63 + 2^48: a segment starts below the end of memory, 2^47, or there, and a file has fewer
/// than 2^63 bytes.
pub const WORDS_END: u64 = 0x8001_0000_0000_0000;
