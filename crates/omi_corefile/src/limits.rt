//! The limits of a core file. Each stands here alone: definitions, code and the crates above name it.

use omi_word::MOST_WORDS;

/// The most contexts of a core.
pub const MOST_CONTEXTS: u16 = 64;

/// The most segments of a core.
pub const MOST_SEGMENTS: u32 = 64;

/// The most words in all segments of a core together: those of an image.
pub const MOST_SEGMENT_WORDS: u64 = MOST_WORDS;

/// The most bytes of a core: the fields of so many contexts, segments and words.
pub const MOST_BYTES: u64 = 8_390_160;
