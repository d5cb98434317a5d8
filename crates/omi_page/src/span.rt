//! Where the words of a segment stand in a core file.

ghost use Rattle.std.specs.Prelude.{◌≡◌, ◌+◌, ◌*◌, ◌%◌, ◌^◌, ◌<◌, ◌≤◌};
ghost use Rattle.omi_word.specs.declared.limits.TheConstants.{MEMORY_END};

use omi_list::List;

/// A segment whose words are not read: the byte address of its first word, the number of its words, and the place of the
/// first one in the file, in bytes.
#[derive(Drop)]
pub struct Span {
    pub start: u64,
    pub count: u64,
    pub place: u64,
    pub ghost aligned: { start % 8 ≡ 0 },
    pub ghost low: { start ≤ MEMORY_END },
    pub ghost few: { 8 * count < 2 ^ 63 },
    pub ghost fits: { place + 8 * count < 2 ^ 64 },
}

/// A list of segments whose words are not read.
pub type SpanList = List<Span>;
