//! The words of a core, by their addresses.

ghost use Rattle.std.specs.Prelude.{◌≡◌};
ghost use Rattle.omi_calls.specs.Told.{aligned_word_at};
ghost use Rattle.omi_calls.specs.CoreWords.{word_of, words_of_segments};

use omi_corefile::{CoreImage, Segment};
use omi_word::WordMemory;

/// The word of a segment at a byte address from its start on.
fn segment_word(segment: &Segment, addr: u64) -> Option<u64>
    ensures { result ≡ word_of segment.now addr }
{
    if addr < segment.start {
        return None;
    }
    let place = ((addr - segment.start) / 8) as usize;
    if place < segment.words.len() {
        Some(*segment.words.get(place))
    } else {
        None
    }
}

/// The word of a core at a byte address. None where the address is unaligned or no word stands
/// there.
pub fn core_word(core: &CoreImage, addr: u64) -> Option<u64>
    ensures { result ≡ aligned_word_at (words_of_segments core.now.segments) addr }
{
    if addr % 8 != 0 {
        return None;
    }
    for at in 0..core.segments.len() {
        let segment = core.segments.get(at);
        if let Some(word) = segment_word(segment, addr) {
            return Some(word);
        }
    }
    None
}

/// The words of a core, as a memory.
#[derive(Clone, Copy)]
pub struct CoreWords<'a> {
    pub core: &'a CoreImage,
}

impl<'a> WordMemory for CoreWords<'a> {
    ghost words = { λ words. aligned_word_at (words_of_segments words.core.now.segments) };

    fn word(&self, addr: u64) -> Option<u64> {
        core_word(self.core, addr)
    }
}
