//! What a core holds.

ghost use Rattle.std.specs.Prelude.{◌≡◌, ◌≤◌, IsTrue};
ghost use Rattle.omi_corefile.specs.Limits.{within_limits};

use crate::SegList;
use omi_word::Natives;

/// What a core holds. The order is that of the bytes of a word: 0 for the lowest first, 1 for the highest. The contexts are the native ids of threads, which rise.
pub struct CoreImage {
    pub order: u8,
    pub contexts: Natives,
    pub segments: SegList,
    pub ghost limits: { IsTrue (within_limits order contexts segments) },
}

impl CoreImage {
    /// The core with these contexts and segments whose words have another order.
    pub fn with_order(self, order: u8) -> CoreImage
        requires { order ≤ 1 }
        ensures order { result.order ≡ order }
        ensures contexts { result.contexts ≡ self.contexts }
        ensures segments { result.segments ≡ self.segments }
    {
        let CoreImage {
            order: _,
            contexts,
            segments,
        } = self;
        CoreImage {
            order,
            contexts,
            segments,
        }
    }
}

// Written out: docs/DECISIONS.md, "A drop written out".
impl Drop for CoreImage {
    fn drop(self) {
        let CoreImage {
            order: _order,
            contexts: _contexts,
            segments: _segments,
        } = self;
    }
}
