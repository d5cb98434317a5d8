//! A core that was opened.

use crate::lowest_first::LowestFirst;
use omi_calls::ToHost;
use omi_outside::Files;
use omi_session::Session;
use omi_word::Natives;

/// A core that was opened: a session with its words, which are read from its file where they are asked for, a page at a time, and the
/// native ids of the threads that it names, which rise.
pub struct OpenCore<'a, F: Files, H: ToHost> {
    pub session: Session<LowestFirst<'a, F>, H>,
    pub threads: Natives,
}

// Written out: docs/DECISIONS.md, "A drop written out".
impl<'a, F: Files, H: ToHost> Drop for OpenCore<'a, F, H> {
    fn drop(self) {
        let OpenCore {
            session: _session,
            threads: _threads,
        } = self;
    }
}
