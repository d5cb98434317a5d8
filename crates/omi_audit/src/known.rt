//! What is known of a record without reading its words again: whether a thread has begun, and whether a region or a task was met.

ghost use Rattle.std.specs.Prelude.{◌≡◌, ◌≢◌, true, false, nat_eq, is_some};
ghost use Rattle.std.specs.List.{list_any};
ghost use Rattle.omi_layout.specs.Field.{threads};
ghost use Rattle.omi_rep.specs.Look.{live_at, slot_at};
ghost use Rattle.omi_session.specs.Named.{record_kind};
ghost use Rattle.omi_word.specs.Words.{Words};
ghost use Rattle.omi_audit.specs.Judged.{Knows, KnowsThreads};

use crate::search::Search;
use omi_handle::Kind;
use omi_layout::Layout;

impl Search {
    /// Whether the record of a thread that has begun begins at an address. All threads were judged.
    pub fn is_begun(&self, layout: &Layout, addr: u64) -> bool
        requires { KnowsThreads layout.now.table self.now }
        ensures { (memory : Words) → Knows layout.now.table memory self.now
            → result ≡ is_some (live_at layout.now.table memory threads addr) }
    {
        match layout.thread_of(addr) {
            Some(thread) => self.begun[thread as usize],
            None => false,
        }
    }

    /// Whether a region or a task of this kind was met at an address.
    pub fn has_met(&self, layout: &Layout, kind: Kind, addr: u64) -> bool
        ensures met { result ≡ true → list_any (nat_eq addr) self.now.met.keys ≡ true }
        ensures lives { (memory : Words) → Knows layout.now.table memory self.now
            → result ≡ true
            → is_some (live_at layout.now.table memory (record_kind kind) addr) ≡ true }
        ensures new { result ≡ false → record_kind kind ≢ threads
            → is_some (slot_at layout.now.table (record_kind kind) addr) ≡ true
            → list_any (nat_eq addr) self.now.met.keys ≡ false }
    {
        let place = match kind {
            Kind::Thread => false,
            Kind::Region => layout.region_of(addr).is_some(),
            Kind::Task => layout.task_of(addr).is_some(),
        };
        place && self.met.contains(&addr)
    }
}
