// A sink in memory which fails at the puts that a list has.
ghost use Rattle.std.specs.Prelude.{◌≡◌, ◌↔◌, [], OnOk, OnErr, IsErrOf, Some};
ghost use Rattle.omi_outside.specs.Failing.{puts_made, failing_puts, IsPut, IsPutToFail};
ghost use Rattle.omi_outside.specs.Memory.{put_bytes, put_faults, put_wants};
ghost use Rattle.omi_outside.specs.Outside.{put_on, HasCause};

use crate::contents::add;
use crate::{Refused, Sink};
use std::alloc::Global;

/// A sink in memory, with a list of the puts that are to fail.
pub struct MemSink {
    bytes: Vec<u8>,
    faults: u64,
    wants: u64,
    made: u64,
    failing: Vec<u64>,
}

// Written out: docs/DECISIONS.md, "A drop written out".
impl Drop for MemSink {
    fn drop(self) {
        let MemSink {
            bytes: _bytes,
            faults: _faults,
            wants: _wants,
            made: _made,
            failing: _failing,
        } = self;
    }
}

impl MemSink {
    /// Nothing is put yet. `failing` lists the puts that are to fail, each by its number from 1.
    pub fn new(alloc: Global, failing: Vec<u64>) -> MemSink
        ensures told { put_bytes result ≡ Some [] }
        ensures faults { put_faults result ≡ 0 }
        ensures wants { put_wants result ≡ 0 }
        ensures none_made { puts_made result ≡ 0 }
        ensures list { failing_puts result ≡ failing.items }
    {
        MemSink {
            bytes: Vec::new(alloc),
            faults: 0,
            wants: 0,
            made: 0,
            failing,
        }
    }

    /// The bytes put so far.
    pub fn bytes(&self) -> &[u8]
        ensures { put_bytes self.now ≡ Some result.now }
    {
        &self.bytes
    }
}

impl Sink for MemSink {
    ghost told = { put_bytes };

    ghost faults = { put_faults };

    ghost wants = { put_wants };

    fn put(&mut self, bytes: &[u8]) -> Result<(), Refused>
        // It fails exactly where it was told to.
        ensures put { IsPut self.old self.new }
        ensures fails { IsErrOf result Refused.Failed ↔ IsPutToFail self.new }

        // What each form says.
        ensures added { OnOk result (put_bytes self.new ≡ put_on (put_bytes self.old) bytes.now) }
        ensures refused { OnErr result (put_bytes self.new ≡ put_bytes self.old) }
        ensures cause { HasCause (put_faults self.old) (put_faults self.new)
            (IsErrOf result Refused.Failed) }
        ensures want { HasCause (put_wants self.old) (put_wants self.new)
            (IsErrOf result Refused.OutOfMemory) }
        ensures ok_faults { OnOk result (put_faults self.new ≡ put_faults self.old) }
        ensures ok_wants { OnOk result (put_wants self.new ≡ put_wants self.old) }
        ensures failed_wants { IsErrOf result Refused.Failed
            → put_wants self.new ≡ put_wants self.old }
        ensures want_faults { IsErrOf result Refused.OutOfMemory
            → put_faults self.new ≡ put_faults self.old }
    {
        self.made = self.made.saturating_add(1);
        if self.failing.contains(&self.made) {
            self.faults = self.faults.saturating_add(1);
            return Err(Refused::Failed);
        }
        add(&mut self.bytes, &mut self.wants, bytes)
    }
}
