// Files in memory which fail at the calls that a list has.
ghost use Rattle.std.specs.Prelude.{◌≡◌, ◌≢◌, ◌+◌, ◌<◌, ◌≤◌, List, ℕ, ◌↔◌, length, take, drop, IsTrue, IfOk, OnOk, OnErr, IsErr, IsErrOf, [], Option, Some, None};
ghost use Rattle.std.specs.List.{Contains};
ghost use Rattle.std.specs.Option.{option_map};
ghost use Rattle.omi_outside.specs.Outside.{AreBytes, content_len, holding, extended, HasCause};
ghost use Rattle.omi_outside.specs.Failing.{calls_made, failing_calls, IsCalled, IsNotCalled, IsToFail};
ghost use Rattle.omi_outside.specs.Memory.{told_of, read_faults, write_faults};
ghost use Rattle.omi_outside.specs.declared.memory_files.Call.{Call};

use crate::contents::{extend, hold, read_file, size_of_file};
use crate::{Failed, Files, OutOfMemory, Refused};
use std::alloc::Global;
use std::collections::BTreeMap;

/// A kind of call of `Files`.
#[derive(Clone, Copy, Debug, PartialEq, Eq)]
pub enum Call {
    Size,
    ReadAt,
    Create,
    Append,
}

/// How often each kind of call was made.
#[derive(Clone, Copy, Debug)]
struct Made {
    size: u64,
    read_at: u64,
    create: u64,
    append: u64,
}

/// Files in memory, with a list of the calls that are to fail.
pub struct MemFiles {
    alloc: Global,
    held: BTreeMap<String, Vec<u8>>,
    reads: u64,
    writes: u64,
    made: Made,
    failing: Vec<(Call, u64)>,
}

// Written out: docs/DECISIONS.md, "A drop written out".
impl Drop for MemFiles {
    fn drop(self) {
        let MemFiles {
            alloc: _alloc,
            held: _held,
            reads: _reads,
            writes: _writes,
            made: _made,
            failing: _failing,
        } = self;
    }
}

impl MemFiles {
    /// No files. `failing` lists the calls that are to fail, each by its number among the calls of
    /// its kind, from 1.
    pub fn new(alloc: Global, failing: Vec<(Call, u64)>) -> MemFiles
        ensures told { (name : List ℕ) → told_of result name ≡ Some None }
        ensures reads { read_faults result ≡ 0 }
        ensures writes { write_faults result ≡ 0 }
        ensures none_made { (call : Call) → calls_made result call ≡ 0 }
        ensures list { failing_calls result ≡ failing.items }
    {
        MemFiles {
            alloc,
            held: BTreeMap::new(alloc),
            reads: 0,
            writes: 0,
            made: Made {
                size: 0,
                read_at: 0,
                create: 0,
                append: 0,
            },
            failing,
        }
    }

    /// Makes a name hold these bytes. It counts as no call, and fails only for want of memory.
    pub fn put(&mut self, name: &str, bytes: &[u8]) -> Result<(), OutOfMemory>
        ensures put { OnOk result (told_of self.new name.now ≡ Some (Some bytes.now)) }
        ensures refused { OnErr result (told_of self.new ≡ told_of self.old) }
        ensures others { (other : List ℕ) → other ≢ name.now
            → told_of self.new other ≡ told_of self.old other }

        // What stays.
        ensures reads { read_faults self.new ≡ read_faults self.old }
        ensures writes { write_faults self.new ≡ write_faults self.old }
        ensures no_call { IsNotCalled self.old self.new }
    {
        hold(self.alloc, &mut self.held, name, bytes)
    }

    /// The bytes of a name, where there is such a file.
    pub fn bytes(&self, name: &str) -> Option<&[u8]>
        ensures { Some (option_map (λ bytes. bytes.now) result) ≡ told_of self.now name.now }
    {
        match self.held.get(name) {
            Some(bytes) => Some(bytes.as_slice()),
            None => None,
        }
    }
}

/// Whether the call of this kind and number is to fail.
fn is_failing(failing: &[(Call, u64)], call: Call, number: u64) -> bool
    ensures { IsTrue result ↔ Contains failing.now (call, number) }
{
    failing.contains(&(call, number))
}

impl Files for MemFiles {
    ghost told = { told_of };

    ghost reads = { read_faults };

    ghost writes = { write_faults };

    fn size(&mut self, name: &str) -> Result<Option<u64>, Refused>
        // It fails exactly where it was told to.
        ensures called { IsCalled Call.Size self.old self.new }
        ensures fails { IsErrOf result Refused.Failed ↔ IsToFail Call.Size self.new }

        // What each form says.
        ensures length { (content : Option (List ℕ)) → told_of self.old name.now ≡ Some content
            → IfOk result (λ size. size ≡ option_map length content) }
        ensures are_bytes { (bytes : List ℕ) → told_of self.old name.now ≡ Some (Some bytes)
            → OnOk result (AreBytes bytes) }
        ensures same { told_of self.new ≡ told_of self.old }
        ensures cause { HasCause (read_faults self.old) (read_faults self.new)
            (IsErrOf result Refused.Failed) }
        ensures writes { write_faults self.new ≡ write_faults self.old }
    {
        self.made.size = self.made.size.saturating_add(1);
        if is_failing(&self.failing, Call::Size, self.made.size) {
            self.reads = self.reads.saturating_add(1);
            return Err(Refused::Failed);
        }
        Ok(size_of_file(&self.held, name))
    }

    fn read_at(&mut self, name: &str, at: u64, to: &mut [u8]) -> Result<usize, Failed>
        requires room { 0 < length to.old }
        requires within { (content : Option (List ℕ)) → told_of self.old name.now ≡ Some content
            → at < content_len content }
        // It fails exactly where it was told to.
        ensures called { IsCalled Call.ReadAt self.old self.new }
        ensures fails { IsErr result ↔ IsToFail Call.ReadAt self.new }

        // What each form says.
        ensures count { IfOk result (λ count. (0 < count) × (count ≤ length to.new)) }
        ensures bytes { (bytes : List ℕ) → told_of self.old name.now ≡ Some (Some bytes)
            → IfOk result (λ count.
            (at + count ≤ length bytes) × (take count to.new ≡ take count (drop at bytes))) }
        ensures same { told_of self.new ≡ told_of self.old }
        ensures cause { HasCause (read_faults self.old) (read_faults self.new) (IsErr result) }
        ensures writes { write_faults self.new ≡ write_faults self.old }
    {
        self.made.read_at = self.made.read_at.saturating_add(1);
        if is_failing(&self.failing, Call::ReadAt, self.made.read_at) {
            self.reads = self.reads.saturating_add(1);
            return Err(Failed);
        }
        Ok(read_file(&self.held, name, at, to))
    }

    fn create(&mut self, name: &str) -> Result<(), Refused>
        // It fails exactly where it was told to.
        ensures called { IsCalled Call.Create self.old self.new }
        ensures fails { IsErrOf result Refused.Failed ↔ IsToFail Call.Create self.new }

        // What each form says.
        ensures made { OnOk result (told_of self.new name.now
            ≡ holding (told_of self.old name.now) []) }
        ensures refused { OnErr result (told_of self.new ≡ told_of self.old) }
        ensures others { (other : List ℕ) → other ≢ name.now
            → told_of self.new other ≡ told_of self.old other }
        ensures cause { HasCause (write_faults self.old) (write_faults self.new)
            (IsErrOf result Refused.Failed) }
        ensures reads { read_faults self.new ≡ read_faults self.old }
    {
        self.made.create = self.made.create.saturating_add(1);
        if is_failing(&self.failing, Call::Create, self.made.create) {
            self.writes = self.writes.saturating_add(1);
            return Err(Refused::Failed);
        }
        Ok(hold(self.alloc, &mut self.held, name, &[])?)
    }

    fn append(&mut self, name: &str, bytes: &[u8]) -> Result<(), Refused>
        // It fails exactly where it was told to.
        ensures called { IsCalled Call.Append self.old self.new }
        ensures fails { IsErrOf result Refused.Failed ↔ IsToFail Call.Append self.new }

        // What each form says.
        ensures added { OnOk result (told_of self.new name.now
            ≡ extended (told_of self.old name.now) bytes.now) }
        ensures refused { OnErr result (told_of self.new ≡ told_of self.old) }
        ensures others { (other : List ℕ) → other ≢ name.now
            → told_of self.new other ≡ told_of self.old other }
        ensures cause { HasCause (write_faults self.old) (write_faults self.new)
            (IsErrOf result Refused.Failed) }
        ensures reads { read_faults self.new ≡ read_faults self.old }
    {
        self.made.append = self.made.append.saturating_add(1);
        if is_failing(&self.failing, Call::Append, self.made.append) {
            self.writes = self.writes.saturating_add(1);
            return Err(Refused::Failed);
        }
        Ok(extend(self.alloc, &mut self.held, name, bytes)?)
    }
}
