// Named files, and what each call of them changes.
ghost use Rattle.std.specs.Prelude.{◌≡◌, ◌≢◌, ◌+◌, ◌<◌, ◌≤◌, List, ℕ, length, take, drop, IfOk, OnOk, OnErr, IsErr, IsErrOf, Option, Some, []};
ghost use Rattle.std.specs.Option.{option_map};
ghost use Rattle.omi_outside.specs.Outside.{AreBytes, Told, content_len, holding, extended, HasCause};
ghost use Rattle.omi_outside.specs.declared.files.Refused.TheVariants.{OutOfMemory};

use std::alloc::{AllocError, AllocFailed};

/// A fault of the outside. It was counted where it came.
#[derive(Clone, Copy, Debug, PartialEq, Eq)]
pub struct Failed;

/// Why a call of the outside did nothing.
#[derive(Clone, Copy, Debug, PartialEq, Eq)]
pub enum Refused {
    /// A fault, which was counted.
    Failed,
    /// Memory ran out.
    OutOfMemory,
}

impl From<AllocError> for Refused {
    ghost from_gives = { λ _ e. e ≡ OutOfMemory };

    fn from(_: AllocError) -> Refused {
        Refused::OutOfMemory
    }
}

impl<T: Drop> From<AllocFailed<T>> for Refused {
    ghost from_gives = { λ _ e. e ≡ OutOfMemory };

    fn from(_: AllocFailed<T>) -> Refused {
        Refused::OutOfMemory
    }
}

/// Named files. An implementation may leave the bytes under a name untold; the clauses on what a
/// call answers of bytes then say nothing.
pub trait Files {
    /// What is told of the bytes under a name.
    ghost told: { Self → List ℕ → Told };

    /// How many calls of `size` and `read_at` have failed.
    ghost reads: { Self → ℕ };

    /// How many calls of `create` and `append` have failed.
    ghost writes: { Self → ℕ };

    /// The length of a file in bytes, or None where there is no file of this name.
    fn size(&mut self, name: &str) -> Result<Option<u64>, Refused>
        ensures length { (content : Option (List ℕ)) → told self.old name.now ≡ Some content
            → IfOk result (λ size. size ≡ option_map length content) }
        ensures are_bytes { (bytes : List ℕ) → told self.old name.now ≡ Some (Some bytes)
            → OnOk result (AreBytes bytes) }

        // No bytes change. A fault is counted as one of reading.
        ensures same { told self.new ≡ told self.old }
        ensures cause { HasCause (reads self.old) (reads self.new) (IsErrOf result Refused.Failed) }
        ensures writes { writes self.new ≡ writes self.old };

    /// Fills a front of `to` with the file's bytes from place `at` on, and answers how many bytes.
    fn read_at(&mut self, name: &str, at: u64, to: &mut [u8]) -> Result<usize, Failed>
        requires room { 0 < length to.old }
        requires within { (content : Option (List ℕ)) → told self.old name.now ≡ Some content
            → at < content_len content }

        // At least one byte is read, and what is read is what the file holds there.
        ensures count { IfOk result (λ count. (0 < count) × (count ≤ length to.new)) }
        ensures bytes { (bytes : List ℕ) → told self.old name.now ≡ Some (Some bytes)
            → IfOk result (λ count. (at + count ≤ length bytes)
            × (take count to.new ≡ take count (drop at bytes))) }

        // No bytes change. A fault is counted as one of reading.
        ensures same { told self.new ≡ told self.old }
        ensures cause { HasCause (reads self.old) (reads self.new) (IsErr result) }
        ensures writes { writes self.new ≡ writes self.old };

    /// Makes the name hold no bytes, whether it was there or not.
    fn create(&mut self, name: &str) -> Result<(), Refused>
        // This name alone changes, and none where the call is refused.
        ensures made { OnOk result (told self.new name.now ≡ holding (told self.old name.now) []) }
        ensures refused { OnErr result (told self.new ≡ told self.old) }
        ensures others { (other : List ℕ) → other ≢ name.now
            → told self.new other ≡ told self.old other }

        // A fault is counted as one of writing.
        ensures cause { HasCause (writes self.old) (writes self.new)
            (IsErrOf result Refused.Failed) }
        ensures reads { reads self.new ≡ reads self.old };

    /// Adds the bytes at the end of a file. A name that isn't there is made.
    fn append(&mut self, name: &str, bytes: &[u8]) -> Result<(), Refused>
        // This name alone changes, and none where the call is refused.
        ensures added { OnOk result (told self.new name.now
            ≡ extended (told self.old name.now) bytes.now) }
        ensures refused { OnErr result (told self.new ≡ told self.old) }
        ensures others { (other : List ℕ) → other ≢ name.now
            → told self.new other ≡ told self.old other }

        // A fault is counted as one of writing.
        ensures cause { HasCause (writes self.old) (writes self.new)
            (IsErrOf result Refused.Failed) }
        ensures reads { reads self.new ≡ reads self.old };
}
