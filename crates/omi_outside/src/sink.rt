// Where a program prints, and what each put changes.
ghost use Rattle.std.specs.Prelude.{◌≡◌, List, ℕ, OnOk, OnErr, IsErrOf, Option};
ghost use Rattle.omi_outside.specs.Outside.{put_on, HasCause};

use crate::Refused;

/// Where a program prints. An implementation may leave the bytes untold.
pub trait Sink {
    /// The bytes put so far, where they are told.
    ghost told: { Self → Option (List ℕ) };

    /// How many puts have failed.
    ghost faults: { Self → ℕ };

    /// How many puts were refused for want of memory.
    ghost wants: { Self → ℕ };

    /// Puts the bytes after those put so far.
    fn put(&mut self, bytes: &[u8]) -> Result<(), Refused>
        ensures added { OnOk result (told self.new ≡ put_on (told self.old) bytes.now) }
        ensures refused { OnErr result (told self.new ≡ told self.old) }

        // Each refusal is counted, and a count rises by its own refusals alone.
        ensures cause { HasCause (faults self.old) (faults self.new)
            (IsErrOf result Refused.Failed) }
        ensures want { HasCause (wants self.old) (wants self.new)
            (IsErrOf result Refused.OutOfMemory) }
        ensures ok_faults { OnOk result (faults self.new ≡ faults self.old) }
        ensures ok_wants { OnOk result (wants self.new ≡ wants self.old) }
        ensures failed_wants { IsErrOf result Refused.Failed → wants self.new ≡ wants self.old }
        ensures want_faults { IsErrOf result Refused.OutOfMemory
            → faults self.new ≡ faults self.old };
}
