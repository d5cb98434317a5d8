//! Locks of critical names: what it changes to take one or to give it back.

ghost use Rattle.std.specs.Prelude.{◌≡◌, ◌≤◌, ℕ, None, OnOk, OnErr, length, slice_get, unwrap_or};
ghost use Rattle.omi_machine.specs.Kept.{state_of};
ghost use Rattle.omi_model.specs.Settings.{with_lock};

use crate::State;
use omi_model::Rows;
use omi_word::OutOfMemory;

/// Keeps at least so many locks. Those that are new are free.
fn keep_locks(locks: &mut Rows<Option<u8>>, count: usize) -> Result<(), OutOfMemory>
    ensures same { (k : ℕ) → unwrap_or (slice_get locks.new k) None
        ≡ unwrap_or (slice_get locks.old k) None }
    ensures done { OnOk result (count ≤ length locks.new) }
{
    for _ in locks.len()..count {
        locks.push(None)?;
    }
    Ok(())
}

/// A lock has another holder, or none. Without room the state stays.
pub(crate) fn set_lock(s: &mut State, k: u8, holder: Option<u8>) -> Result<(), OutOfMemory>
    ensures done { OnOk result (state_of s.new ≡ with_lock (state_of s.old) k holder) }
    ensures refused { OnErr result (state_of s.new ≡ state_of s.old) }
{
    keep_locks(&mut s.locks, k as usize + 1)?;
    s.locks.exchange(k as usize, holder);
    Ok(())
}
