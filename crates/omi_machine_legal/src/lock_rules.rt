//! The event rules of locks, decided.

ghost use Rattle.std.specs.Prelude.{◌≡◌, ◌↔◌, None, Some, true};
ghost use Rattle.omi_machine.specs.Kept.{state_of};

use omi_machine::State;

/// Whether a lock is taken: nobody holds it.
pub fn may_lock(s: &State, k: u8) -> bool
    ensures { (result ≡ true) ↔ ((state_of s.now).locks k ≡ None) }
{
    s.holder_of(k).is_none()
}

/// Whether a thread gives a lock back: it is the holder.
pub fn may_unlock(s: &State, i: usize, k: u8) -> bool
    ensures { (result ≡ true) ↔ ((state_of s.now).locks k ≡ Some i) }
{
    match s.holder_of(k) {
        Some(by) => by as usize == i,
        None => false,
    }
}
