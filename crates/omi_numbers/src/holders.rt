//! Who has claimed a thread and who holds a lock, as words, and the wait id of a lock.

ghost use Rattle.std.specs.Prelude.{◌≡◌};
ghost use Rattle.omi_numbers.specs.Holders;

/// The claim word of a thread that offers itself. That of a thread that doesn't is 0.
pub const FREE_CLAIM: u64 = 1;

/// The claim word of a thread that this thread has claimed.
pub fn claimed_word(thread: u8) -> u64
    ensures { result ≡ Holders.claimed_word thread }
{
    2 + u64::from(thread)
}

/// The word of a lock that this thread holds. That of a lock that nobody holds is 0.
pub fn holder_word(thread: u8) -> u64
    ensures { result ≡ Holders.holder_word thread }
{
    u64::from(thread) + 1
}

/// The wait id of a thread that waits for a lock.
pub fn lock_wait(lock: u8) -> u64
    ensures { result ≡ Holders.lock_wait lock }
{
    u64::from(lock) + 1
}
