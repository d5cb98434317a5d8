//! The life words of records, and the codes of deferred tasks.

ghost use Rattle.std.specs.Prelude.{◌≡◌};
ghost use Rattle.omi_numbers.specs.Lives;

/// The life word of a live record is below this, 2^33: a generation has 32 bits.
pub const LIFE_END: u64 = 0x2_0000_0000;

/// The number of a task's record is below this one, 2^24. The life word stands above it in the code of a deferred task.
pub const CODED_RECORDS: u64 = 0x100_0000;

/// The life word of a record whose object has this generation. It is odd, and a record that is free has an even one.
pub fn life_word(generation: u32) -> u64
    ensures { result ≡ Lives.life_word generation }
{
    2 * u64::from(generation) + 1
}
