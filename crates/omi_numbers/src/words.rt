//! How values stand in words: native ids, and states with their wait ids.

ghost use Rattle.std.specs.Prelude.{◌≡◌, ◌<◌, ◌^◌};
ghost use Rattle.omi_numbers.specs.Words;

/// The version of OpenMP, 5.0.
pub const OPENMP_VERSION: u64 = 201811;

/// The native id of thread 0.
pub const FIRST_NATIVE: u64 = 1000;

/// The value of a wait id's lowest bit in the word of a state: 2^16. States are below it.
pub const WAIT_PLACE: u64 = 0x1_0000;

/// The value of a chunk's lowest bit in the word of a schedule. Kinds are below it.
pub const CHUNK_PLACE: u64 = 8;

/// The native id of a thread.
pub fn native_id(thread: u8) -> u64
    ensures { result ≡ Words.native_id thread }
{
    FIRST_NATIVE + u64::from(thread)
}

/// A state with its wait id as one word.
pub fn state_word(state: u32, wait: u64) -> u64
    requires { Words.state_word state wait < 2 ^ 64 }
    ensures { result ≡ Words.state_word state wait }
{
    u64::from(state) + WAIT_PLACE * wait
}

/// The state in a word of a state and its wait id.
pub fn state_of(word: u64) -> u32
    ensures { result ≡ Words.state_of word }
{
    (word % WAIT_PLACE) as u32
}

/// The wait id in a word of a state and its wait id.
pub fn wait_of(word: u64) -> u64
    ensures { result ≡ Words.wait_of word }
{
    word / WAIT_PLACE
}
