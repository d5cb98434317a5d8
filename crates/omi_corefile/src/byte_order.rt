//! The eight bytes of a word in either order: 0 where the lowest byte comes first, 1 where the highest does.

ghost use Rattle.std.specs.Prelude.{◌≡◌};
ghost use Rattle.omi_corefile.specs.ByteOrder.{word_bytes, number_of};

/// The bytes of a word in this order.
pub fn word_bytes(order: u8, word: u64) -> [u8; 8]
    ensures bytes { result ≡ word_bytes order word }
    ensures number { number_of order result ≡ word }
{
    if order == 0 {
        word.to_le_bytes()
    } else {
        word.to_be_bytes()
    }
}

/// The number of a word's bytes in this order.
pub fn number_of(order: u8, bytes: [u8; 8]) -> u64
    ensures { result ≡ number_of order bytes }
{
    if order == 0 {
        u64::from_le_bytes(bytes)
    } else {
        u64::from_be_bytes(bytes)
    }
}
