//! The callbacks that a debugger hands in, by OpenMP 5.0, chapter 5.

ghost use Rattle.std.specs.Prelude.{◌≡◌, ℕ, Some};
ghost use Rattle.omi_outside.specs.Outside.{HasCause};
ghost use Rattle.omi_word.specs.Words.{Words};
ghost use Rattle.omi_corefile.specs.ByteOrder.{number_of};
ghost use Rattle.omi_calls.specs.Told.{Told, Symbols, aligned_word_at};
ghost use Rattle.omi_calls.specs.Answers.{SaysMapped, SaysPlace};
ghost use Rattle.omi_calls.specs.Asked.{Asked, AsksWord, Symbol, asked_after, unlisted};
ghost use Rattle.omi_word.specs.SymbolTable.{symbol_in};

/// What a read of a word answers.
#[derive(Clone, Copy, Debug, PartialEq, Eq)]
pub enum Got {
    /// The word's bytes were left.
    Bytes,
    /// No word stands at the address.
    NotMapped,
    /// The debugger failed. It counted the fault.
    Failed,
}

/// What the look-up of a symbol answers.
#[derive(Clone, Copy, Debug, PartialEq, Eq)]
pub enum Place {
    /// The symbol's byte address.
    At(u64),
    /// The target has no symbol of this name.
    NoSuch,
    /// The debugger failed. It counted the fault.
    Failed,
}

/// The sizes of the target's basic types, in bytes.
#[derive(Clone, Copy, Debug, PartialEq, Eq)]
pub struct Sizes {
    pub char_size: u8,
    pub short_size: u8,
    pub int_size: u8,
    pub long_size: u8,
    pub long_long_size: u8,
    pub pointer_size: u8,
}

/// What a debugger does for a tool: it reads the target's memory and knows its symbols.
///
/// An implementation may tell the order of the bytes of a word, the words and the symbols, or
/// leave each of them untold; the clauses on what a call answers of them then say nothing. It may
/// tell some of the words: what is told is all of them by the `rest`, which stands for the others,
/// and the clauses hold whatever that is. No call changes what is told, and each read and look-up
/// is one that was asked for.
pub trait Callbacks {
    /// What is told of the target.
    ghost told: { Self → Told };

    /// How many calls have failed.
    ghost faults: { Self → ℕ };

    /// What was asked for so far. Nothing is listed and kept where an implementation doesn't say.
    ghost asked: { Self → Asked } = { λ _. unlisted };

    /// Reads the word at a byte address, and leaves its bytes in the target's order. Where words
    /// are told, NotMapped comes exactly where the address is unaligned or no word stands there.
    fn read_memory(&mut self, addr: u64, to: &mut [u8; 8]) -> Got
        ensures mapped { (words rest : Words) → (told self.old).words rest ≡ Some words
            → SaysMapped result (aligned_word_at words addr) }
        ensures bytes { (words rest : Words) (order : ℕ) → (told self.old).words rest ≡ Some words
            → (told self.old).order ≡ Some order → result ≡ Got.Bytes
            → aligned_word_at words addr ≡ Some (number_of order to.new) }
        ensures same { told self.new ≡ told self.old }
        ensures asked { AsksWord (told self.old) addr (asked self.old) (asked self.new)
            (result ≡ Got.Failed) }
        ensures cause { HasCause (faults self.old) (faults self.new) (result ≡ Got.Failed) };

    /// Looks up the byte address of a symbol. Where words are told, the answer is by the symbol
    /// table that they hold.
    fn symbol_addr_lookup(&mut self, name: &str) -> Place
        ensures symbol { (symbols : Symbols) → (told self.old).symbols ≡ Some symbols
            → SaysPlace result (symbols name.now) }
        ensures table { (words rest : Words) → (told self.old).words rest ≡ Some words
            → SaysPlace result (symbol_in (aligned_word_at words) name.now) }
        ensures same { told self.new ≡ told self.old }
        ensures asked { asked self.new ≡ asked_after (Symbol name.now) (asked self.old) }
        ensures cause { HasCause (faults self.old) (faults self.new) (result ≡ Place.Failed) };

    /// The sizes of the target's basic types.
    fn sizeof_type(&self) -> Sizes
        ensures { result ≡ (told self.now).sizes };
}
