//! The look-up of a symbol in the table that the words of a core hold.

ghost use Rattle.std.specs.Prelude.{◌≡◌, ◌≤◌, [], ◌∷◌, Some, IfOk, IsErr};
ghost use Rattle.omi_page.specs.AllWords.{all_words};
ghost use Rattle.omi_outside.specs.Outside.{HasCause};
ghost use Rattle.omi_word.specs.Words.{Words};
ghost use Rattle.omi_calls.specs.Told.{aligned_word_at};
ghost use Rattle.omi_word.specs.SymbolTable.{words_from, symbol_in};

use crate::Pages;
use omi_calls::{CallbackFailed, Got};
use omi_corefile::number_of;
use omi_outside::Files;
use omi_word::{
    FIRST_SYMBOL_ADDRESS, MOST_SYMBOLS, SYMBOL_BYTES, SYMBOL_COUNT_ADDRESS, found_with,
};

/// Five words, where each of them is there.
fn all_of(
    first: Option<u64>,
    second: Option<u64>,
    third: Option<u64>,
    fourth: Option<u64>,
    fifth: Option<u64>,
) -> Option<[u64; 5]>
    ensures { result ≡ all_words (first ∷ second ∷ third ∷ fourth ∷ fifth ∷ []) }
{
    Some([first?, second?, third?, fourth?, fifth?])
}

impl<'a, F: Files> Pages<'a, F> {
    ghost use Rattle.omi_page.specs.Borrowed.{told_of, faults_counted, StaysBorrowed};

    /// The word at a byte address. None where the address is unaligned or no word stands there.
    fn word(&mut self, addr: u64) -> Result<Option<u64>, CallbackFailed>
        ensures word { (words rest : Words) → (told_of self.old).words rest ≡ Some words
            → IfOk result (λ word. word ≡ aligned_word_at words addr) }
        ensures same { told_of self.new ≡ told_of self.old }
        ensures cause { HasCause (faults_counted self.old) (faults_counted self.new)
            (IsErr result) }
        ensures stays { StaysBorrowed self.old self.new }
    {
        let order = self.order();
        let mut bytes = [0; 8];
        match self.read_word(addr, &mut bytes) {
            Got::Bytes => Ok(Some(number_of(order, bytes))),
            Got::NotMapped => Ok(None),
            Got::Failed => Err(CallbackFailed),
        }
    }

    /// The words of a symbol at a byte address, where each of them is mapped.
    fn five_words(&mut self, at: u64) -> Result<Option<[u64; 5]>, CallbackFailed>
        requires { at ≤ 66184 }
        ensures words { (words rest : Words) → (told_of self.old).words rest ≡ Some words
            → IfOk result (λ five. five ≡ words_from (aligned_word_at words) at 5) }
        ensures same { told_of self.new ≡ told_of self.old }
        ensures cause { HasCause (faults_counted self.old) (faults_counted self.new)
            (IsErr result) }
        ensures stays { StaysBorrowed self.old self.new }
    {
        let first = self.word(at)?;
        let second = self.word(at + 8)?;
        let third = self.word(at + 16)?;
        let fourth = self.word(at + 24)?;
        let fifth = self.word(at + 32)?;
        Ok(all_of(first, second, third, fourth, fifth))
    }

    /// The address of the first symbol of this name. None where the count or a word of the symbols that it counts isn't mapped, where
    /// the count exceeds 16, or where no symbol has the name.
    pub fn symbol(&mut self, name: &str) -> Result<Option<u64>, CallbackFailed>
        ensures symbol { (words rest : Words) → (told_of self.old).words rest ≡ Some words
            → IfOk result (λ addr. addr ≡ symbol_in (aligned_word_at words) name.now) }
        ensures same { told_of self.new ≡ told_of self.old }
        ensures cause { HasCause (faults_counted self.old) (faults_counted self.new)
            (IsErr result) }
        ensures stays { StaysBorrowed self.old self.new }
    {
        let Some(count) = self.word(SYMBOL_COUNT_ADDRESS)? else {
            return Ok(None);
        };
        if count > MOST_SYMBOLS {
            return Ok(None);
        }
        let mut found = None;
        let mut left = count;
        while left > 0 {
            left -= 1;
            let Some(words) = self.five_words(FIRST_SYMBOL_ADDRESS + SYMBOL_BYTES * left)? else {
                return Ok(None);
            };
            found = found_with(&words, name, found);
        }
        Ok(found)
    }
}
