//! Callbacks over a core in memory, with a list of the calls that are to fail.

ghost use Rattle.std.specs.Prelude.{◌≡◌, ◌↔◌, ◌≤◌, ℕ, ◌==◌, Some, IsTrue, if◌then◌else◌};
ghost use Rattle.std.specs.List.{list_any};
ghost use Rattle.omi_outside.specs.Outside.{HasCause, Rose};
ghost use Rattle.omi_word.specs.Words.{Words};
ghost use Rattle.omi_corefile.specs.ByteOrder.{number_of};
ghost use Rattle.omi_calls.specs.Told.{Symbols, aligned_word_at};
ghost use Rattle.omi_calls.specs.Answers.{SaysMapped, SaysPlace};
ghost use Rattle.omi_calls.specs.Asked.{AsksWord, Symbol, asked_after, unlisted};
ghost use Rattle.omi_word.specs.SymbolTable.{symbol_in};
ghost use Rattle.omi_calls.specs.Memory.{told_by, told_of, calls_made, faults_counted, is_to_fail, next_count};

use crate::core_words::{CoreWords, core_word};
use crate::{Callbacks, Got, Place, Sizes};
use omi_corefile::{CoreImage, word_bytes};
use omi_word::look_up;

/// A debugger that has nothing but a core. Its reads and look-ups are counted together, and those
/// whose number is in a list fail.
pub struct MemCalls {
    core: CoreImage,
    failing: Vec<u64>,
    made: u64,
    faults: u64,
}

// Written out: docs/DECISIONS.md, "A drop written out".
impl Drop for MemCalls {
    fn drop(self) {
        let MemCalls {
            core: _core,
            failing: _failing,
            made: _made,
            faults: _faults,
        } = self;
    }
}

impl MemCalls {
    /// Callbacks over a core. `failing` lists the calls that are to fail, each by its number among
    /// all reads and look-ups, from 1.
    pub fn over(core: CoreImage, failing: Vec<u64>) -> MemCalls
        ensures told { told_of result ≡ told_by core }
        ensures made { calls_made result ≡ 0 }
        ensures faults { faults_counted result ≡ 0 }
        ensures failing { (number : ℕ) → is_to_fail result number
            ≡ list_any (λ listed. listed == number) failing.items }
    {
        MemCalls {
            core,
            failing,
            made: 0,
            faults: 0,
        }
    }

    /// Counts a call, and its fault where it is to fail. Answers whether it is.
    fn is_failing(&mut self) -> bool
        ensures made { self.new.made ≡ next_count self.old.made }
        ensures fails { result ≡ is_to_fail self.old self.new.made }
        ensures faults { self.new.faults
            ≡ (if result then next_count self.old.faults else self.old.faults) }
        ensures later { self.old.faults ≤ self.new.faults }
        ensures rose { IsTrue result → Rose self.old.faults self.new.faults }
        ensures failing { self.new.failing ≡ self.old.failing }
        ensures core { self.new.core ≡ self.old.core }
    {
        self.made = self.made.saturating_add(1);
        let fails = self.failing.contains(&self.made);
        if fails {
            self.faults = self.faults.saturating_add(1);
        }
        fails
    }
}

impl Callbacks for MemCalls {
    ghost told = { told_of };

    ghost faults = { faults_counted };

    fn read_memory(&mut self, addr: u64, to: &mut [u8; 8]) -> Got
        ensures mapped { (words rest : Words) → (told_of self.old).words rest ≡ Some words
            → SaysMapped result (aligned_word_at words addr) }
        ensures bytes { (words rest : Words) (order : ℕ) → (told_of self.old).words rest ≡ Some words
            → (told_of self.old).order ≡ Some order → result ≡ Got.Bytes
            → aligned_word_at words addr ≡ Some (number_of order to.new) }
        ensures same { told_of self.new ≡ told_of self.old }
        ensures cause { HasCause (faults_counted self.old) (faults_counted self.new)
            (result ≡ Got.Failed) }
        ensures asked { AsksWord (told_of self.old) addr unlisted unlisted (result ≡ Got.Failed) }
        ensures made { calls_made self.new ≡ next_count (calls_made self.old) }
        ensures fails { (result ≡ Got.Failed)
            ↔ IsTrue (is_to_fail self.old (calls_made self.new)) }
        ensures list { (number : ℕ) → is_to_fail self.new number ≡ is_to_fail self.old number }
    {
        if self.is_failing() {
            return Got::Failed;
        }
        match core_word(&self.core, addr) {
            Some(word) => {
                *to = word_bytes(self.core.order, word);
                Got::Bytes
            }
            None => Got::NotMapped,
        }
    }

    fn symbol_addr_lookup(&mut self, name: &str) -> Place
        ensures symbol { (symbols : Symbols) → (told_of self.old).symbols ≡ Some symbols
            → SaysPlace result (symbols name.now) }
        ensures table { (words rest : Words) → (told_of self.old).words rest ≡ Some words
            → SaysPlace result (symbol_in (aligned_word_at words) name.now) }
        ensures same { told_of self.new ≡ told_of self.old }
        ensures cause { HasCause (faults_counted self.old) (faults_counted self.new)
            (result ≡ Place.Failed) }
        ensures asked { unlisted ≡ asked_after (Symbol name.now) unlisted }
        ensures made { calls_made self.new ≡ next_count (calls_made self.old) }
        ensures fails { (result ≡ Place.Failed)
            ↔ IsTrue (is_to_fail self.old (calls_made self.new)) }
        ensures list { (number : ℕ) → is_to_fail self.new number ≡ is_to_fail self.old number }
    {
        if self.is_failing() {
            return Place::Failed;
        }
        let words = CoreWords { core: &self.core };
        match look_up(&words, name) {
            Some(addr) => Place::At(addr),
            None => Place::NoSuch,
        }
    }

    fn sizeof_type(&self) -> Sizes {
        Sizes {
            char_size: 1,
            short_size: 2,
            int_size: 4,
            long_size: 8,
            long_long_size: 8,
            pointer_size: 8,
        }
    }
}
