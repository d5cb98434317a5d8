//! The table of callbacks, with the conversion of the target's bytes to a number.

ghost use Rattle.std.specs.Prelude.{◌≡◌, ℕ, ◌↔◌, List, Some, IsErr, IfOk, IsSome};
ghost use Rattle.omi_outside.specs.Outside.{HasCause};
ghost use Rattle.omi_word.specs.Words.{Words};
ghost use Rattle.omi_corefile.specs.ByteOrder.{number_of};
ghost use Rattle.omi_calls.specs.Told.{Symbols, aligned_word_at};
ghost use Rattle.omi_calls.specs.Answers.{SaysPlace};
ghost use Rattle.omi_calls.specs.Asked.{AsksWord, Symbol, asked_after};
ghost use Rattle.omi_word.specs.SymbolTable.{symbol_in};
ghost use Rattle.omi_calls.specs.Kept.{IsOrderOf, TakesAll, GivesNumbers};

use crate::{Callbacks, Got, Place, Sizes};
use std::marker::Model;
use thiserror::Error;

/// A callback failed. The debugger counted the fault.
#[derive(Clone, Copy, Debug, PartialEq, Eq, Error)]
#[error("a callback failed")]
pub struct CallbackFailed;

/// A conversion of the eight bytes of a word, in the target's order, to a number, which is OMPD's
/// device_to_host. Each `Fn([u8; 8]) -> u64` is one.
pub trait ToHost: Drop {
    /// The conversion may be called on these bytes.
    ghost takes: { Self → List ℕ → Type 0 };

    /// The call may answer this number.
    ghost gives: { Self → List ℕ → ℕ → Type 0 };

    /// Converts.
    fn to_host(&self, bytes: [u8; 8]) -> u64
        requires { takes self.now bytes }
        ensures { gives self.now bytes result };
}

impl<F: Fn([u8; 8]) -> u64> ToHost for F {
    ghost takes = { λ f bytes. F.pre f bytes };

    ghost gives = { λ f bytes n. F.post f bytes n };

    fn to_host(&self, bytes: [u8; 8]) -> u64 {
        self(bytes)
    }
}

/// A debugger's callbacks, with its conversion of the bytes of a word. The order of the bytes is 0
/// where the lowest comes first, and 1 where the highest does.
///
/// The type keeps the fact that the conversion takes every eight bytes, and answers their number in
/// that order.
#[derive(Drop)]
pub struct Table<C: Callbacks, F: ToHost> {
    calls: C,
    order: u8,
    to_host: F,
}

impl<C: Callbacks, F: ToHost> Model for Table<C, F> {
    ghost use Rattle.omi_calls.specs.Kept.{Kept, IsOrderOf, TakesAll, GivesNumbers, KeepsTable};

    ghost Value = { Kept C F };

    ghost view = { λ a. record { calls = a.calls; order = a.order; to_host = a.to_host } };

    ghost invariant = { λ a. KeepsTable (C.told a.calls) (F.takes a.to_host)
        (F.gives a.to_host) a.order };
}

/// The number of eight bytes, by a conversion that answers it.
fn number<F: ToHost>(to_host: &F, bytes: [u8; 8]) -> u64
    requires { TakesAll (F.takes to_host.now) }
    ensures { (order : ℕ) → GivesNumbers (F.gives to_host.now) order
        → result ≡ number_of order bytes }
{
    to_host.to_host(bytes)
}

impl<C: Callbacks, F: ToHost> Table<C, F> {
    /// Keeps the callbacks and the conversion.
    pub fn new(calls: C, order: u8, to_host: F) -> Table<C, F>
        requires order { IsOrderOf (C.told calls) order }
        requires takes { TakesAll (F.takes to_host) }
        requires gives { GivesNumbers (F.gives to_host) order }
        ensures calls { result.calls ≡ calls }
        ensures order { result.order ≡ order }
        ensures to_host { result.to_host ≡ to_host }
    {
        Table {
            calls,
            order,
            to_host,
        }
    }

    /// The number at a byte address. None exactly where the read was NotMapped.
    pub fn word(&mut self, addr: u64) -> Result<Option<u64>, CallbackFailed>
        ensures mapped { (words rest : Words) → (C.told self.old.calls).words rest ≡ Some words
            → IfOk result (λ word. IsSome word ↔ IsSome (aligned_word_at words addr)) }
        ensures word { (words rest : Words) (order : ℕ) → (C.told self.old.calls).words rest ≡ Some words
            → (C.told self.old.calls).order ≡ Some order
            → IfOk result (λ word. word ≡ aligned_word_at words addr) }
        ensures same { C.told self.new.calls ≡ C.told self.old.calls }
        ensures order { self.new.order ≡ self.old.order }
        ensures to_host { self.new.to_host ≡ self.old.to_host }
        ensures asked { AsksWord (C.told self.old.calls) addr (C.asked self.old.calls)
            (C.asked self.new.calls) (IsErr result) }
        ensures cause { HasCause (C.faults self.old.calls) (C.faults self.new.calls)
            (IsErr result) }
    {
        let mut bytes = [0u8; 8];
        match self.calls.read_memory(addr, &mut bytes) {
            Got::Bytes => {}
            Got::NotMapped => return Ok(None),
            Got::Failed => return Err(CallbackFailed),
        }
        Ok(Some(number(&self.to_host, bytes)))
    }

    /// Looks up the byte address of a symbol.
    pub fn symbol_addr_lookup(&mut self, name: &str) -> Place
        ensures symbol { (symbols : Symbols) → (C.told self.old.calls).symbols ≡ Some symbols
            → SaysPlace result (symbols name.now) }
        ensures table { (words rest : Words) → (C.told self.old.calls).words rest ≡ Some words
            → SaysPlace result (symbol_in (aligned_word_at words) name.now) }
        ensures same { C.told self.new.calls ≡ C.told self.old.calls }
        ensures order { self.new.order ≡ self.old.order }
        ensures to_host { self.new.to_host ≡ self.old.to_host }
        ensures asked { C.asked self.new.calls
            ≡ asked_after (Symbol name.now) (C.asked self.old.calls) }
        ensures cause { HasCause (C.faults self.old.calls) (C.faults self.new.calls)
            (result ≡ Place.Failed) }
    {
        self.calls.symbol_addr_lookup(name)
    }

    /// The sizes of the target's basic types.
    pub fn sizeof_type(&self) -> Sizes
        ensures { result ≡ (C.told self.now.calls).sizes }
    {
        self.calls.sizeof_type()
    }

    /// Hands the callbacks back.
    pub fn into_calls(self) -> C
        ensures { result ≡ self.calls }
    {
        let Table {
            calls,
            order: _,
            to_host: _,
        } = self;
        calls
    }
}
