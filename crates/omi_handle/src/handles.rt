//! The table of handles.

ghost use Rattle.std.specs.Prelude.{◌≡◌, ◌≢◌, ℕ, ◌+◌, ◌-◌, ◌^◌, ◌<◌, ◌≤◌, Some, None, IsOk, IfOk, OnOk, OnErr, is_some};
ghost use Rattle.std.specs.Bool.{OnFalse};
ghost use Rattle.std.specs.FinMap.{empty, get, insert, remove};
ghost use Rattle.omi_handle.specs.declared.handle.Held.{Held};
ghost use Rattle.omi_handle.specs.Entries.{AreBelow, held_by, room_in};

use crate::{Held, OutOfMemory};
use slab::Slab;
use std::alloc::{AllocError, Global};
use std::marker::Model;

/// What stands under a key of the slab.
#[derive(Clone, Copy, Debug)]
struct Entry {
    serial: u64,
    held: Held,
}

/// The handles that are held. Contracts see them as a finite map from pairs of key and serial to
/// what was made under the pair, beside the number of handles made so far, and for how many more
/// there is room.
///
/// A key is used again once its handle is released; a serial never is.
#[derive(Drop)]
pub struct Handles {
    entries: Option<Slab<Entry>>,
    made: u64,
}

impl Model for Handles {
    ghost use Rattle.std.specs.Prelude.{ℕ};
    ghost use Rattle.omi_handle.specs.Ledger.{Ledger, ledger_code};

    ghost Value = { Ledger };

    ghost coded = { ledger_code };

    ghost use Rattle.omi_handle.specs.Entries.{ledger_of, SerialsBelow};

    ghost view = { λ a. ledger_of a.entries a.made };

    ghost invariant = { λ a. SerialsBelow a.entries a.made };
}

/// What the entries hold under a pair.
fn held_under(entries: &Slab<Entry>, key: u64, serial: u64) -> Option<Held>
    ensures { result ≡ get (held_by entries.now) (key, serial) }
{
    match entries.get(key as usize) {
        Some(entry) if entry.serial == serial => Some(entry.held),
        _ => None,
    }
}

/// Lets go of what the entries hold under a pair.
fn let_go(entries: &mut Slab<Entry>, key: u64, serial: u64) -> bool
    ensures answer { result ≡ is_some (get (held_by entries.old) (key, serial)) }
    ensures removed { held_by entries.new ≡ remove (held_by entries.old) (key, serial) }
    ensures absent { OnFalse result (entries.new ≡ entries.old) }
    ensures below { (made : ℕ) → AreBelow entries.old made → AreBelow entries.new made }
    ensures room { room_in entries.old ≤ room_in entries.new }
{
    match held_under(entries, key, serial) {
        Some(_) => {
            entries.remove(key as usize);
            true
        }
        None => false,
    }
}

impl Handles {
    /// No handles, and none made yet.
    pub fn new(alloc: Global) -> Handles
        ensures held { result.held ≡ empty }
        ensures made { result.made ≡ 0 }
    {
        Handles {
            entries: Some(Slab::new(alloc)),
            made: 0,
        }
    }

    /// No handles, and no memory for one: `make` and `reserve` are refused.
    pub fn without_memory() -> Handles
        ensures held { result.held ≡ empty }
        ensures made { result.made ≡ 0 }
        ensures room { result.room ≡ 0 }
    {
        Handles {
            entries: None,
            made: 0,
        }
    }

    /// Keeps `h` under a new pair of key and serial. The serial is the number of handles made
    /// before, so no pair is ever given twice.
    pub fn make(&mut self, h: Held) -> Result<(u64, u64), OutOfMemory>
        requires { self.old.made < 2 ^ 64 - 1 }
        ensures serial { IfOk result (λ pair. pair.1 ≡ self.old.made) }
        ensures counted { OnOk result (self.new.made ≡ self.old.made + 1) }
        ensures added { IfOk result (λ pair. self.new.held ≡ insert self.old.held pair h) }
        ensures unheld { IfOk result (λ pair. get self.old.held pair ≡ None) }
        ensures found { IfOk result (λ pair. get self.new.held pair ≡ Some h) }
        ensures kept { (pair : ℕ × ℕ) (held : Held) → get self.old.held pair ≡ Some held
            → get self.new.held pair ≡ Some held }
        ensures refused_held { OnErr result (self.new.held ≡ self.old.held) }
        ensures refused_made { OnErr result (self.new.made ≡ self.old.made) }
        ensures within_room { 0 < self.old.room → IsOk result }
        ensures room { self.old.room ≤ self.new.room + 1 }
    {
        let Some(entries) = &mut self.entries else {
            return Err(AllocError);
        };
        let serial = self.made;
        let key = entries.insert(Entry { serial, held: h })?;
        self.made = serial + 1;
        Ok((key as u64, serial))
    }

    /// What is held under the pair. None exactly where the pair was released or never made.
    pub fn find(&self, key: u64, serial: u64) -> Option<Held>
        ensures { result ≡ get self.now.held (key, serial) }
    {
        match &self.entries {
            Some(entries) => held_under(entries, key, serial),
            None => None,
        }
    }

    /// Lets go of the pair. False exactly where it was released or never made; then nothing
    /// changes.
    pub fn release(&mut self, key: u64, serial: u64) -> bool
        ensures answer { result ≡ is_some (get self.old.held (key, serial)) }
        ensures removed { self.new.held ≡ remove self.old.held (key, serial) }
        ensures gone { get self.new.held (key, serial) ≡ None }
        ensures others { (pair : ℕ × ℕ) → pair ≢ (key, serial)
            → get self.new.held pair ≡ get self.old.held pair }
        ensures absent { OnFalse result (self.new ≡ self.old) }
        ensures made { self.new.made ≡ self.old.made }
        ensures room { self.old.room ≤ self.new.room }
    {
        let Some(entries) = &mut self.entries else {
            return false;
        };
        let_go(entries, key, serial)
    }

    /// Makes room, so that the next `n` calls of `make` take no memory.
    pub fn reserve(&mut self, n: usize) -> Result<(), OutOfMemory>
        ensures room { OnOk result (n ≤ self.new.room) }
        ensures kept_room { self.old.room ≤ self.new.room }
        ensures held { self.new.held ≡ self.old.held }
        ensures made { self.new.made ≡ self.old.made }
    {
        match &mut self.entries {
            Some(entries) => entries.reserve(n),
            None => Err(AllocError),
        }
    }

    /// How many handles were made so far.
    pub fn made(&self) -> u64
        ensures value { result ≡ self.now.made }
        ensures serials { (key serial : ℕ) → get self.now.held (key, serial) ≢ None
            → serial < result }
    {
        self.made
    }
}
