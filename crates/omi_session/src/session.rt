//! An open session: what it reads, and the handles that are held in it.

ghost use Rattle.std.specs.Prelude.{◌≡◌, ◌≢◌, ℕ, ◌+◌, ◌-◌, ◌^◌, ◌<◌, ◌≤◌, ◌↔◌, Some, None, Err, IfOk, OnOk, OnErr, IfErr, IfSome, IsErr, IsSome, is_some, codes};
ghost use Rattle.std.specs.Bool.{OnFalse};
ghost use Rattle.std.specs.FinMap.{get, insert, remove};
ghost use Rattle.omi_outside.specs.Outside.{HasCause};
ghost use Rattle.omi_calls.specs.Asked.{AsksWord};
ghost use Rattle.omi_calls.specs.Told.{aligned_word_at};
ghost use Rattle.omi_handle.specs.declared.handle.Held.{Held};
ghost use Rattle.omi_word.specs.Words.{Words};
ghost use Rattle.omi_layout.specs.declared.limits.TheConstants.{LAST_END};
ghost use Rattle.omi_session.specs.Tells.{Tells, KeepsTold};
ghost use Rattle.omi_session.specs.Named.{IsNamed, AreNamed};
ghost use Rattle.omi_session.specs.Opened.{Stays, StaysWhole, IsFresh};
ghost use Rattle.omi_rep.specs.Records.{runtime_address};
ghost use Rattle.omi_session.specs.Reads.{Answers};
ghost use Rattle.omi_session.specs.declared.limits.TheConstants.{HANDLES_BEFORE};
ghost use Rattle.omi_session.specs.Inquiry.{word_of};

use crate::asking::word;
use crate::library::Library;
use crate::limits::HANDLES_BEFORE;
use crate::parted::Parted;
use crate::rc::Rc;
use omi_calls::{CallbackFailed, Callbacks, Table, ToHost};
use omi_handle::{Handles, Held};
use omi_layout::{Field, Layout};
use std::alloc::Global;
use std::marker::Model;

/// An open session. Contracts see the callbacks, the words of the layout's table, and the handles that are held.
///
/// The type keeps of each handle that a record of its kind begins at its address, and that its life word is one of a live record.
pub struct Session<C: Callbacks, F: ToHost> {
    table: Table<C, F>,
    layout: Layout,
    handles: Handles,
}

// Written out: docs/DECISIONS.md, "A drop written out".
impl<C: Callbacks + Drop, F: ToHost + Drop> Drop for Session<C, F> {
    fn drop(self) {
        let Session {
            table: _table,
            layout: _layout,
            handles: _handles,
        } = self;
    }
}

impl<C: Callbacks, F: ToHost> Model for Session<C, F> {
    ghost use Rattle.omi_session.specs.Opened.{Opened, opened_code};

    ghost Value = { Opened C F };

    ghost coded = { opened_code C.code F.code };

    ghost use Rattle.omi_session.specs.Named.{AreNamed};

    ghost view = { λ a. record { table = a.table; layout = a.layout.table; handles = a.handles } };

    ghost invariant = { λ a. AreNamed a.layout.table a.handles };
}

impl<C: Callbacks, F: ToHost> Session<C, F> {
    /// A session over these callbacks, in this layout, with these handles.
    pub(crate) fn over(table: Table<C, F>, layout: Layout, handles: Handles) -> Session<C, F>
        requires { AreNamed layout.table handles }
        ensures table { result.table ≡ table }
        ensures layout { result.layout ≡ layout.table }
        ensures handles { result.handles ≡ handles }
    {
        Session {
            table,
            layout,
            handles,
        }
    }

    /// A session with a target whose layout is known. No word is read, and no handle is held.
    pub fn in_layout(alloc: Global, table: Table<C, F>, layout: Layout) -> Session<C, F>
        ensures table { result.table ≡ table }
        ensures layout { result.layout ≡ layout.table }
        ensures fresh { IsFresh result.handles }
    {
        Session::over(table, layout, Handles::new(alloc))
    }

    /// The same without memory for handles: a call that makes one answers NoMem.
    pub fn without_handles(table: Table<C, F>, layout: Layout) -> Session<C, F>
        ensures table { result.table ≡ table }
        ensures layout { result.layout ≡ layout.table }
        ensures fresh { IsFresh result.handles }
        ensures room { result.handles.room ≡ 0 }
    {
        Session::over(table, layout, Handles::without_memory())
    }

    /// The layout that the target's words published when the session was opened.
    pub fn layout(&self) -> &Layout
        ensures { result.now.table ≡ self.now.layout }
    {
        &self.layout
    }

    /// The word at a byte address. None exactly where none is mapped there.
    pub fn peek(&mut self, addr: u64) -> Result<Option<u64>, CallbackFailed>
        ensures word { (memory : Words) → Tells (C.told self.old.table.calls) memory
            → IfOk result (λ word. word ≡ memory addr) }
        ensures mapped { (words rest : Words) → (C.told self.old.table.calls).words rest ≡ Some words
            → IfOk result (λ word. IsSome word ↔ IsSome (aligned_word_at words addr)) }
        ensures same { StaysWhole C.told self.old self.new }
        ensures asked { AsksWord (C.told self.old.table.calls) addr (C.asked self.old.table.calls)
            (C.asked self.new.table.calls) (IsErr result) }
        ensures cause { HasCause (C.faults self.old.table.calls) (C.faults self.new.table.calls)
            (IsErr result) }
    {
        self.table.word(addr)
    }

    /// Keeps a handle's object under a new pair of key and serial.
    pub fn make(&mut self, h: Held) -> Result<(u64, u64), Rc>
        requires many { self.old.handles.made < 2 ^ 64 - 1 }
        requires named { IsNamed self.old.layout h }
        ensures serial { IfOk result (λ pair. pair.1 ≡ self.old.handles.made) }
        ensures counted { OnOk result (self.new.handles.made ≡ self.old.handles.made + 1) }
        ensures added { IfOk result (λ pair.
            self.new.handles.held ≡ insert self.old.handles.held pair h) }
        ensures unheld { IfOk result (λ pair. get self.old.handles.held pair ≡ None) }
        ensures found { IfOk result (λ pair. get self.new.handles.held pair ≡ Some h) }
        ensures kept { (pair : ℕ × ℕ) (held : Held) → get self.old.handles.held pair ≡ Some held
            → get self.new.handles.held pair ≡ Some held }
        ensures refused_held { OnErr result (self.new.handles.held ≡ self.old.handles.held) }
        ensures refused_made { OnErr result (self.new.handles.made ≡ self.old.handles.made) }
        ensures memory { IfErr result (λ rc. (rc ≡ Rc.NoMem)
            × (self.old.handles.room ≡ 0)) }
        ensures room { self.old.handles.room ≤ self.new.handles.room + 1 }
        ensures stays { Stays C.told self.old self.new }
        ensures table { self.new.table ≡ self.old.table }
    {
        match self.handles.make(h) {
            Ok(pair) => Ok(pair),
            Err(_) => Err(Rc::NoMem),
        }
    }

    /// What is held under the pair. None exactly where the pair was released or never made.
    pub fn find(&self, key: u64, serial: u64) -> Option<Held>
        ensures value { result ≡ get self.now.handles.held (key, serial) }
        ensures named { IfSome result (IsNamed self.now.layout) }
        ensures low { IfSome result (λ h. h.addr ≤ LAST_END) }
    {
        self.handles.find(key, serial)
    }

    /// Lets go of the pair. False exactly where it was released or never made; then nothing changes.
    pub fn release(&mut self, key: u64, serial: u64) -> bool
        ensures answer { result ≡ is_some (get self.old.handles.held (key, serial)) }
        ensures removed { self.new.handles.held ≡ remove self.old.handles.held (key, serial) }
        ensures gone { get self.new.handles.held (key, serial) ≡ None }
        ensures others { (pair : ℕ × ℕ) → pair ≢ (key, serial)
            → get self.new.handles.held pair ≡ get self.old.handles.held pair }
        ensures absent { OnFalse result (self.new.handles ≡ self.old.handles) }
        ensures made { self.new.handles.made ≡ self.old.handles.made }
        ensures room { self.old.handles.room ≤ self.new.handles.room }
        ensures layout { self.new.layout ≡ self.old.layout }
        ensures table { self.new.table ≡ self.old.table }
    {
        self.handles.release(key, serial)
    }

    /// Makes room, so that the next `n` calls that make a handle take no memory.
    pub fn reserve(&mut self, n: usize) -> Result<(), Rc>
        ensures memory { IfErr result (λ rc. rc ≡ Rc.NoMem) }
        ensures room { OnOk result (n ≤ self.new.handles.room) }
        ensures kept_room { self.old.handles.room ≤ self.new.handles.room }
        ensures held { self.new.handles.held ≡ self.old.handles.held }
        ensures made { self.new.handles.made ≡ self.old.handles.made }
        ensures layout { self.new.layout ≡ self.old.layout }
        ensures table { self.new.table ≡ self.old.table }
    {
        match self.handles.reserve(n) {
            Ok(()) => Ok(()),
            Err(_) => Err(Rc::NoMem),
        }
    }

    /// How many handles were made in this session so far.
    pub fn made(&self) -> u64
        ensures { result ≡ self.now.handles.made }
    {
        self.handles.made()
    }

    /// Whether few enough handles were made in this session that each call which makes some, and a walk, may be called. Where there
    /// were 2^40, NoMem: a session that makes a million a second comes to it in 12 days.
    pub fn may_make(&self) -> Result<(), Rc>
        ensures few { OnOk result (self.now.handles.made < HANDLES_BEFORE) }
        ensures many { IfErr result (λ rc. (rc ≡ Rc.NoMem)
            × (HANDLES_BEFORE ≤ self.now.handles.made)) }
    {
        if self.made() < HANDLES_BEFORE {
            Ok(())
        } else {
            Err(Rc::NoMem)
        }
    }

    /// Ends the session, and hands the library back. Its handles are gone.
    pub fn rel_address_space_handle(self) -> Library<C, F>
        ensures { result ≡ self.table }
    {
        let Session {
            table,
            layout: _layout,
            handles: _handles,
        } = self;
        Library::of(table)
    }

    /// Parts the session from its callbacks, so that what they borrow is free again.
    pub fn part(self) -> (Parted, Table<C, F>)
        ensures table { result.1 ≡ self.table }
        ensures layout { result.0.layout ≡ self.layout }
        ensures handles { result.0.handles ≡ self.handles }
    {
        let Session {
            table,
            layout,
            handles,
        } = self;
        (Parted::of(layout, handles), table)
    }

    /// The version of OpenMP that the target's runtime has, as year and month. An Error where its word isn't mapped.
    pub fn get_omp_version(&mut self) -> Result<u64, Rc>
        ensures answer { Answers C.told C.asked self.old self.new result
            (word_of self.old.layout (runtime_address self.old.layout) Field.RuntimeVersion 0) }
        ensures memory { result ≢ Err Rc.NoMem }
        ensures same { StaysWhole C.told self.old self.new }
        ensures cause { HasCause (C.faults self.old.table.calls) (C.faults self.new.table.calls)
            (result ≡ Err Rc.CallbackError) }
    {
        let runtime = self.layout().runtime_place();
        word(self, runtime, Field::RuntimeVersion, 0)
    }

    /// The version of OpenMP of this library, as text.
    pub fn get_omp_version_string(&self) -> &'static str
        ensures { result.now ≡ codes "OpenMP 5.0 host" }
    {
        "OpenMP 5.0 host"
    }

    /// A device of any kind: there is none but the host.
    pub fn device_initialize(&mut self, _kind: u32) -> Rc
        ensures answer { result ≡ Rc.Unsupported }
        ensures same { self.new ≡ self.old }
    {
        Rc::Unsupported
    }
}
