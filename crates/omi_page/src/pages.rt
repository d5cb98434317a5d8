//! A core that is read on demand from its file.

ghost use Rattle.std.specs.Prelude.{◌≡◌, ◌≤◌, ◌+◌, List, ℕ, Some, None, IfOk, IsOk, IfErr, IsErrOf, OnErr, Err, length, vec_len, slice_get, []};
ghost use Rattle.omi_outside.specs.Outside.{HasCause};
ghost use Rattle.omi_corefile.specs.Outcomes.{IsCore};
ghost use Rattle.omi_corefile.specs.declared.core_image.CoreImage.{CoreImage};
ghost use Rattle.omi_word.specs.Words.{Words};
ghost use Rattle.omi_corefile.specs.ByteOrder.{number_of};
ghost use Rattle.omi_calls.specs.Told.{Symbols, aligned_word_at};
ghost use Rattle.omi_calls.specs.Answers.{SaysMapped, SaysPlace};
ghost use Rattle.omi_word.specs.SymbolTable.{symbol_in};
ghost use Rattle.omi_calls.specs.Kept.{IsOrderOf};
ghost use Rattle.omi_calls.specs.Asked.{AsksWord, Symbol, asked_after, unlisted};
ghost use Rattle.omi_calls.specs.Memory.{told_by};
ghost use Rattle.omi_page.specs.declared.limits.TheConstants.{MOST_PAGES, MOST_SPANS, PAGE_BYTES};
ghost use Rattle.omi_page.specs.Left.{LeavesFiles};
ghost use Rattle.omi_page.specs.CoreFiles.{IsFault, IsFileOf};
ghost use Rattle.omi_page.specs.Outcomes.{IsFaultOf, UnlessFree};
ghost use Rattle.omi_page.specs.declared.fault.PageError.{PageError};
ghost use Rattle.omi_read.specs.Holding.{IsLength, Holds};
ghost use Rattle.omi_page.specs.Bounds.{AreInOrder, EndWithin};
ghost use Rattle.omi_page.specs.Paging.{AreLong, ArePages, ArePartsOf, IsOpened};

use crate::contents::Contents;
use crate::keeping::{Kept, keep, kept_word, word_of};
use crate::loading::{load, stands};
use crate::opened::{Opened, open};
use crate::span::SpanList;
use crate::{PAGE_BYTES, PageError};
use omi_calls::{Callbacks, Got, Place, Sizes};
use omi_outside::Files;
use omi_word::Natives;
use std::alloc::Global;

/// A core that is read on demand from its file. It borrows the files and the name, and tells what the core tells that the file stands for.
/// At most `MOST_PAGES` pages of `PAGE_BYTES` bytes are kept, by the type. Nothing of what is asked for is listed.
#[derive(Drop)]
pub struct Pages<'a, F: Files> {
    alloc: Global,
    files: &'a mut F,
    name: &'a str,
    len: u64,
    order: u8,
    contexts: Natives,
    spans: SpanList,
    kept: Kept,
    buffer: Vec<u8>,
    ghost room: { vec_len buffer ≡ PAGE_BYTES },
    ghost places: { kept.cap ≡ MOST_PAGES },
    ghost few: { length kept.entries ≤ MOST_PAGES },
    ghost few_spans: { length spans ≤ MOST_SPANS },
    ghost length: { IsLength (F.told files.now name.now) len },
    ghost ends: { EndWithin len spans },
    ghost ordered: { AreInOrder spans },
    ghost long: { AreLong kept.entries },
    ghost pages: { ArePages (F.told files.now name.now) spans kept.entries },
    ghost known: { order ≤ 1 },
    ghost parts: { ArePartsOf (F.told files.now name.now) order contexts spans },
}

impl<'a, F: Files> Pages<'a, F> {
    ghost use Rattle.omi_page.specs.Borrowed.{order_of, contexts_of, files_of, name_of, told_of, faults_counted, StaysBorrowed};

    /// Opens the file of a core. It reads what stands in it beside its words, and no word.
    pub fn over(alloc: Global, files: &'a mut F, name: &'a str) -> Result<Pages<'a, F>, PageError>
        // What is told of a file that is a core, and what is answered of one that isn't or isn't there.
        ensures accepts { (bytes : List ℕ) (c : CoreImage) → Holds (F.told files.old name.now) bytes
            → IsFileOf bytes c → UnlessFree result (IsOk result) }
        ensures contexts { (bytes : List ℕ) (c : CoreImage)
            → Holds (F.told files.old name.now) bytes → IsFileOf bytes c
            → IfOk result (λ pages. contexts_of pages ≡ c.contexts) }
        ensures order { (bytes : List ℕ) (c : CoreImage) → Holds (F.told files.old name.now) bytes
            → IsFileOf bytes c → IfOk result (λ pages. order_of pages ≡ c.order) }
        ensures told { (bytes : List ℕ) (c : CoreImage) → Holds (F.told files.old name.now) bytes
            → IsFileOf bytes c
            → IfOk result (λ pages. told_of pages ≡ told_by c) }
        ensures fault { (bytes : List ℕ) → Holds (F.told files.old name.now) bytes
            → IfErr result (IsFaultOf bytes) }
        ensures refuses { (bytes : List ℕ) (error : PageError)
            → Holds (F.told files.old name.now) bytes → IsFault bytes error
            → UnlessFree result (result ≡ Err error) }
        ensures missing { F.told files.old name.now ≡ Some None
            → UnlessFree result (result ≡ Err PageError.NoFile) }

        // The pages borrow the files and the name, and no bytes changed.
        ensures same_reference { IfOk result (λ pages. (files_of pages).ghost_name
            ≡ files.entry.ghost_name) }
        ensures same_name { IfOk result (λ pages. name_of pages ≡ name.now) }
        ensures same { IfOk result (λ pages. F.told (files_of pages).now ≡ F.told files.old) }
        ensures later { IfOk result (λ pages. F.reads files.old ≤ faults_counted pages) }
        ensures writes { IfOk result (λ pages. F.writes (files_of pages).now
            ≡ F.writes files.old) }

        // A refusal leaves files that tell the same, of which no write failed, and Failed comes only where their count of reads rose.
        ensures cause { OnErr result (LeavesFiles F.told F.reads F.writes files.old
            (IsErrOf result PageError.Failed)) }
    {
        let opened = open(alloc, files, name)?;
        Ok(Pages::of(files, name, opened))
    }

    /// The pages of a file that was opened. It does nothing else.
    pub fn of(files: &'a mut F, name: &'a str, opened: Opened) -> Pages<'a, F>
        requires { IsOpened (F.told files.old name.now) opened.contents }
        ensures contexts { contexts_of result ≡ opened.contents.contexts }
        ensures order { order_of result ≡ opened.contents.order }
        ensures same_reference { (files_of result).ghost_name ≡ files.entry.ghost_name }
        ensures same_name { name_of result ≡ name.now }
        ensures same { (files_of result).now ≡ files.old }
    {
        let Opened {
            alloc,
            contents,
            kept,
            buffer,
        } = opened;
        let Contents {
            len,
            order,
            contexts,
            spans,
        } = contents;
        Pages {
            alloc,
            files,
            name,
            len,
            order,
            contexts,
            spans,
            kept,
            buffer,
        }
    }

    /// The files, which the pages let go.
    pub fn into_files(self) -> &'a mut F
        ensures same_reference { result.ghost_name ≡ (files_of self.entry).ghost_name }
        ensures same { result.now ≡ (files_of self.entry).now }
    {
        let Pages {
            alloc: _,
            files,
            name: _,
            len: _,
            order: _,
            contexts,
            spans,
            kept,
            buffer,
        } = self;
        drop((contexts, spans, kept, buffer));
        files
    }

    /// Reads a word.
    pub(crate) fn read_word(&mut self, addr: u64, to: &mut [u8; 8]) -> Got
        ensures mapped { (words rest : Words) → (told_of self.old).words rest ≡ Some words
            → SaysMapped result (aligned_word_at words addr) }
        ensures bytes { (words rest : Words) (order : ℕ) → (told_of self.old).words rest ≡ Some words
            → (told_of self.old).order ≡ Some order → result ≡ Got.Bytes
            → aligned_word_at words addr ≡ Some (number_of order to.new) }
        ensures same { told_of self.new ≡ told_of self.old }
        ensures cause { HasCause (faults_counted self.old) (faults_counted self.new)
            (result ≡ Got.Failed) }
        ensures stays { StaysBorrowed self.old self.new }
    {
        if addr % 8 != 0 || !stands(&self.spans, addr) {
            return Got::NotMapped;
        }
        let page = addr / PAGE_BYTES as u64;
        let offset = (addr % PAGE_BYTES as u64) as usize;
        if let Some(word) = kept_word(&mut self.kept, page, offset) {
            *to = word;
            return Got::Bytes;
        }
        let loaded = load(
            self.files,
            self.name,
            self.len,
            &self.spans,
            page,
            &mut self.buffer,
        );
        if loaded.is_err() {
            return Got::Failed;
        }
        keep(self.alloc, &mut self.kept, page, &self.buffer);
        *to = word_of(&self.buffer, offset);
        Got::Bytes
    }

    /// The order of the bytes of a word, which is byte 9 of a core file: 0 where the lowest comes first, 1 where the highest does.
    pub fn order(&self) -> u8
        ensures order { result ≡ order_of self.now }
        ensures told { IsOrderOf (told_of self.now) result }
        ensures byte { (bytes : List ℕ)
            → Holds (F.told (files_of self.now).now (name_of self.now)) bytes → IsCore bytes
            → slice_get bytes 9 ≡ Some result }
    {
        self.order
    }

    /// The native ids of the core's threads, which rise.
    pub fn contexts(&self) -> &Natives
        ensures { result.now ≡ contexts_of self.now }
    {
        &self.contexts
    }
}

impl<'a, F: Files> Callbacks for Pages<'a, F> {
    ghost use Rattle.omi_page.specs.Borrowed.{told_of, faults_counted, StaysBorrowed};

    ghost told = { told_of };

    ghost faults = { faults_counted };

    fn read_memory(&mut self, addr: u64, to: &mut [u8; 8]) -> Got
        ensures mapped { (words rest : Words) → (told_of self.old).words rest ≡ Some words
            → SaysMapped result (aligned_word_at words addr) }
        ensures bytes { (words rest : Words) (order : ℕ) → (told_of self.old).words rest ≡ Some words
            → (told_of self.old).order ≡ Some order → result ≡ Got.Bytes
            → aligned_word_at words addr ≡ Some (number_of order to.new) }
        ensures same { told_of self.new ≡ told_of self.old }
        ensures cause { HasCause (faults_counted self.old) (faults_counted self.new)
            (result ≡ Got.Failed) }
        ensures asked { AsksWord (told_of self.old) addr unlisted unlisted (result ≡ Got.Failed) }
        ensures stays { StaysBorrowed self.old self.new }
    {
        self.read_word(addr, to)
    }

    fn symbol_addr_lookup(&mut self, name: &str) -> Place
        ensures symbol { (symbols : Symbols) → (told_of self.old).symbols ≡ Some symbols
            → SaysPlace result (symbols name.now) }
        ensures table { (words rest : Words) → (told_of self.old).words rest ≡ Some words
            → SaysPlace result (symbol_in (aligned_word_at words) name.now) }
        ensures same { told_of self.new ≡ told_of self.old }
        ensures cause { HasCause (faults_counted self.old) (faults_counted self.new)
            (result ≡ Place.Failed) }
        ensures asked { unlisted ≡ asked_after (Symbol name.now) unlisted }
        ensures stays { StaysBorrowed self.old self.new }
    {
        match self.symbol(name) {
            Ok(Some(addr)) => Place::At(addr),
            Ok(None) => Place::NoSuch,
            Err(_) => Place::Failed,
        }
    }

    fn sizeof_type(&self) -> Sizes {
        Sizes {
            char_size: 1,
            short_size: 2,
            int_size: 4,
            long_size: 8,
            long_long_size: 8,
            pointer_size: 8,
        }
    }
}
