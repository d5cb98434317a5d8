//! A valid layout, and the places of its records.

ghost use Rattle.std.specs.Prelude.{◌≡◌, ◌<◌, ◌≤◌, ◌^◌, ◌↔◌, ℕ, Some, IfSome, MatchResult, MatchOption, IsTrue};
ghost use Rattle.omi_layout.specs.Field;
ghost use Rattle.omi_layout.specs.Field.{IsField, IsKind};
ghost use Rattle.omi_layout.specs.Table;
ghost use Rattle.omi_layout.specs.Place;
ghost use Rattle.omi_layout.specs.Place.{IsRecordAt, IsSlot, IsSlotAt, slot_address, record_address};
ghost use Rattle.omi_layout.specs.Memory.{IsRecordWord, word_address};
ghost use Rattle.omi_layout.specs.Named.{number};
ghost use Rattle.omi_layout.specs.Valid.{IsValid, RefusesTable};
ghost use Rattle.omi_layout.specs.declared.limits.TheConstants.{LAST_END};

use crate::fault::LayoutFault;
use crate::field::{Field as RecordField, Kind, REGIONS, RUNTIME, TASKS, THREADS};
use crate::judging::judge;
use crate::limits::{FRONT_WORDS, TABLE_WORDS};
use crate::table::{extent, offset, per_thread, place, records, size};
use omi_word::FIRST_ADDRESS;

/// A layout, as the words of its table. Every value of this type is valid.
#[derive(Clone, Copy, Debug)]
pub struct Layout {
    pub table: [u64; TABLE_WORDS],
    ghost valid: { IsValid table },
}

impl Layout {
    /// The layout that the words of a table spell. An error where there is none: the least field or
    /// arena that is wrong.
    pub fn of_words(w: &[u64; TABLE_WORDS]) -> Result<Layout, LayoutFault>
        ensures { MatchResult result (λ layout. layout.table ≡ w.now)
            (λ fault. RefusesTable w.now fault) }
    {
        judge(w)?;
        Ok(Layout { table: *w })
    }

    /// The byte address of the runtime record.
    #[tactic(auto, unfolding(crate::specs::Place::slot_address))]
    pub fn runtime_place(&self) -> u64
        ensures place { result ≡ Table.place self.now.table Field.runtime }
        ensures address { result ≡ slot_address self.now.table Field.runtime 0 0 }
        ensures low { result ≤ LAST_END }
    {
        place(&self.table, RUNTIME)
    }

    /// The version of the table, 1 or 2.
    pub fn version(&self) -> u64
        ensures { result ≡ Table.version self.now.table }
    {
        self.table[0]
    }

    /// The number of threads.
    pub fn threads(&self) -> u8
        ensures { result ≡ Table.thread_count self.now.table }
    {
        self.table[5] as u8
    }

    /// The records of regions that a thread may make.
    pub fn regions_per_thread(&self) -> u16
        ensures { result ≡ Table.per_thread self.now.table Field.regions }
    {
        self.table[8] as u16
    }

    /// The records of tasks that a thread may make.
    pub fn tasks_per_thread(&self) -> u16
        ensures { result ≡ Table.per_thread self.now.table Field.tasks }
    {
        self.table[11] as u16
    }

    /// The words in front of a field in its record.
    pub fn offset(&self, field: u8) -> u16
        requires { IsField field }
        ensures { result ≡ Table.offset self.now.table field }
    {
        offset(&self.table, field) as u16
    }

    /// The byte address of a record, by its number in its arena.
    fn record_at(&self, p: u8, index: u64) -> u64
        requires kind { IsKind p }
        requires within { index < Table.records self.now.table p }
        ensures record { result ≡ record_address self.now.table p index }
        ensures low { result ≤ LAST_END }
    {
        let words = index * size(&self.table, p);
        place(&self.table, p) + 8 * words
    }

    /// The byte address of a thread's record.
    #[tactic(auto, unfolding(crate::specs::Place::slot_address))]
    pub fn thread_at(&self, i: u8) -> u64
        requires { i < Table.thread_count self.now.table }
        ensures record { result ≡ record_address self.now.table Field.threads i }
        ensures address { result ≡ slot_address self.now.table Field.threads i 0 }
        ensures low { result ≤ LAST_END }
    {
        self.record_at(THREADS, i as u64)
    }

    #[tactic(auto, unfolding(crate::specs::Place::slot_address))]
    /// The byte address of the record of a region, by the thread that makes it and one of its slots.
    pub fn region_at(&self, creator: u8, slot: u16) -> u64
        requires { IsSlot self.now.table Field.regions creator slot }
        ensures address { result ≡ slot_address self.now.table Field.regions creator slot }
        ensures low { result ≤ LAST_END }
    {
        let index = creator as u64 * self.table[8] + slot as u64;
        self.record_at(REGIONS, index)
    }

    #[tactic(auto, unfolding(crate::specs::Place::slot_address))]
    /// The byte address of the record of a task, by the thread that makes it and one of its slots.
    pub fn task_at(&self, creator: u8, slot: u16) -> u64
        requires { IsSlot self.now.table Field.tasks creator slot }
        ensures address { result ≡ slot_address self.now.table Field.tasks creator slot }
        ensures low { result ≤ LAST_END }
    {
        let index = creator as u64 * self.table[11] + slot as u64;
        self.record_at(TASKS, index)
    }

    /// The byte address of a word of a record, by the thread that makes the record, its slot, the field and the place in the field.
    #[tactic(auto, unfolding(crate::specs::Memory::word_address))]
    pub fn word_at(&self, creator: u8, slot: u16, field: RecordField, at: u8) -> u64
        requires { IsRecordWord self.now.table creator slot (number field) at }
        ensures { result ≡ word_address self.now.table creator slot (number field) at }
    {
        let record = match field.kind() {
            Kind::Runtime => self.runtime_place(),
            Kind::Threads => self.thread_at(creator),
            Kind::Regions => self.region_at(creator, slot),
            Kind::Tasks => self.task_at(creator, slot),
        };
        let front = u64::from(self.offset(field.number())) + u64::from(at);
        record + 8 * front
    }

    /// The number in its arena of the record at a byte address. None where no record begins there.
    fn index_at(&self, p: u8, addr: u64) -> Option<u64>
        requires { IsKind p }
        ensures { IsRecordAt self.now.table p addr result }
    {
        let first = place(&self.table, p);
        let bytes = 8 * size(&self.table, p);
        if addr < first {
            return None;
        }
        let gap = addr - first;
        let index = gap / bytes;
        let rest = gap % bytes;
        if rest != 0 {
            return None;
        }
        if index < records(&self.table, p) {
            Some(index)
        } else {
            None
        }
    }

    /// The number of the thread whose record begins at a byte address. None exactly where none does.
    pub fn thread_of(&self, addr: u64) -> Option<u8>
        ensures { IsRecordAt self.now.table Field.threads addr result }
    {
        let index = self.index_at(THREADS, addr)?;
        Some(index as u8)
    }

    /// The thread and the slot whose record begins at a byte address in the arena of regions or of
    /// tasks. None exactly where none does.
    fn slot_of(&self, p: u8, addr: u64) -> Option<(u8, u16)>
        requires from { Field.regions ≤ p }
        requires to { p ≤ Field.tasks }
        ensures { IsSlotAt self.now.table p addr result }
    {
        let index = self.index_at(p, addr)?;
        let per = per_thread(&self.table, p);
        let creator = index / per;
        let slot = index % per;
        Some((creator as u8, slot as u16))
    }

    /// The thread and the slot of the region whose record begins at a byte address. None exactly where
    /// none does.
    pub fn region_of(&self, addr: u64) -> Option<(u8, u16)>
        ensures { IsSlotAt self.now.table Field.regions addr result }
    {
        self.slot_of(REGIONS, addr)
    }

    /// The thread and the slot of the task whose record begins at a byte address. None exactly where
    /// none does.
    pub fn task_of(&self, addr: u64) -> Option<(u8, u16)>
        ensures { IsSlotAt self.now.table Field.tasks addr result }
    {
        self.slot_of(TASKS, addr)
    }

    /// The place in an image of the first word of an arena.
    fn first_word(&self, p: u8) -> u64
        requires { IsKind p }
        ensures { result ≡ Place.first_word self.now.table p }
    {
        (place(&self.table, p) - FIRST_ADDRESS) / 8
    }

    /// The place in an image behind the last word of an arena.
    fn end_word(&self, p: u8) -> u64
        requires { IsKind p }
        ensures value { result ≡ Place.arena_end self.now.table p }
        ensures small { result < 2 ^ 45 }
    {
        self.first_word(p) + extent(&self.table, p)
    }

    /// Whether an arena lies behind the tables and inside so many words.
    fn arena_fits(&self, words: u64, p: u8) -> bool
        requires { IsKind p }
        ensures { result ≡ Place.arena_fits self.now.table words p }
    {
        FRONT_WORDS <= self.first_word(p) && self.end_word(p) <= words
    }

    /// Whether each arena lies behind the tables and inside so many words.
    pub fn fits(&self, words: usize) -> bool
        ensures { result ≡ Place.fits self.now.table words }
    {
        let words = words as u64;
        let first = self.arena_fits(words, RUNTIME);
        let second = self.arena_fits(words, THREADS);
        let third = self.arena_fits(words, REGIONS);
        let fourth = self.arena_fits(words, TASKS);
        first && second && third && fourth
    }

    /// The least number of words, those in front of the records among them, in which every arena ends.
    pub fn image_words(&self) -> usize
        ensures { result ≡ Place.image_words self.now.table }
    {
        let first = FRONT_WORDS.max(self.end_word(RUNTIME));
        let second = self.end_word(REGIONS).max(self.end_word(TASKS));
        first.max(self.end_word(THREADS).max(second)) as usize
    }
}
