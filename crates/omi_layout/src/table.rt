//! The numbers of a layout table.

ghost use Rattle.std.specs.Prelude.{◌≡◌, ◌≤◌};
ghost use Rattle.omi_layout.specs.declared.limits.TheConstants.{MOST_RECORDS, MOST_RECORD_WORDS};
ghost use Rattle.omi_layout.specs.Field.{IsField};
ghost use Rattle.omi_layout.specs.Field as fields;
ghost use Rattle.omi_layout.specs.Table;

use crate::field::{Field, REGIONS, RUNTIME, TASKS, THREADS};
use crate::limits::{GROUP_VERSION, GROUP_WORDS, TABLE_WORDS};
use omi_numbers::OWN_SLOTS;
use omi_script::limits::{MAX_LOCK, MAX_SIZES};

/// The kind of record that a field belongs to.
pub fn kind(field: u8) -> u8
    ensures { result ≡ fields.kind_of field }
{
    if field < Field::ThreadLife as u8 {
        RUNTIME
    } else if field < Field::RegionLife as u8 {
        THREADS
    } else if field < Field::TaskLife as u8 {
        REGIONS
    } else {
        TASKS
    }
}

/// Where in the table the place of an arena stands.
pub fn place_index(p: u8) -> usize
    ensures { result ≡ Table.place_index p }
{
    if p == RUNTIME {
        1
    } else if p == THREADS {
        3
    } else if p == REGIONS {
        6
    } else {
        9
    }
}

/// The byte address at which an arena begins.
pub fn place(w: &[u64; TABLE_WORDS], p: u8) -> u64
    ensures { result ≡ Table.place w.now p }
{
    w[place_index(p)]
}

/// The words of one record of an arena.
pub fn size(w: &[u64; TABLE_WORDS], p: u8) -> u64
    ensures { result ≡ Table.size w.now p }
{
    w[place_index(p) + 1]
}

/// The records that a thread has in an arena.
pub fn per_thread(w: &[u64; TABLE_WORDS], p: u8) -> u64
    ensures { result ≡ Table.per_thread w.now p }
{
    if p == REGIONS {
        w[8]
    } else if p == TASKS {
        w[11]
    } else {
        1
    }
}

/// The words in front of a field in its record.
pub fn offset(w: &[u64; TABLE_WORDS], field: u8) -> u64
    requires { IsField field }
    ensures { result ≡ Table.offset w.now field }
{
    w[11 + field as usize]
}

/// The words of the last field, by the version of the table.
pub fn slot_words(version: u64) -> u64
    ensures { result ≡ Table.slot_words version }
{
    if version == GROUP_VERSION {
        u64::from(OWN_SLOTS) + u64::from(GROUP_WORDS)
    } else {
        u64::from(OWN_SLOTS)
    }
}

/// The words of a field.
pub fn width(w: &[u64; TABLE_WORDS], field: u8) -> u64
    ensures { result ≡ Table.width w.now field }
{
    if field == Field::RuntimeLocks as u8 {
        u64::from(MAX_LOCK) + 1
    } else if field == Field::RegionTeam as u8 {
        w[5]
    } else if field == Field::TaskNthreads as u8 {
        MAX_SIZES as u64
    } else if field == Field::TaskSlots as u8 {
        slot_words(w[0])
    } else {
        1
    }
}

/// The records of an arena.
pub fn records(w: &[u64; TABLE_WORDS], p: u8) -> u64
    requires { Table.records w.now p ≤ MOST_RECORDS }
    ensures { result ≡ Table.records w.now p }
{
    if p == RUNTIME {
        1
    } else {
        w[5] * per_thread(w, p)
    }
}

/// The words of an arena.
pub fn extent(w: &[u64; TABLE_WORDS], p: u8) -> u64
    requires few { Table.records w.now p ≤ MOST_RECORDS }
    requires small { Table.size w.now p ≤ MOST_RECORD_WORDS }
    ensures { result ≡ Table.extent w.now p }
{
    records(w, p) * size(w, p)
}
