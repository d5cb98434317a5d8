//! Words of records, read through a layout, and how names of objects stand in words.

ghost use Rattle.std.specs.Prelude.{◌≡◌, ◌+◌, ◌*◌};
ghost use Rattle.omi_layout.specs.Field.{kind_of};
ghost use Rattle.omi_layout.specs.Named.{number};
ghost use Rattle.omi_layout.specs.Table;

use omi_layout::{Field, GROUP_VERSION, Kind, Layout};
use omi_model::{Group, Id, Rid, Tid};
use omi_word::Image;

/// A record, by the thread that makes it and its slot.
#[derive(Clone, Copy, Debug)]
pub struct Place {
    pub creator: u8,
    pub slot: u16,
}

/// The runtime record.
pub const RUNTIME: Place = Place {
    creator: 0,
    slot: 0,
};

/// The record of a thread.
pub fn record_of_thread(i: u8) -> Place {
    Place {
        creator: i,
        slot: 0,
    }
}

/// How many threads have records with a field.
fn makers(l: &Layout, field: Field) -> u8
    ensures { result ≡ Table.makers l.now.table (kind_of (number field)) }
{
    match field.kind() {
        Kind::Runtime => 1,
        _ => l.threads(),
    }
}

/// How many records with a field a thread has.
fn records(l: &Layout, field: Field) -> u16
    ensures { result ≡ Table.per_thread l.now.table (kind_of (number field)) }
{
    match field.kind() {
        Kind::Regions => l.regions_per_thread(),
        Kind::Tasks => l.tasks_per_thread(),
        _ => 1,
    }
}

/// The words of a field.
fn width(l: &Layout, field: Field) -> u8
    ensures { result ≡ Table.width l.now.table (number field) }
{
    let f = field.number();
    if f == Field::RuntimeLocks as u8 {
        8
    } else if f == Field::RegionTeam as u8 {
        l.threads()
    } else if f == Field::TaskNthreads as u8 {
        4
    } else if f == Field::TaskSlots as u8 {
        if l.version() == GROUP_VERSION { 10 } else { 4 }
    } else {
        1
    }
}

/// The byte address of the word at a place of a field of a record. None where the layout has no such word.
pub fn address(l: &Layout, record: Place, field: Field, at: u8) -> Option<u64> {
    let Place { creator, slot } = record;
    if creator >= makers(l, field) || slot >= records(l, field) || at >= width(l, field) {
        return None;
    }
    Some(l.word_at(creator, slot, field, at))
}

/// The word at a place of a field of a record. None where the layout has no such word, or it isn't mapped.
pub fn word(l: &Layout, image: &Image, record: Place, field: Field, at: u8) -> Option<u64> {
    image.get(address(l, record, field, at)?)
}

/// The address of the record of a thread, None where the layout has none.
pub fn thread_word(l: &Layout, i: u8) -> Option<u64> {
    if i < l.threads() {
        Some(l.thread_at(i))
    } else {
        None
    }
}

/// The address of the record of a region, 0 for none. None where the layout has no such record.
pub fn region_word(l: &Layout, n: Option<Rid>) -> Option<u64> {
    let Some(Rid(n)) = n else {
        return Some(0);
    };
    if n.creator < l.threads() && n.slot < l.regions_per_thread() {
        Some(l.region_at(n.creator, n.slot))
    } else {
        None
    }
}

/// The address of the record of a task, 0 for none. None where the layout has no such record.
pub fn task_word(l: &Layout, k: Option<Tid>) -> Option<u64> {
    let Some(Tid(k)) = k else {
        return Some(0);
    };
    if k.creator < l.threads() && k.slot < l.tasks_per_thread() {
        Some(l.task_at(k.creator, k.slot))
    } else {
        None
    }
}

/// The word of a task group, 0 for none: the address of its owner's record plus its index. None where the layout has no such record.
pub fn group_word(l: &Layout, g: Option<Group>) -> Option<u64> {
    let Some(Group { owner, index }) = g else {
        return Some(0);
    };
    let record = task_word(l, Some(owner))?;
    Some(record.wrapping_add(u64::from(index)))
}

/// How many bytes stand in a record in front of a field.
fn front(l: &Layout, field: Field) -> u64 {
    u64::from(l.offset(field.number())).wrapping_mul(8)
}

/// Whether an address is that of the life word of a region or of a task.
pub fn is_life_word(l: &Layout, at: u64) -> bool {
    let region = at.wrapping_sub(front(l, Field::RegionLife));
    let task = at.wrapping_sub(front(l, Field::TaskLife));
    l.region_of(region).is_some() || l.task_of(task).is_some()
}
