//! What the clauses ask of a word by itself, by the field in which it stands.

ghost use Rattle.std.specs.Prelude.{◌≡◌, true, None, slice_get};
ghost use Rattle.std.specs.Option.{option_map};
ghost use Rattle.omi_layout.specs.Valid.{is_between};
ghost use Rattle.omi_session.specs.Named.{record_kind};
ghost use Rattle.omi_word.specs.Words.{Words};
ghost use Rattle.omi_audit.specs.Clauses as the;

use omi_handle::Kind;
use omi_layout::{Field, GROUP_PLACE, Layout};
use omi_numbers::{
    AUTO, CHUNK_PLACE, OPEN_GROUPS, OPENMP_VERSION, STATIC, entry_address, function_at, lock_wait,
    native_id, state_name, state_of, wait_of,
};
use omi_script::limits::{
    MAX_CHUNK, MAX_DEVICE, MAX_FUNCTIONS, MAX_LEVELS, MAX_LOCK, MAX_PROCS, MAX_SIZE, MAX_SIZES,
};

/// Whether a word is a flag.
fn is_flag(word: u64) -> bool
    ensures { result ≡ the.is_flag word }
{
    word <= 1
}

/// Whether a word is the entry address of a function.
fn is_entry(word: u64) -> bool
    ensures { result ≡ the.is_entry word }
{
    let function = function_at(word);
    entry_address(function) == word && usize::from(function) < MAX_FUNCTIONS
}

/// Whether a word is a state with no wait id or that of a lock.
fn is_state(word: u64) -> bool
    ensures { result ≡ the.is_state word }
{
    state_name(state_of(word)).is_some() && wait_of(word) <= lock_wait(MAX_LOCK)
}

/// Whether a word is a kind of schedule and a chunk.
fn is_schedule(word: u64) -> bool
    ensures { result ≡ the.is_schedule word }
{
    let kind = word % CHUNK_PLACE;
    u64::from(STATIC) <= kind
        && kind <= u64::from(AUTO)
        && word / CHUNK_PLACE <= u64::from(MAX_CHUNK)
}

/// Whether a number is from 1 to a greatest one.
fn is_counted(word: u64, most: u64) -> bool
    ensures { result ≡ is_between 1 word most }
{
    1 <= word && word <= most
}

/// The kind of object to whose record the word at a place of a field leads.
pub fn leads_to(field: Field, at: u64) -> Option<Kind>
    ensures { option_map record_kind result ≡ the.leads_to field at }
{
    match field {
        Field::TaskThread => Some(Kind::Thread),
        Field::RegionEnclosing | Field::TaskRegion => Some(Kind::Region),
        Field::ThreadCurrent
        | Field::RegionEncountering
        | Field::RegionTeam
        | Field::TaskGenerating
        | Field::TaskScheduling => Some(Kind::Task),
        Field::TaskSlots if at == u64::from(GROUP_PLACE) => Some(Kind::Task),
        _ => None,
    }
}

/// The address to which a word in such a field leads: that of a task's record, of the word for a group of this task.
pub fn led_to(field: Field, word: u64) -> u64
    ensures { result ≡ the.led_to field word }
{
    match field {
        Field::TaskSlots => word - word % u64::from(OPEN_GROUPS),
        _ => word,
    }
}

/// The number of the clause that such a word fails where it leads to no live record.
pub fn pointer_clause(field: Field) -> u8
    ensures { result ≡ the.pointer_clause field }
{
    match field {
        Field::TaskSlots => 6,
        _ => 4,
    }
}

/// Whether a field that points to a record may hold 0.
pub fn may_be_none(field: Field) -> bool
    ensures { result ≡ the.may_be_none field }
{
    match field {
        Field::ThreadCurrent
        | Field::RegionEnclosing
        | Field::RegionEncountering
        | Field::TaskGenerating
        | Field::TaskScheduling
        | Field::TaskSlots => true,
        _ => false,
    }
}

/// Clause 2, of the runtime record.
fn is_global(layout: &Layout, field: Field, word: u64) -> bool
    ensures { result ≡ the.clause_2 layout.now.table field word }
{
    match field {
        Field::RuntimeVersion => word == OPENMP_VERSION,
        Field::RuntimeThreads => word == u64::from(layout.threads()),
        Field::RuntimeProcs => is_counted(word, u64::from(MAX_PROCS)),
        Field::RuntimeDebug => is_flag(word),
        Field::RuntimeMaxActive => word <= u64::from(MAX_LEVELS),
        _ => true,
    }
}

/// Clause 3, of a thread's record.
fn is_of_thread(thread: u8, field: Field, word: u64) -> bool
    ensures { result ≡ the.clause_3 thread field word }
{
    match field {
        Field::ThreadLife => is_flag(word),
        Field::ThreadNative => word == native_id(thread),
        Field::ThreadState => is_state(word),
        _ => true,
    }
}

/// Clause 5, of a region's record.
fn is_of_region(layout: &Layout, field: Field, word: u64) -> bool
    ensures { result ≡ the.clause_5 layout.now.table field word }
{
    match field {
        Field::RegionFunction => is_entry(word),
        Field::RegionSize => is_counted(word, u64::from(layout.threads())),
        Field::RegionLevels | Field::RegionActive => word <= u64::from(MAX_LEVELS),
        _ => true,
    }
}

/// Clause 6, of a task's record.
fn is_of_task(layout: &Layout, field: Field, at: u64, word: u64) -> bool
    ensures { result ≡ the.clause_6 layout.now.table field at word }
{
    match field {
        Field::TaskImplicit | Field::TaskDynamic | Field::TaskFinal => is_flag(word),
        Field::TaskNumber => word < u64::from(layout.threads()),
        Field::TaskFunction => is_entry(word),
        Field::TaskNthreadsLength => is_counted(word, MAX_SIZES as u64),
        Field::TaskSchedule => is_schedule(word),
        Field::TaskDevice => word <= u64::from(MAX_DEVICE),
        Field::TaskNthreads => is_counted(word, u64::from(MAX_SIZE)),
        Field::TaskSlots => at == u64::from(GROUP_PLACE) || word <= u64::from(OPEN_GROUPS),
        _ => true,
    }
}

/// The number of the clause that fails at a word that leads to no record, if one does.
pub fn failing(layout: &Layout, thread: u8, field: Field, at: u64, word: u64) -> Option<u8>
    ensures first { (words : Words) → the.leads_to field at ≡ None
        → result ≡ slice_get (the.failing layout.now.table words thread field at word) 0 }
    ensures region { result ≡ None → the.clause_5 layout.now.table field word ≡ true }
    ensures task { result ≡ None → the.clause_6 layout.now.table field at word ≡ true }
{
    if !is_global(layout, field, word) {
        Some(2)
    } else if !is_of_thread(thread, field, word) {
        Some(3)
    } else if !is_of_region(layout, field, word) {
        Some(5)
    } else if !is_of_task(layout, field, at, word) {
        Some(6)
    } else {
        None
    }
}
