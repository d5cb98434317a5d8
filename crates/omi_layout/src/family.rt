//! The families of layouts.

ghost use Rattle.std.specs.Prelude.{◌≡◌, ◌≤◌, IsTrue};
ghost use Rattle.omi_word.specs.declared.limits.TheConstants.{MOST_WORDS};
ghost use Rattle.omi_layout.specs.Field.{IsField, IsKind};
ghost use Rattle.omi_layout.specs.Family;
ghost use Rattle.omi_layout.specs.Family.{IsFamily, IsFamilyOf};
ghost use Rattle.omi_layout.specs.Place.{fits, image_words};
ghost use Rattle.omi_layout.specs.declared.limits.TheConstants.{FIRST_VERSION, MOST_FAMILY_WORDS, MOST_THREADS};

use crate::field::{Field, REGIONS, RUNTIME, TASKS, THREADS};
use crate::layout::Layout;
use crate::limits::{
    FAMILY_REGIONS, FAMILY_TASKS, FIELDS, FIRST_VERSION, FRONT_WORDS, GROUP_VERSION, TABLE_WORDS,
};
use crate::table::{kind, slot_words};
use omi_script::limits::{MAX_LOCK, MAX_SIZES};
use omi_word::FIRST_ADDRESS;

/// The fields of a task's record, and how many of them stand in front of the elements of nthreads-var: each of one word.
const TASK_FIELDS: u8 = FIELDS + 1 - Field::TaskLife as u8;

const TASK_SINGLES: u64 = Field::TaskNthreads as u64 - Field::TaskLife as u64;

/// The first field of a record.
fn first_field(p: u8) -> u8
    ensures { result ≡ Family.first_field p }
{
    if p == RUNTIME {
        Field::RuntimeVersion as u8
    } else if p == THREADS {
        Field::ThreadLife as u8
    } else if p == REGIONS {
        Field::RegionLife as u8
    } else {
        Field::TaskLife as u8
    }
}

/// How many fields a record has.
fn field_count(p: u8) -> u8
    ensures { result ≡ Family.field_count p }
{
    if p == RUNTIME {
        6
    } else if p == THREADS {
        6
    } else if p == REGIONS {
        12
    } else {
        TASK_FIELDS
    }
}

/// The words of all fields of a record.
fn field_words(version: u64, threads: u8, p: u8) -> u64
    ensures { result ≡ Family.field_words version threads p }
{
    if p == RUNTIME {
        5 + (u64::from(MAX_LOCK) + 1)
    } else if p == THREADS {
        6
    } else if p == REGIONS {
        11 + u64::from(threads)
    } else {
        TASK_SINGLES + (MAX_SIZES as u64 + slot_words(version))
    }
}

/// The words of the fields in front of a field in the listed order.
fn words_before(field: u8) -> u64
    requires { IsField field }
    ensures { result ≡ Family.words_before field }
{
    if field == Field::TaskSlots as u8 {
        TASK_SINGLES + MAX_SIZES as u64
    } else {
        u64::from(field - first_field(kind(field)))
    }
}

/// The field that stands first in its record.
fn turned_first(k: u8, p: u8) -> u8
    requires { IsKind p }
    ensures value { result ≡ Family.turned_first k p }
    ensures field { IsField result }
{
    first_field(p) + k % field_count(p)
}

/// The words in front of a field in its record.
fn family_offset(version: u64, k: u8, threads: u8, field: u8) -> u64
    requires { IsField field }
    ensures { result ≡ Family.family_offset version k threads field }
{
    let first = turned_first(k, kind(field));
    let gap = u64::from(k % 3);
    let front = words_before(field);
    let turned = words_before(first);
    if first <= field {
        gap + (front - turned)
    } else {
        let all = field_words(version, threads, kind(field));
        gap + ((all - turned) + front)
    }
}

/// The words of a record.
fn family_size(version: u64, k: u8, threads: u8, p: u8) -> u64
    ensures { result ≡ Family.family_size version k threads p }
{
    u64::from(k % 3) + field_words(version, threads, p) + u64::from(k % 2)
}

/// The words of an arena.
fn family_extent(version: u64, k: u8, threads: u8, p: u8) -> u64
    requires { threads ≤ MOST_THREADS }
    ensures value { result ≡ Family.family_extent version k threads p }
    ensures small { result ≤ MOST_FAMILY_WORDS }
{
    let count = u64::from(threads);
    let words = family_size(version, k, threads, p);
    if p == RUNTIME {
        words
    } else if p == THREADS {
        count * words
    } else if p == REGIONS {
        count * FAMILY_REGIONS * words
    } else {
        count * FAMILY_TASKS * words
    }
}

/// The byte address at which an arena begins.
fn family_place(version: u64, k: u8, threads: u8, p: u8) -> u64
    requires kind { IsKind p }
    requires few { threads ≤ MOST_THREADS }
    ensures { result ≡ Family.family_place version k threads p }
{
    let runtime = family_extent(version, k, threads, RUNTIME);
    let of_threads = family_extent(version, k, threads, THREADS);
    let regions = family_extent(version, k, threads, REGIONS);
    let tasks = family_extent(version, k, threads, TASKS);
    let front = if k % 2 == 0 {
        if p == RUNTIME {
            0
        } else if p == THREADS {
            runtime
        } else if p == REGIONS {
            runtime + of_threads
        } else {
            runtime + of_threads + regions
        }
    } else {
        if p == RUNTIME {
            tasks + regions + of_threads
        } else if p == THREADS {
            tasks + regions
        } else if p == REGIONS {
            tasks
        } else {
            0
        }
    };
    FIRST_ADDRESS + 8 * (FRONT_WORDS + front)
}

/// The table of a family in a version.
fn family_table(version: u64, k: u8, threads: u8) -> [u64; TABLE_WORDS]
    requires { threads ≤ MOST_THREADS }
    ensures { IsFamilyOf version k threads result }
{
    let mut table = [0u64; TABLE_WORDS];
    table[0] = version;
    table[1] = family_place(version, k, threads, RUNTIME);
    table[2] = family_size(version, k, threads, RUNTIME);
    table[3] = family_place(version, k, threads, THREADS);
    table[4] = family_size(version, k, threads, THREADS);
    table[5] = u64::from(threads);
    table[6] = family_place(version, k, threads, REGIONS);
    table[7] = family_size(version, k, threads, REGIONS);
    table[8] = FAMILY_REGIONS;
    table[9] = family_place(version, k, threads, TASKS);
    table[10] = family_size(version, k, threads, TASKS);
    table[11] = FAMILY_TASKS;
    for f in 1..FIELDS + 1 {
        table[11 + f as usize] = family_offset(version, k, threads, f);
    }
    table
}

impl Layout {
    /// The layout of family `k`, one of sixteen, with so many threads.
    pub fn family(k: u8, threads: u8) -> Layout
        requires family { k ≤ 15 }
        requires some { 1 ≤ threads }
        requires most { threads ≤ MOST_THREADS }
        ensures family { IsFamily k threads result.table }
        ensures fits { IsTrue (fits result.table (image_words result.table)) }
        ensures small { image_words result.table ≤ MOST_WORDS }
    {
        let table = family_table(GROUP_VERSION, k, threads);
        Layout { table }
    }

    /// The layout of family `k` in the first version, without words for groups of tasks.
    pub fn family_v1(k: u8, threads: u8) -> Layout
        requires family { k ≤ 15 }
        requires some { 1 ≤ threads }
        requires most { threads ≤ MOST_THREADS }
        ensures family { IsFamilyOf FIRST_VERSION k threads result.table }
        ensures fits { IsTrue (fits result.table (image_words result.table)) }
        ensures small { image_words result.table ≤ MOST_WORDS }
    {
        let table = family_table(FIRST_VERSION, k, threads);
        Layout { table }
    }
}
