//! The judging of a layout table: the first refusal, by its least field or arena.

ghost use Rattle.std.specs.Prelude.{◌≡◌, ◌+◌, ◌*◌, ◌<◌, ◌≤◌, ◌^◌, true, MatchOption, MatchResult, IfSome};
ghost use Rattle.omi_layout.specs.declared.limits.TheConstants.{MOST_RECORDS, MOST_RECORD_WORDS};
ghost use Rattle.omi_layout.specs.Field.{IsField, IsKind};
ghost use Rattle.omi_layout.specs.Table;
ghost use Rattle.omi_layout.specs.Valid;
ghost use Rattle.omi_layout.specs.Valid.{AllInside, AllApart, IsApart, IsValid, RefusesTable};
ghost use Rattle.omi_layout.specs.Judged.{IsFirstOverlap, AllBelow};

use crate::fault::LayoutFault;
use crate::field::{REGIONS, RUNTIME, TASKS, THREADS};
use crate::limits::{
    FIELDS, FIRST_VERSION, GROUP_VERSION, LAST_END, MOST_RECORD_WORDS, MOST_REGIONS, MOST_TASKS,
    MOST_THREADS, TABLE_WORDS,
};
use crate::table::{extent, kind, offset, place, size, width};
use omi_word::FIRST_ADDRESS;

/// Whether this is a version of the layout table.
fn is_known(version: u64) -> bool
    ensures { result ≡ Valid.is_known version }
{
    version == FIRST_VERSION || version == GROUP_VERSION
}

/// Whether a field ends inside its record, and the record isn't too large.
fn is_inside(w: &[u64; TABLE_WORDS], field: u8) -> bool
    requires { IsField field }
    ensures { result ≡ Valid.is_inside w.now field }
{
    let room = size(w, kind(field));
    let front = offset(w, field);
    let words = width(w, field);
    room <= MOST_RECORD_WORDS && front <= room && words <= room - front
}

/// Whether two ranges, each by its beginning and its length, have something in common.
fn shares(a: u64, m: u64, b: u64, n: u64) -> bool
    requires first { a + m < 2 ^ 64 }
    requires second { b + n < 2 ^ 64 }
    ensures { result ≡ Valid.shares a m b n }
{
    0 < m && 0 < n && a < b + n && b < a + m
}

/// Whether two fields of one record share a word.
fn overlap(w: &[u64; TABLE_WORDS], f: u8, g: u8) -> bool
    requires inside { AllInside w.now }
    requires first { IsField f }
    requires second { IsField g }
    ensures { result ≡ Valid.overlap w.now f g }
{
    let same = kind(f) == kind(g);
    let front = offset(w, f);
    let words = width(w, f);
    let other_front = offset(w, g);
    let other_words = width(w, g);
    same && shares(front, words, other_front, other_words)
}

/// The least later field that a field overlaps.
fn first_overlap(w: &[u64; TABLE_WORDS], f: u8) -> Option<u8>
    requires inside { AllInside w.now }
    requires field { IsField f }
    ensures { MatchOption result (IsApart w.now f) (λ g. IsFirstOverlap w.now f g) }
{
    for g in f + 1..FIELDS + 1 {
        if overlap(w, f, g) {
            return Some(g);
        }
    }
    None
}

/// Whether the count of an arena is in range.
fn is_counted(w: &[u64; TABLE_WORDS], p: u8) -> bool
    requires { IsKind p }
    ensures { result ≡ Valid.is_counted w.now p }
{
    if p == RUNTIME {
        true
    } else if p == THREADS {
        1 <= w[5] && w[5] <= MOST_THREADS
    } else if p == REGIONS {
        1 <= w[8] && w[8] <= MOST_REGIONS
    } else {
        1 <= w[11] && w[11] <= MOST_TASKS
    }
}

/// Whether an arena begins at a word, and lies between the first address and the last.
fn is_placed(w: &[u64; TABLE_WORDS], p: u8) -> bool
    requires few { Table.records w.now p ≤ MOST_RECORDS }
    requires small { Table.size w.now p ≤ MOST_RECORD_WORDS }
    ensures { result ≡ Valid.is_placed w.now p }
{
    let bytes = 8 * extent(w, p);
    let first = place(w, p);
    first % 8 == 0 && FIRST_ADDRESS <= first && first <= LAST_END && first + bytes <= LAST_END
}

/// Whether an arena shares a word with this one of lower number.
fn is_taken(w: &[u64; TABLE_WORDS], q: u8, p: u8) -> bool
    requires is { IsKind q }
    requires inside { AllInside w.now }
    requires below { AllBelow w.now p }
    requires few { Table.records w.now p ≤ MOST_RECORDS }
    requires small { Table.size w.now p ≤ MOST_RECORD_WORDS }
    requires placed { Valid.is_placed w.now p ≡ true }
    ensures { result ≡ Valid.is_taken w.now q p }
{
    if q < p {
        shares(place(w, q), 8 * extent(w, q), place(w, p), 8 * extent(w, p))
    } else {
        false
    }
}

/// Whether an arena is in order.
fn is_arena(w: &[u64; TABLE_WORDS], p: u8) -> bool
    requires is { IsKind p }
    requires inside { AllInside w.now }
    requires below { AllBelow w.now p }
    ensures { result ≡ Valid.is_arena w.now p }
{
    if !is_counted(w, p) {
        return false;
    }
    if !is_placed(w, p) {
        return false;
    }
    let first = is_taken(w, RUNTIME, p);
    let second = is_taken(w, THREADS, p);
    let third = is_taken(w, REGIONS, p);
    !first && !second && !third
}

/// Looks at each field's end.
fn judge_ends(w: &[u64; TABLE_WORDS]) -> Result<(), LayoutFault>
    requires { Valid.is_known (Table.version w.now) ≡ true }
    ensures { MatchResult result (λ _. AllInside w.now) (λ e. RefusesTable w.now e) }
{
    for f in 1..FIELDS + 1 {
        if !is_inside(w, f) {
            return Err(LayoutFault::OutOfRecord(f));
        }
    }
    Ok(())
}

/// Looks at each two fields.
fn judge_fields(w: &[u64; TABLE_WORDS]) -> Result<(), LayoutFault>
    requires known { Valid.is_known (Table.version w.now) ≡ true }
    requires inside { AllInside w.now }
    ensures { MatchResult result (λ _. AllApart w.now) (λ e. RefusesTable w.now e) }
{
    for f in 1..FIELDS + 1 {
        if let Some(g) = first_overlap(w, f) {
            return Err(LayoutFault::Overlap(f, g));
        }
    }
    Ok(())
}

/// Looks at each arena.
fn judge_arenas(w: &[u64; TABLE_WORDS]) -> Result<(), LayoutFault>
    requires known { Valid.is_known (Table.version w.now) ≡ true }
    requires inside { AllInside w.now }
    requires apart { AllApart w.now }
    ensures { MatchResult result (λ _. IsValid w.now) (λ e. RefusesTable w.now e) }
{
    for p in RUNTIME..TASKS + 1 {
        if !is_arena(w, p) {
            return Err(LayoutFault::BadArena(p));
        }
    }
    Ok(())
}

/// Whether a table is valid, and its refusal where it isn't.
pub fn judge(w: &[u64; TABLE_WORDS]) -> Result<(), LayoutFault>
    ensures { MatchResult result (λ _. IsValid w.now) (λ e. RefusesTable w.now e) }
{
    if !is_known(w[0]) {
        return Err(LayoutFault::Version(w[0]));
    }
    judge_ends(w)?;
    judge_fields(w)?;
    judge_arenas(w)
}
