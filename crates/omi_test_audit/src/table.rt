//! Clauses 1 to 6 at the words that are judged of a fork and of a nested chain: the word is not mapped, it is out of range, or it names no live record
//! of its kind; and two of these words at once.

use crate::asking::{Case, Word, change, first_wrong, refused};
use crate::places::{BadWord, of_fork, of_list, of_nested};
use crate::stops::{Records, forked, listed, nested, records_of};
use omi_audit::Verdict;
use omi_fixture_targets::{Words, Wrong};
use omi_layout::Field;
use std::alloc::Global;
use std::test::Fail;

/// The word isn't mapped.
fn hole(word: Word) -> Word {
    let (record, field, place, _) = word;
    (record, field, place, None)
}

/// Each word alone is refused by its clause, and by clause 1 where it isn't mapped.
fn each_alone(alloc: Global, words: &Words, bad: &[BadWord]) -> Result<Vec<Case>, Wrong> {
    let mut cases = Vec::new(alloc);
    for (word, clause) in bad {
        cases.push(refused(words, *word, *word, *clause))?;
        let hole = hole(*word);
        cases.push(refused(words, hole, hole, 1))?;
    }
    Ok(cases)
}

/// Of two words, the second so many places behind the first, the first is refused, also where one of them isn't mapped.
fn in_pairs(alloc: Global, words: &Words, bad: &[BadWord], gap: usize) -> Result<Vec<Case>, Wrong> {
    let mut cases = Vec::new(alloc);
    for at in gap..bad.len() {
        let (first, clause) = bad[at - gap];
        let (second, _) = bad[at];
        cases.push(refused(words, first, second, clause))?;
        cases.push(refused(words, first, hole(second), clause))?;
        cases.push(refused(words, hole(first), second, 1))?;
    }
    Ok(cases)
}

#[test]
fn each_word_of_a_fork(rt: HostRuntime) -> Result<(), Fail> {
    for family in [0, 7] {
        let words = forked(rt.alloc(), family)?;
        let bad = of_fork(rt.alloc(), &records_of(&words)?)?;
        let cases = each_alone(rt.alloc(), &words, bad.as_slice())?;
        let wrong = first_wrong(rt.alloc(), &words, cases.as_slice())?;
        assert_eq!(rt; wrong, None, "family {family}");
    }
    Ok(())
}

#[test]
fn each_word_of_a_nested_chain(rt: HostRuntime) -> Result<(), Fail> {
    let words = nested(rt.alloc(), 0)?;
    let bad = of_nested(rt.alloc(), &records_of(&words)?)?;
    let cases = each_alone(rt.alloc(), &words, bad.as_slice())?;
    assert_eq!(rt; first_wrong(rt.alloc(), &words, cases.as_slice())?, None);
    Ok(())
}

/// Each element of a list of four, and words behind a shorter list.
#[test]
fn each_word_of_a_list(rt: HostRuntime) -> Result<(), Fail> {
    let words = listed(rt.alloc())?;
    let r = records_of(&words)?;
    let bad = of_list(rt.alloc(), &r)?;
    let mut cases = each_alone(rt.alloc(), &words, bad.as_slice())?;
    for (at, word) in [(1u64, Some(0u64)), (2, Some(65)), (3, Some(0)), (3, None)] {
        let element = (r.initial, Field::TaskNthreads, at, word);
        let shorter = (r.initial, Field::TaskNthreadsLength, 0, Some(at));
        cases.push(fine(&words, element, shorter, 5))?;
    }
    assert_eq!(rt; first_wrong(rt.alloc(), &words, cases.as_slice())?, None);
    Ok(())
}

#[test]
fn two_words_of_a_fork(rt: HostRuntime) -> Result<(), Fail> {
    let words = forked(rt.alloc(), 0)?;
    let bad = of_fork(rt.alloc(), &records_of(&words)?)?;
    for gap in [1, 20] {
        let cases = in_pairs(rt.alloc(), &words, bad.as_slice(), gap)?;
        let wrong = first_wrong(rt.alloc(), &words, cases.as_slice())?;
        assert_eq!(rt; wrong, None, "{gap} places behind");
    }
    Ok(())
}

#[test]
fn two_words_of_a_nested_chain(rt: HostRuntime) -> Result<(), Fail> {
    let words = nested(rt.alloc(), 3)?;
    let bad = of_nested(rt.alloc(), &records_of(&words)?)?;
    for gap in [1, 30] {
        let cases = in_pairs(rt.alloc(), &words, bad.as_slice(), gap)?;
        let wrong = first_wrong(rt.alloc(), &words, cases.as_slice())?;
        assert_eq!(rt; wrong, None, "{gap} places behind");
    }
    Ok(())
}

/// Other words that are out of range, or name no live record of their kind.
fn more_of(r: &Records) -> [BadWord; 33] {
    let (t, n, k) = (r.threads[0], r.inner, r.master);
    let free = r.generated;
    let word = |record: u64, field: Field, word: u64| -> Word { (record, field, 0, Some(word)) };
    [
        (word(r.runtime, Field::RuntimeVersion, 0), 2),
        (word(r.runtime, Field::RuntimeThreads, 1), 2),
        (word(r.runtime, Field::RuntimeProcs, 65_536), 2),
        (word(r.runtime, Field::RuntimeDebug, u64::MAX), 2),
        (word(t, Field::ThreadLife, 3), 3),
        (word(t, Field::ThreadNative, 1001), 3),
        (word(t, Field::ThreadCurrent, n), 4),
        (word(t, Field::ThreadCurrent, free), 4),
        (word(t, Field::ThreadCurrent, k.wrapping_add(8)), 4),
        (word(t, Field::ThreadState, 0x102), 3),
        (word(t, Field::ThreadState, 0x9_0042), 3),
        (word(n, Field::RegionFunction, 0x3f_fff0), 5),
        (word(n, Field::RegionFunction, 0x40_0400), 5),
        (word(n, Field::RegionEnclosing, k), 4),
        (word(n, Field::RegionEncountering, n), 4),
        (word(n, Field::RegionSize, 3), 5),
        (word(n, Field::RegionLevels, u64::MAX), 5),
        (word(n, Field::RegionTeam, free), 4),
        (word(n, Field::RegionTeam, t), 4),
        (word(k, Field::TaskRegion, k), 4),
        (word(k, Field::TaskThread, n), 4),
        (word(k, Field::TaskThread, t.wrapping_add(8)), 4),
        (word(k, Field::TaskNumber, 64), 6),
        (word(k, Field::TaskGenerating, n), 4),
        (word(k, Field::TaskScheduling, free), 4),
        (word(k, Field::TaskFunction, 0), 6),
        (word(k, Field::TaskFunction, 0x40_0008), 6),
        (word(k, Field::TaskNthreadsLength, 0), 6),
        (word(k, Field::TaskSchedule, 0), 6),
        (word(k, Field::TaskSchedule, 65_536 * 8 + 1), 6),
        (word(k, Field::TaskDevice, u64::MAX), 6),
        (word(k, Field::TaskNthreads, 0), 6),
        (word(k, Field::TaskNthreads, u64::MAX), 6),
    ]
}

#[test]
fn more_words_of_a_fork(rt: HostRuntime) -> Result<(), Fail> {
    let words = forked(rt.alloc(), 0)?;
    let mut cases = Vec::new(rt.alloc());
    for (word, clause) in &more_of(&records_of(&words)?) {
        cases.push(refused(&words, *word, *word, *clause))?;
    }
    assert_eq!(rt; first_wrong(rt.alloc(), &words, cases.as_slice())?, None);
    Ok(())
}

/// Words that are changed and still in range, at the ends of the ranges.
fn fine_of(r: &Records) -> [Word; 25] {
    let (t, n, k) = (r.threads[0], r.inner, r.master);
    let word = |record: u64, field: Field, word: u64| -> Word { (record, field, 0, Some(word)) };
    [
        word(r.runtime, Field::RuntimeProcs, 1),
        word(r.runtime, Field::RuntimeProcs, 65_535),
        word(r.runtime, Field::RuntimeDebug, 0),
        word(r.runtime, Field::RuntimeMaxActive, 0),
        word(r.runtime, Field::RuntimeMaxActive, 255),
        word(r.runtime, Field::RuntimeLocks, 77),
        word(t, Field::ThreadState, 0x8_0042),
        word(t, Field::ThreadState, 0x021),
        word(t, Field::ThreadClaim, 99),
        word(n, Field::RegionFunction, 0x40_03f0),
        word(n, Field::RegionLevels, 255),
        word(n, Field::RegionActive, 255),
        word(n, Field::RegionArrived, u64::MAX),
        word(k, Field::TaskImplicit, 0),
        word(k, Field::TaskNumber, 1),
        word(k, Field::TaskExit, u64::MAX),
        word(k, Field::TaskEnter, 3),
        word(k, Field::TaskTool, u64::MAX),
        word(k, Field::TaskDynamic, 1),
        word(k, Field::TaskSchedule, 65_535 * 8 + 4),
        word(k, Field::TaskDevice, 255),
        word(k, Field::TaskFinal, 1),
        word(k, Field::TaskNthreads, 1),
        word(k, Field::TaskNthreads, 64),
        word(k, Field::TaskChildren, u64::MAX),
    ]
}

#[test]
fn fine_words_of_a_fork(rt: HostRuntime) -> Result<(), Fail> {
    let words = forked(rt.alloc(), 0)?;
    let mut cases = Vec::new(rt.alloc());
    for word in &fine_of(&records_of(&words)?) {
        cases.push(fine(&words, *word, *word, 5))?;
    }
    assert_eq!(rt; first_wrong(rt.alloc(), &words, cases.as_slice())?, None);
    Ok(())
}

/// Words of the group of a task and of the number of its open ones that are out of range, or name no live task.
fn bad_groups(r: &Records) -> [Word; 8] {
    let k = r.master;
    let group = |word: u64| -> Word { (k, Field::TaskSlots, 4, Some(word)) };
    [
        group(3),
        group(k.wrapping_add(4)),
        group(k.wrapping_add(8)),
        group(r.inner),
        group(r.generated),
        group(r.generated.wrapping_add(1)),
        group(u64::MAX),
        (k, Field::TaskSlots, 5, Some(u64::MAX)),
    ]
}

/// The same in range, and words of the slots and of the counts, of which nothing is asked.
fn fine_groups(r: &Records) -> [Word; 7] {
    let k = r.master;
    let group = |word: u64| -> Word { (k, Field::TaskSlots, 4, Some(word)) };
    [
        group(k),
        group(k.wrapping_add(3)),
        group(r.worker.wrapping_add(1)),
        (k, Field::TaskSlots, 5, Some(4)),
        (k, Field::TaskSlots, 0, None),
        (k, Field::TaskSlots, 6, Some(u64::MAX)),
        (k, Field::TaskSlots, 9, None),
    ]
}

/// The group of a task is none or that of a live task, and this task is reached by it: a member of the team by the initial task, where thread 0 runs
/// that.
#[test]
fn groups_of_a_fork(rt: HostRuntime) -> Result<(), Fail> {
    let words = forked(rt.alloc(), 0)?;
    let r = records_of(&words)?;
    let mut cases = Vec::new(rt.alloc());
    for word in &bad_groups(&r) {
        cases.push(refused(&words, *word, *word, 6))?;
    }
    for word in &fine_groups(&r) {
        cases.push(fine(&words, *word, *word, 5))?;
    }
    let before = (r.threads[0], Field::ThreadCurrent, 0, Some(r.initial));
    let of_member = (
        r.initial,
        Field::TaskSlots,
        4,
        Some(r.worker.wrapping_add(1)),
    );
    cases.push(fine(&words, before, before, 2))?;
    cases.push(fine(&words, before, of_member, 5))?;
    assert_eq!(rt; first_wrong(rt.alloc(), &words, cases.as_slice())?, None);
    Ok(())
}

/// Two words are changed, and the words are fine, with so many records.
fn fine(words: &Words, first: Word, second: Word, records: u64) -> Case {
    Case {
        changes: [change(words, first), change(words, second)],
        verdict: Verdict::Yes { records },
    }
}

/// A word of a record that nobody reaches, or of a thread that has not begun, may not be mapped or be any word. The life word of a record is judged
/// where the first pointer leads to it. A thread may not have begun, but then no task is its.
#[test]
fn words_behind_pointers(rt: HostRuntime) -> Result<(), Fail> {
    let words = forked(rt.alloc(), 0)?;
    let r = records_of(&words)?;
    let t = r.threads[0];
    let pointer = (t, Field::ThreadCurrent, 0, Some(r.master));
    let lives = [None, Some(2), Some(0), Some(0x2_0000_0001)];
    let unbegun = (t, Field::ThreadLife, 0, Some(0));
    let hole = (r.master, Field::TaskTool, 0, None);
    let other = r.threads[1];
    let gone = (other, Field::ThreadLife, 0, Some(0));
    let cases = [
        refused(
            &words,
            (r.worker, Field::TaskThread, 0, Some(other)),
            gone,
            4,
        ),
        refused(
            &words,
            (r.master, Field::TaskThread, 0, Some(other)),
            gone,
            4,
        ),
        refused(&words, pointer, (r.master, Field::TaskLife, 0, lives[0]), 4),
        refused(&words, pointer, (r.master, Field::TaskLife, 0, lives[1]), 4),
        refused(&words, pointer, (r.master, Field::TaskLife, 0, lives[2]), 4),
        refused(&words, pointer, (r.master, Field::TaskLife, 0, lives[3]), 4),
        refused(&words, hole, hole, 1),
        fine(&words, unbegun, (t, Field::ThreadState, 0, Some(2)), 0),
        fine(&words, unbegun, (t, Field::ThreadCurrent, 0, None), 0),
        fine(&words, unbegun, hole, 0),
    ];
    assert_eq!(rt; first_wrong(rt.alloc(), &words, &cases)?, None);
    Ok(())
}
