//! The core of an empty run with one word changed, and what `show` says of it, in either version of the layout.

use crate::calls::{BEFORE, NONE, call};
use omi_fixture_calls::{core_of, opening_core_v1, with_word};
use omi_fixture_rows::AN_EMPTY_RUN;
use omi_outside::Status;
use std::alloc::Global;
use std::process::Abort;
use std::test::Fail;

/// The report of a core whose one context is the native id of no thread.
const NO_THREAD: &str = "ompd 201811 threads 1 debug enabled
icv num-procs-var=4 max-active-levels-var=8
native 1000 none
";

/// A word by its number, what it is set to, and what `show` ends with and prints: the count of symbols; of the layout table the number of
/// threads, and the offsets of the first two fields of the runtime's record; the thread's native id and current task; the region around the
/// initial one, its size and its member 0; the initial task's life word and the length of its nthreads-var.
const WORDS: [(usize, u64, Status, &str); 11] = [
    (0, 17, Status::Incompatible, "incompatible\n"),
    (48, 0, Status::Damaged, "damaged 0x10170 layout\n"),
    (55, 13, Status::Damaged, "damaged 0x101b8 layout\n"),
    (56, 0, Status::Damaged, "damaged 0x101c0 layout\n"),
    (113, 7, Status::Success, NO_THREAD),
    (
        114,
        0x109b8,
        Status::Damaged,
        "damaged 0x109b8 thread.cur\n",
    ),
    (120, 0x103b0, Status::Damaged, "cycle 0x103b0\n"),
    (122, 2, Status::Damaged, "damaged 0x103b0 region.size\n"),
    (129, 0, Status::Damaged, "damaged 0x0 region.team\n"),
    (310, 2, Status::Damaged, "damaged 0x109b0 thread.cur\n"),
    (321, 5, Status::Damaged, "damaged 0x109b0 task.nthn\n"),
];

/// Each change of a word of this core is told as the table has it.
fn expect_changes(rt: &impl Abort, alloc: Global, core: &[u8]) -> Result<(), Fail> {
    for (number, word, status, text) in &WORDS {
        let changed = with_word(alloc, core, *number, *word)?;
        let done = call(alloc, &["show", "c"], "", &changed, NONE)?;
        assert_eq!(rt; done.status, *status, "word {number}");
        assert_eq!(rt; done.out.bytes(), text.as_bytes(), "word {number}");
        assert_eq!(rt; done.files.bytes("c"), Some(BEFORE), "word {number}");
    }
    Ok(())
}

#[test]
fn one_changed_word(rt: HostRuntime) -> Result<(), Fail> {
    let alloc = rt.alloc();
    let first = opening_core_v1(alloc, AN_EMPTY_RUN)?;
    assert_eq!(rt; first.len(), 55_768);
    expect_changes(&rt, alloc, &first)?;
    let second = core_of(alloc, "0", AN_EMPTY_RUN)?;
    assert_eq!(rt; second.len(), 68_056);
    expect_changes(&rt, alloc, &second)
}
