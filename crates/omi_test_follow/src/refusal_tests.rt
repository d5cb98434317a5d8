//! Refusals of `follow`: the first file is judged whole before the second one is looked at.

use crate::calls::{Cores, call, expect, expect_done};
use crate::fate_tests::{BOTH_CURRENT, TWO_TASKS, USED_AGAIN};
use omi_fixture_calls::{core_of, core_with, opening_core_v1, with_word};
use omi_fixture_rows::{A_TEAM_OF_TWO, AN_EMPTY_RUN};
use omi_outside::{Call, Status};
use std::alloc::{AllocError, Global};
use std::process::Abort;
use std::test::Fail;

/// The core of a run of one thread, but for one word: as two segments with a gap.
fn without_word(alloc: Global, core: &[u8], number: usize) -> Result<Vec<u8>, AllocError> {
    let words = core.get(40..).unwrap_or(b"");
    let gap = number.wrapping_mul(8);
    let front = words.get(..gap).unwrap_or(b"");
    let back = words.get(gap.wrapping_add(8)..).unwrap_or(b"");
    let mut bytes = core.get(..12).unwrap_or(b"").to_vec(alloc)?;
    bytes.extend_from_slice(&2u32.to_le_bytes())?;
    bytes.extend_from_slice(core.get(16..24).unwrap_or(b""))?;
    let mut start = 0x10000u64;
    for part in [front, back] {
        let count = part.len() as u64 / 8;
        bytes.extend_from_slice(&start.to_le_bytes())?;
        bytes.extend_from_slice(&count.to_le_bytes())?;
        bytes.extend_from_slice(part)?;
        start = start.wrapping_add(count.wrapping_add(1).wrapping_mul(8));
    }
    Ok(bytes)
}

/// A word of the second core by its number, what it is set to, and the refusal: the version of the layout table, the count of symbols, of the
/// table the number of threads and the offset of the runtime record's second field.
const TABLES: [(usize, u64, Status, &str); 4] = [
    (43, 9, Status::Incompatible, "incompatible\n"),
    (0, 17, Status::Incompatible, "incompatible\n"),
    (48, 0, Status::Damaged, "damaged 0x10170 layout\n"),
    (56, 0, Status::Damaged, "damaged 0x101c0 layout\n"),
];

#[test]
fn later_files_that_are_refused(rt: HostRuntime) -> Result<(), Fail> {
    let alloc = rt.alloc();
    let core = core_of(alloc, "48", TWO_TASKS)?;
    assert_eq!(rt; core.len(), 68_056);
    let none = Cores {
        first: Some(&core),
        later: None,
    };
    expect(&rt, alloc, none, Status::NoFile, "no file d\n")?;
    for (bytes, text) in [
        (b"".as_slice(), "core 0 4 Short\n"),
        (b"oMPDCOR1", "core 0 1 BadMagic\n"),
        (&core[..core.len() - 1], "core 68055 4 Short\n"),
    ] {
        expect(&rt, alloc, Cores::of(&core, bytes), Status::Core, text)?;
    }
    for (number, word, status, text) in &TABLES {
        let later = with_word(alloc, &core, *number, *word)?;
        expect(&rt, alloc, Cores::of(&core, &later), *status, text)?;
    }
    Ok(())
}

/// The same program in another family and in the first version of the layout, and a program of more threads.
#[test]
fn other_layouts(rt: HostRuntime) -> Result<(), Fail> {
    let alloc = rt.alloc();
    let core = core_of(alloc, "48", TWO_TASKS)?;
    let turned = core_with(alloc, "48", TWO_TASKS, &["--layout", "7"])?;
    let wider = core_of(alloc, "48", A_TEAM_OF_TWO)?;
    let older = opening_core_v1(alloc, TWO_TASKS)?;
    for (first, later) in [
        (&core, &turned),
        (&turned, &core),
        (&core, &wider),
        (&core, &older),
        (&older, &core),
    ] {
        let cores = Cores::of(first, later);
        expect(&rt, alloc, cores, Status::Incompatible, "incompatible\n")?;
    }
    let same = Cores::of(&turned, &turned);
    expect(&rt, alloc, same, Status::Success, BOTH_CURRENT)?;
    Ok(())
}

/// The numbers of the life word and of the function of the initial task and of the first one behind it.
const INITIAL: (usize, usize) = (310, 317);

const NEXT: (usize, usize) = (342, 349);

/// A word of the second core that isn't mapped, and the refusal: of a current task the life word or the function.
#[test]
fn words_that_are_missing(rt: HostRuntime) -> Result<(), Fail> {
    let alloc = rt.alloc();
    let first = core_of(alloc, "48", TWO_TASKS)?;
    for (number, text) in [
        (INITIAL.0, "damaged 0x109b0 task.life\n"),
        (INITIAL.1, "damaged 0x109b0 task.func\n"),
        (NEXT.0, "damaged 0x10ab0 task.life\n"),
        (NEXT.1, "damaged 0x10ab0 task.func\n"),
    ] {
        let later = without_word(alloc, &first, number)?;
        expect(&rt, alloc, Cores::of(&first, &later), Status::Damaged, text)?;
    }
    // Of a task that isn't current, no function is asked for.
    let later = without_word(alloc, &core_of(alloc, "107", TWO_TASKS)?, NEXT.1)?;
    let cores = Cores::of(&first, &later);
    expect(&rt, alloc, cores, Status::Success, USED_AGAIN)?;
    Ok(())
}

/// Of the second core's words no others are read: without a report it is as good as another one.
#[test]
fn a_later_core_without_a_report(rt: HostRuntime) -> Result<(), Fail> {
    let alloc = rt.alloc();
    let core = core_of(alloc, "48", TWO_TASKS)?;
    let later = with_word(alloc, &core, 114, 3)?;
    let cores = Cores::of(&core, &later);
    expect(&rt, alloc, cores, Status::Success, BOTH_CURRENT)?;
    let turned = Cores::of(&later, &core);
    let text = "damaged 0x3 thread.cur\n";
    expect(&rt, alloc, turned, Status::Damaged, text)?;
    Ok(())
}

/// A word of the first core, what it is set to, and the refusal.
const DAMAGED: [(usize, u64, Status, &str); 6] = [
    (43, 9, Status::Incompatible, "incompatible\n"),
    (48, 0, Status::Damaged, "damaged 0x10170 layout\n"),
    (316, 0x109b0, Status::Damaged, "cycle 0x109b0\n"),
    (
        315,
        0x90_0000,
        Status::Damaged,
        "damaged 0x900000 task.generating\n",
    ),
    (
        114,
        0x109b8,
        Status::Damaged,
        "damaged 0x109b8 thread.cur\n",
    ),
    (122, 2, Status::Damaged, "damaged 0x103b0 region.size\n"),
];

/// A first file that is refused decides, whatever the second one is: none, no core, one of another layout, or a good one.
fn expect_first(
    rt: &impl Abort,
    alloc: Global,
    first: Option<&[u8]>,
    status: Status,
    text: &str,
) -> Result<(), Fail> {
    let good = core_of(alloc, "0", AN_EMPTY_RUN)?;
    let other = core_of(alloc, "0", A_TEAM_OF_TWO)?;
    for later in [None, Some(b"".as_slice()), Some(&other), Some(&good)] {
        expect(rt, alloc, Cores { first, later }, status, text)?;
    }
    Ok(())
}

#[test]
fn first_files_that_are_refused(rt: HostRuntime) -> Result<(), Fail> {
    let alloc = rt.alloc();
    expect_first(&rt, alloc, None, Status::NoFile, "no file c\n")?;
    expect_first(&rt, alloc, Some(b""), Status::Core, "core 0 4 Short\n")?;
    let core = core_of(alloc, "0", AN_EMPTY_RUN)?;
    for (number, word, status, text) in &DAMAGED {
        let changed = with_word(alloc, &core, *number, *word)?;
        expect_first(&rt, alloc, Some(&changed), *status, text)?;
    }
    Ok(())
}

/// More reads than `follow` of two such cores makes.
const MANY: u64 = 80;

/// How many calls of a kind `follow` makes of each of two cores, where each that fails ends it with a read fault of its file.
fn failing_reads(
    rt: &impl Abort,
    alloc: Global,
    cores: Cores<'_>,
    kind: Call,
) -> Result<(u64, u64), AllocError> {
    let mut of_first = 0;
    for number in 1..MANY {
        let done = call(alloc, &["follow", "c", "d"], cores, &[(kind, number)], &[])?;
        if done.status == Status::Success {
            return Ok((of_first, (number - 1).wrapping_sub(of_first)));
        }
        let is_first = done.out.bytes() == b"read fault c\n".as_slice();
        if is_first && of_first == number - 1 {
            of_first = number;
        } else {
            expect_done(rt, &done, Status::ReadFault, "read fault d\n");
        }
    }
    Ok((of_first, MANY))
}

#[test]
fn each_read_of_both_cores(rt: HostRuntime) -> Result<(), Fail> {
    let alloc = rt.alloc();
    let first = core_of(alloc, "48", TWO_TASKS)?;
    let later = core_of(alloc, "107", TWO_TASKS)?;
    let cores = Cores::of(&first, &later);
    assert_eq!(rt; failing_reads(&rt, alloc, cores, Call::Size)?, (1, 1));
    let (of_first, of_later) = failing_reads(&rt, alloc, cores, Call::ReadAt)?;
    assert!(&rt; 3 < of_first && 3 < of_later && of_later < MANY);
    // Where a read of each fails, the first decides.
    let reads = [(Call::ReadAt, of_first), (Call::Size, 2)];
    let done = call(alloc, &["follow", "c", "d"], cores, &reads, &[])?;
    expect_done(&rt, &done, Status::ReadFault, "read fault c\n");
    Ok(())
}

/// Words that are refused, whatever the files are.
const USAGE: [&[&str]; 6] = [
    &["follow"],
    &["follow", "c"],
    &["follow", "c", "d", "e"],
    &["follow", "c", "d", "--layout", "0"],
    &["follow", "c", "d", "--seed", "1"],
    &["follow", "c", "--", "d", "-e"],
];

#[test]
fn refused_words(rt: HostRuntime) -> Result<(), Fail> {
    let alloc = rt.alloc();
    let core = core_of(alloc, "0", AN_EMPTY_RUN)?;
    for line in &USAGE {
        let done = call(alloc, line, Cores::of(&core, &core), &[], &[])?;
        expect_done(&rt, &done, Status::Usage, "usage\n");
    }
    Ok(())
}

/// The lines are put after all reading. Where that fails, nothing is put.
#[test]
fn a_put_that_fails(rt: HostRuntime) -> Result<(), Fail> {
    let alloc = rt.alloc();
    let core = core_of(alloc, "0", AN_EMPTY_RUN)?;
    let cores = Cores::of(&core, &core);
    let done = call(alloc, &["follow", "c", "d"], cores, &[], &[1])?;
    expect_done(&rt, &done, Status::WriteFault, "");
    // A name may stand for both.
    let done = call(alloc, &["follow", "c", "c"], cores, &[], &[])?;
    expect_done(&rt, &done, Status::Success, "task k0.0.0 current\n");
    Ok(())
}
