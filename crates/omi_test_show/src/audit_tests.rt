//! Runs of `audit` through the top call: verdicts on the cores of runs and on cores with one word changed, and each of its refusals.

use crate::show_tests::{DAMAGED, HOSTILE, with_byte};
use omi_fixture_calls::{call, core_of, core_with, opening_core_v1, with_word};
use omi_fixture_rows::{A_FULL_ROW, A_TEAM_OF_TWO, AN_EMPTY_RUN};
use omi_outside::{Call, Status};
use std::alloc::{AllocError, Global};
use std::process::Abort;
use std::test::Fail;

/// `audit` of these bytes, of which this read fails, if any, ends with this status and puts this text.
fn expect(
    rt: &impl Abort,
    alloc: Global,
    core: Option<&[u8]>,
    failing: &[(Call, u64)],
    status: Status,
    text: &str,
) -> Result<(), AllocError> {
    let done = call(alloc, &["audit", "c"], ("", core), failing, &[], &[])?;
    assert_eq!(rt; done.out.bytes(), text.as_bytes());
    assert_eq!(rt; done.status, status);
    Ok(())
}

/// How many records a run's core reaches: an empty run, and a team of two that was just made.
#[test]
fn cores_of_runs(rt: HostRuntime) -> Result<(), Fail> {
    let alloc = rt.alloc();
    let core = core_of(alloc, "0", AN_EMPTY_RUN)?;
    expect(
        &rt,
        alloc,
        Some(&core),
        &[],
        Status::Success,
        "audit ok records 2\n",
    )?;
    let options = ["--break", "parallel_begin", "--count", "1"];
    let core = core_with(alloc, "100000", A_TEAM_OF_TWO, &options)?;
    expect(
        &rt,
        alloc,
        Some(&core),
        &[],
        Status::Success,
        "audit ok records 5\n",
    )?;
    Ok(())
}

/// A core that `stop` leaves with these words behind its files is approved, and the line of `audit` begins so.
fn is_approved(
    rt: &impl Abort,
    alloc: Global,
    script: &str,
    steps: &str,
    options: &[&str],
    begins: &str,
) -> Result<(), Fail> {
    let core = core_with(alloc, steps, script, options)?;
    let done = call(alloc, &["audit", "c"], ("", Some(&core)), &[], &[], &[])?;
    assert_eq!(rt; done.status, Status::Success);
    assert!(rt;
        done.out.bytes().starts_with(begins.as_bytes()),
        "{script} {steps}"
    );
    Ok(())
}

/// The same where a run in this family, by its number as the seed, comes to an event of this kind for so many times.
fn is_approved_at(
    rt: &impl Abort,
    alloc: Global,
    script: &str,
    family: &str,
    kind: &str,
    count: &str,
) -> Result<(), Fail> {
    let options = [
        "--layout", family, "--seed", family, "--break", kind, "--count", count,
    ];
    is_approved(rt, alloc, script, "1000000", &options, "audit ok records ")
}

const FAMILIES: [&str; 16] = [
    "0", "1", "2", "3", "4", "5", "6", "7", "8", "9", "10", "11", "12", "13", "14", "15",
];

/// Two members of which each makes tasks, and a task makes a task.
const TASKS: &str = "threads 2
func leaf
work
end
func node
task leaf
end
func body
task node
task leaf if 0
taskwait
end
func main
parallel body num 2
end
";

/// At the third task that starts.
#[test]
fn every_family_is_approved(rt: HostRuntime) -> Result<(), Fail> {
    let alloc = rt.alloc();
    for family in &FAMILIES {
        for script in &[A_FULL_ROW, A_TEAM_OF_TWO, TASKS] {
            is_approved_at(&rt, alloc, script, family, "task_begin", "3")?;
        }
    }
    Ok(())
}

/// Each member of a team wants a team of two, and there are three threads.
const CONTESTED: &str = "threads 3
func leaf
work
end
func mid
parallel leaf num 2
end
func main
parallel mid num 2
end
";

/// Teams and tasks, without states.
const UNTRACKED: &str = "threads 2
env debug disabled
func leaf
work
end
func body
task leaf
barrier
task leaf
end
func main
parallel body num 2
task leaf if 0
end
";

/// A script, and an event to which its runs come so many times.
const EVENTS: [(&str, &str, &str); 8] = [
    (CONTESTED, "parallel_begin", "2"),
    (CONTESTED, "parallel_begin", "3"),
    (CONTESTED, "parallel_end", "1"),
    (UNTRACKED, "parallel_end", "1"),
    (UNTRACKED, "task_begin", "2"),
    (UNTRACKED, "task_end", "3"),
    (TASKS, "task_end", "2"),
    (A_TEAM_OF_TWO, "thread_begin", "2"),
];

/// Two of the events in each family, each in four of them.
#[test]
fn stops_at_events(rt: HostRuntime) -> Result<(), Fail> {
    let alloc = rt.alloc();
    for at in 0..16usize {
        for event in [at % 8, (at + 3) % 8] {
            let (script, kind, count) = EVENTS[event];
            is_approved_at(&rt, alloc, script, FAMILIES[at], kind, count)?;
        }
    }
    Ok(())
}

/// Two members come to one lock.
const A_LOCK: &str = "threads 2
func leaf
work
end
func held
repeat 8 leaf
end
func body
critical 3 held
end
func main
set_num_threads 2
parallel body
end
";

/// A script, steps of its threads in turn, and the records that they reach: one step before a fork; between the join of this team, its 253rd step,
/// and the last of the three records that are given back behind it, at the 259th, the 265th and the 267th; and where one member holds
/// a lock for which the other waits.
const STEPS: [(&str, &str, &str); 8] = [
    (A_TEAM_OF_TWO, "196", "audit ok records 2\n"),
    (A_TEAM_OF_TWO, "253", "audit ok records 2\n"),
    (A_TEAM_OF_TWO, "258", "audit ok records 2\n"),
    (A_TEAM_OF_TWO, "259", "audit ok records 2\n"),
    (A_TEAM_OF_TWO, "264", "audit ok records 2\n"),
    (A_TEAM_OF_TWO, "265", "audit ok records 2\n"),
    (A_TEAM_OF_TWO, "266", "audit ok records 2\n"),
    (A_LOCK, "269", "audit ok records 5\n"),
];

/// Two of the stops in each family, each in four of them.
#[test]
fn stops_at_steps(rt: HostRuntime) -> Result<(), Fail> {
    let alloc = rt.alloc();
    for at in 0..16usize {
        for stop in [at % 8, (at + 3) % 8] {
            let (script, steps, text) = STEPS[stop];
            let options = ["--layout", FAMILIES[at]];
            is_approved(&rt, alloc, script, steps, &options, text)?;
        }
    }
    let core = core_of(alloc, "269", A_LOCK)?;
    let shown = call(alloc, &["show", "c"], ("", Some(&core)), &[], &[], &[])?;
    assert!(&rt; str::from_utf8(shown.out.bytes())?.contains(" state wait_critical wait 4 "));
    Ok(())
}

const SIXTY_FOUR: &str = "threads 64
func leaf
work
end
func main
parallel leaf num 64
end
";

/// A team of all threads that was just made: the initial region and task, and the team with its members.
#[test]
fn sixty_four_threads_at_a_fork(rt: HostRuntime) -> Result<(), Fail> {
    let options = [
        "--layout",
        "15",
        "--break",
        "parallel_begin",
        "--count",
        "1",
    ];
    let text = "audit ok records 67\n";
    is_approved(&rt, rt.alloc(), SIXTY_FOUR, "1000000", &options, text)
}

/// What `audit` says where the level of the initial region is out of range.
const LEVELS: &str = "audit no 0x103d8 region.levels 5\n";

/// A word of an empty run's core by its number, what it is set to, and what `audit` ends with and puts. Of the words that the layout table has
/// it says what `show` says: the count of symbols, and of the table the number of threads and the offsets of the first two fields of the runtime's
/// record. Then the thread's native id and current task; the region around the initial one, which is this region itself, its size, its level, and its
/// member 0; the initial task's life word, which is that of no live record, the length of its nthreads-var, its group and the number of its open groups.
const WORDS: [(usize, u64, Status, &str); 14] = [
    (0, 17, Status::Incompatible, "incompatible\n"),
    (48, 0, Status::Damaged, "damaged 0x10170 layout\n"),
    (55, 13, Status::Damaged, "damaged 0x101b8 layout\n"),
    (56, 0, Status::Damaged, "damaged 0x101c0 layout\n"),
    (
        113,
        7,
        Status::Success,
        "audit no 0x10388 thread.native 3\n",
    ),
    (
        114,
        0x109b8,
        Status::Success,
        "audit no 0x10390 thread.cur 4\n",
    ),
    (
        120,
        0x103b0,
        Status::Success,
        "audit no 0x103b0 region.enclosing 8\n",
    ),
    (122, 2, Status::Success, "audit no 0x103d0 region.size 5\n"),
    (123, 300, Status::Success, LEVELS),
    (129, 0, Status::Success, "audit no 0x10408 region.team 4\n"),
    (310, 2, Status::Success, "audit no 0x10390 thread.cur 4\n"),
    (321, 5, Status::Success, "audit no 0x10a08 task.nthn 6\n"),
    (336, 5, Status::Success, "audit no 0x10a80 task.slots 6\n"),
    (337, 5, Status::Success, "audit no 0x10a88 task.slots 6\n"),
];

#[test]
fn one_changed_word(rt: HostRuntime) -> Result<(), Fail> {
    let alloc = rt.alloc();
    let core = core_of(alloc, "0", AN_EMPTY_RUN)?;
    for (number, word, status, text) in &WORDS {
        let changed = with_word(alloc, &core, *number, *word)?;
        expect(&rt, alloc, Some(&changed), &[], *status, text)?;
    }
    Ok(())
}

/// In the layout of version 1 a task has four slots and no words for groups.
#[test]
fn the_first_version_of_the_layout(rt: HostRuntime) -> Result<(), Fail> {
    let alloc = rt.alloc();
    let core = opening_core_v1(alloc, AN_EMPTY_RUN)?;
    let text = "audit ok records 2\n";
    expect(&rt, alloc, Some(&core), &[], Status::Success, text)?;
    Ok(())
}

/// `audit` says of these bytes that a clause fails.
fn is_refused(rt: &impl Abort, alloc: Global, core: &[u8]) -> Result<(), AllocError> {
    let done = call(alloc, &["audit", "c"], ("", Some(core)), &[], &[], &[])?;
    assert_eq!(rt; done.status, Status::Success);
    assert!(rt; done.out.bytes().starts_with(b"audit no 0x1"));
    Ok(())
}

/// A level that is out of range: `show` prints its report all the same.
#[test]
fn a_report_of_a_core_that_is_refused(rt: HostRuntime) -> Result<(), Fail> {
    let alloc = rt.alloc();
    let core = core_of(alloc, "0", AN_EMPTY_RUN)?;
    let changed = with_word(alloc, &core, 123, 300)?;
    let shown = call(alloc, &["show", "c"], ("", Some(&changed)), &[], &[], &[])?;
    assert_eq!(&rt; shown.status, Status::Success);
    let report = str::from_utf8(shown.out.bytes())?;
    assert_eq!(&rt; report.lines().count(), 7);
    assert!(&rt; report.contains(" levels-var=300 active-levels-var=0 "));
    expect(&rt, alloc, Some(&changed), &[], Status::Success, LEVELS)?;
    Ok(())
}

/// What `show` refuses by the words, `audit` refuses.
#[test]
fn cores_that_show_refuses(rt: HostRuntime) -> Result<(), Fail> {
    let alloc = rt.alloc();
    let core = core_of(alloc, "0", AN_EMPTY_RUN)?;
    for (at, byte, _) in &DAMAGED {
        let changed = with_byte(alloc, &core, *at, *byte)?;
        is_refused(&rt, alloc, &changed)?;
    }
    for (place, word, _) in &HOSTILE {
        let changed = with_word(alloc, &core, *place, *word)?;
        is_refused(&rt, alloc, &changed)?;
    }
    Ok(())
}

/// The verdict is the same where the words have their highest byte first.
#[test]
fn the_other_order(rt: HostRuntime) -> Result<(), Fail> {
    let alloc = rt.alloc();
    let core = core_of(alloc, "0", AN_EMPTY_RUN)?;
    let changed = with_word(alloc, &core, 123, 300)?;
    for (core, text) in [(&core, "audit ok records 2\n"), (&changed, LEVELS)] {
        let line = ["recode", "1", "c", "d"];
        let done = call(alloc, &line, ("", Some(core)), &[], &[], &[])?;
        let copy = done.files.bytes("d");
        expect(&rt, alloc, copy, &[], Status::Success, text)?;
    }
    Ok(())
}

#[test]
fn refusals(rt: HostRuntime) -> Result<(), Fail> {
    let alloc = rt.alloc();
    expect(&rt, alloc, None, &[], Status::NoFile, "no file c\n")?;
    expect(&rt, alloc, Some(b""), &[], Status::Core, "core 0 4 Short\n")?;
    let core = core_of(alloc, "0", AN_EMPTY_RUN)?;
    let fault = "read fault c\n";
    expect(
        &rt,
        alloc,
        Some(&core),
        &[(Call::Size, 1)],
        Status::ReadFault,
        fault,
    )?;
    for read in 1..4 {
        expect(
            &rt,
            alloc,
            Some(&core),
            &[(Call::ReadAt, read)],
            Status::ReadFault,
            fault,
        )?;
    }
    for line in &[
        &["audit"] as &[&str],
        &["audit", "c", "d"],
        &["audit", "c", "--layout", "0"],
    ] {
        let done = call(alloc, line, ("", Some(&core)), &[], &[], &[])?;
        assert_eq!(rt; done.status, Status::Usage);
        assert_eq!(rt; done.out.bytes(), b"usage\n".as_slice());
    }
    let done = call(alloc, &["audit", "c"], ("", Some(&core)), &[], &[], &[1])?;
    assert_eq!(rt; done.status, Status::WriteFault);
    Ok(())
}
