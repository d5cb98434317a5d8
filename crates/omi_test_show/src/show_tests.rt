//! Runs of `show` through the top call, and each of its refusals.

use omi_fixture_calls::{CHANGED, EMPTY, core_of, opening_core_v1, with_word};
use omi_fixture_done::words;
use omi_outside::{Call, MemFiles, MemSink, Status};
use omi_top::run_top;
use std::alloc::{AllocError, Global};
use std::process::Abort;
use std::test::Fail;

/// The report of the opening words, and that of the finished run which changes two variables.
pub const OPENING: &str = "ompd 201811 threads 1 debug enabled
icv num-procs-var=4 max-active-levels-var=8
thread 0 native 1000 state work_serial wait 0 thread-num-var=0 current k0.0.0
region r0.0.0 function 0x400000 levels-var=0 active-levels-var=0 team-size-var=1 enclosing none
member 0 thread 0 task k0.0.0
task k0.0.0 thread 0 kind implicit region r0.0.0 function 0x400000 generating none scheduling none exit 0x7f00000fffc0 enter 0x0 tool 0
icv dyn-var=0 nthreads-var=1 run-sched-var=static,0 default-device-var=0 final-task-var=0 implicit-task-var=1
";

pub const FINISHED: &str = "ompd 201811 threads 1 debug enabled
icv num-procs-var=4 max-active-levels-var=8
thread 0 native 1000 state wait_barrier_implicit_parallel wait 0 thread-num-var=0 current k0.0.0
region r0.0.0 function 0x400000 levels-var=0 active-levels-var=0 team-size-var=1 enclosing none
member 0 thread 0 task k0.0.0
task k0.0.0 thread 0 kind implicit region r0.0.0 function 0x400000 generating none scheduling none exit 0x7f00000fffc0 enter 0x0 tool 0
icv dyn-var=1 nthreads-var=3,2 run-sched-var=static,0 default-device-var=0 final-task-var=0 implicit-task-var=1
";

/// The report of a core whose one context is the native id of no thread, of one whose thread has not begun, and of one with another context.
const UNKNOWN_THREAD: &str = "ompd 201811 threads 1 debug enabled
icv num-procs-var=4 max-active-levels-var=8
native 1000 none
";

const OTHER_CONTEXT: &str = "ompd 201811 threads 1 debug enabled
icv num-procs-var=4 max-active-levels-var=8
native 771 none
";

/// The report of the opening words with the next generation of the region, of the task, and with another level.
const LATER_REGION: &str = "ompd 201811 threads 1 debug enabled
icv num-procs-var=4 max-active-levels-var=8
thread 0 native 1000 state work_serial wait 0 thread-num-var=0 current k0.0.0
region r0.0.1 function 0x400000 levels-var=0 active-levels-var=0 team-size-var=1 enclosing none
member 0 thread 0 task k0.0.0
task k0.0.0 thread 0 kind implicit region r0.0.1 function 0x400000 generating none scheduling none exit 0x7f00000fffc0 enter 0x0 tool 0
icv dyn-var=0 nthreads-var=1 run-sched-var=static,0 default-device-var=0 final-task-var=0 implicit-task-var=1
";

const LATER_TASK: &str = "ompd 201811 threads 1 debug enabled
icv num-procs-var=4 max-active-levels-var=8
thread 0 native 1000 state work_serial wait 0 thread-num-var=0 current k0.0.1
region r0.0.0 function 0x400000 levels-var=0 active-levels-var=0 team-size-var=1 enclosing none
member 0 thread 0 task k0.0.1
task k0.0.1 thread 0 kind implicit region r0.0.0 function 0x400000 generating none scheduling none exit 0x7f00000fffc0 enter 0x0 tool 0
icv dyn-var=0 nthreads-var=1 run-sched-var=static,0 default-device-var=0 final-task-var=0 implicit-task-var=1
";

const OTHER_LEVEL: &str = "ompd 201811 threads 1 debug enabled
icv num-procs-var=4 max-active-levels-var=8
thread 0 native 1000 state work_serial wait 0 thread-num-var=0 current k0.0.0
region r0.0.0 function 0x400000 levels-var=44 active-levels-var=0 team-size-var=1 enclosing none
member 0 thread 0 task k0.0.0
task k0.0.0 thread 0 kind implicit region r0.0.0 function 0x400000 generating none scheduling none exit 0x7f00000fffc0 enter 0x0 tool 0
icv dyn-var=0 nthreads-var=1 run-sched-var=static,0 default-device-var=0 final-task-var=0 implicit-task-var=1
";

/// A line over a core, with a read that may fail, ends with this status and puts this text, and the core that may be written
/// stays.
fn expect_line(
    rt: &impl Abort,
    alloc: Global,
    line: &[&str],
    core: &[u8],
    failing: Option<(Call, u64)>,
    status: Status,
    text: &str,
) -> Result<(), AllocError> {
    let mut reads = Vec::new(alloc);
    if let Some(read) = failing {
        reads.push(read)?;
    }
    let mut files = MemFiles::new(alloc, reads);
    files.put("c", core)?;
    let mut dest = MemFiles::new(alloc, Vec::new(alloc));
    dest.put("c", b"stays")?;
    let mut out = MemSink::new(alloc, Vec::new(alloc));
    let line = words(alloc, line)?;
    let ended = run_top(alloc, &line, &mut files, &mut dest, &mut out);
    assert_eq!(rt; ended, status);
    assert_eq!(rt; out.bytes(), text.as_bytes());
    assert_eq!(rt; dest.bytes("c"), Some(b"stays".as_slice()));
    Ok(())
}

/// `show` of these bytes ends with this status and puts this text.
pub fn expect(
    rt: &impl Abort,
    alloc: Global,
    core: &[u8],
    status: Status,
    text: &str,
) -> Result<(), AllocError> {
    expect_line(rt, alloc, &["show", "c"], core, None, status, text)
}

/// The core with another byte at a place. An error where it has no such byte.
pub fn with_byte(alloc: Global, core: &[u8], at: usize, byte: u8) -> Result<Vec<u8>, Fail> {
    let mut changed = core.to_vec(alloc)?;
    if at >= changed.len() {
        return Err(Fail::from("no such byte"));
    }
    changed[at] = byte;
    Ok(changed)
}

/// `show` of the core of an empty run, with another byte at any of these places, ends with this status and puts this text.
fn expect_changed(
    rt: &impl Abort,
    alloc: Global,
    changes: &[(usize, u8)],
    status: Status,
    text: &str,
) -> Result<(), Fail> {
    let core = core_of(alloc, "0", EMPTY)?;
    for (at, byte) in changes {
        let changed = with_byte(alloc, &core, *at, *byte)?;
        expect(rt, alloc, &changed, status, text)?;
    }
    Ok(())
}

/// The same, with a text of its own for each place.
fn expect_each(
    rt: &impl Abort,
    alloc: Global,
    changes: &[(usize, u8, &str)],
    status: Status,
) -> Result<(), Fail> {
    for (at, byte, text) in changes {
        expect_changed(rt, alloc, &[(*at, *byte)], status, text)?;
    }
    Ok(())
}

/// The entry point words, from place 41 on, are no part of the tables. Place 113 is the native id of thread 0.
const SHOWN: [(usize, u8, &str); 2] = [
    (40 + 8 * 41, 3, OPENING),
    (40 + 8 * 113, 0, UNKNOWN_THREAD),
];

#[test]
fn reports_of_stopped_runs(rt: HostRuntime) -> Result<(), Fail> {
    let alloc = rt.alloc();
    for (steps, script, report) in [("0", EMPTY, OPENING), ("1000", CHANGED, FINISHED)] {
        let core = core_of(alloc, steps, script)?;
        expect(&rt, alloc, &core, Status::Success, report)?;
    }
    expect_each(&rt, alloc, &SHOWN, Status::Success)?;
    Ok(())
}

/// The context, the life words of the thread, of its region and of its task, and a level: the report says what the words say.
const OTHER_REPORTS: [(usize, u8, &str); 5] = [
    (16, 3, OTHER_CONTEXT),
    (40 + 8 * 112, 3, UNKNOWN_THREAD),
    (40 + 8 * 118, 3, LATER_REGION),
    (40 + 8 * 123, 44, OTHER_LEVEL),
    (40 + 8 * 310, 3, LATER_TASK),
];

/// A pointer that leads to no live record, a size or a length that is out of range, and two chains that meet an address again. Each is refused at the
/// first line that reads it.
pub const DAMAGED: [(usize, u8, &str); 13] = [
    (40 + 8 * 114, 3, "damaged 0x10903 thread.cur\n"),
    (40 + 8 * 120, 3, "damaged 0x3 region.enclosing\n"),
    (40 + 8 * 122, 0, "damaged 0x103b0 region.size\n"),
    (40 + 8 * 122, 3, "damaged 0x103b0 region.size\n"),
    (40 + 8 * 129, 3, "damaged 0x10903 region.team\n"),
    (40 + 8 * 310, 0, "damaged 0x109b0 thread.cur\n"),
    (40 + 8 * 310, 2, "damaged 0x109b0 thread.cur\n"),
    (40 + 8 * 312, 3, "damaged 0x10303 task.region\n"),
    (40 + 8 * 313, 3, "damaged 0x10303 task.thread\n"),
    (40 + 8 * 315, 3, "damaged 0x3 task.generating\n"),
    (40 + 8 * 316, 3, "damaged 0x3 task.scheduling\n"),
    (40 + 8 * 321, 0, "damaged 0x109b0 task.nthn\n"),
    (40 + 8 * 321, 5, "damaged 0x109b0 task.nthn\n"),
];

/// Words by their place, each with what it is set to.
pub const HOSTILE: [(usize, u64, &str); 4] = [
    (316, 0x109b0, "cycle 0x109b0\n"),
    (120, 0x103b0, "cycle 0x103b0\n"),
    (315, 0x90_0000, "damaged 0x900000 task.generating\n"),
    (114, 0x109b8, "damaged 0x109b8 thread.cur\n"),
];

/// The opening words in the layout of version 1 have the report of those in version 2.
#[test]
fn the_first_version_of_the_layout(rt: HostRuntime) -> Result<(), Fail> {
    let alloc = rt.alloc();
    let core = opening_core_v1(alloc, EMPTY)?;
    assert_eq!(rt; core.len(), 55_768);
    expect(&rt, alloc, &core, Status::Success, OPENING)?;
    for (place, word, text) in &HOSTILE {
        let changed = with_word(alloc, &core, *place, *word)?;
        expect(&rt, alloc, &changed, Status::Damaged, text)?;
    }
    Ok(())
}

#[test]
fn words_that_were_changed(rt: HostRuntime) -> Result<(), Fail> {
    let alloc = rt.alloc();
    expect_each(&rt, alloc, &OTHER_REPORTS, Status::Success)?;
    expect_each(&rt, alloc, &DAMAGED, Status::Damaged)?;
    let core = core_of(alloc, "0", EMPTY)?;
    for (place, word, text) in &HOSTILE {
        let changed = with_word(alloc, &core, *place, *word)?;
        expect(&rt, alloc, &changed, Status::Damaged, text)?;
    }
    Ok(())
}

/// The start address, the count of symbols, a letter and the address of `omi_layout`, and the version of its table.
const NO_LAYOUT: [(usize, u8); 5] = [
    (26, 3),
    (40, 17),
    (40 + 8 * 36, b'O'),
    (40 + 8 * 40, 0),
    (40 + 8 * 43, 9),
];

/// A table that lies behind the segment, and each refusal of the table, at the word that it names.
const BAD_LAYOUT: [(usize, u8, &str); 8] = [
    (40 + 8 * 40 + 2, 3, "damaged 0x30158 layout\n"),
    (40 + 8 * 45, 12, "damaged 0x101e0 layout\n"),
    (40 + 8 * 48, 0, "damaged 0x10170 layout\n"),
    (40 + 8 * 48, 2, "damaged 0x10270 layout\n"),
    (40 + 8 * 55, 13, "damaged 0x101b8 layout\n"),
    (40 + 8 * 56, 0, "damaged 0x101c0 layout\n"),
    (40 + 8 * 44, 0x19, "damaged 0x10160 layout\n"),
    (40 + 8 * 51, 65, "damaged 0x10188 layout\n"),
];

#[test]
fn cores_that_give_no_layout(rt: HostRuntime) -> Result<(), Fail> {
    let alloc = rt.alloc();
    let text = "incompatible\n";
    expect_changed(&rt, alloc, &NO_LAYOUT, Status::Incompatible, text)?;
    expect_each(&rt, alloc, &BAD_LAYOUT, Status::Damaged)?;
    // A table that ends behind the segment.
    let cut = with_word(alloc, &core_of(alloc, "0", EMPTY)?, 40, 0x2_0898)?;
    let text = "damaged 0x209b0 layout\n";
    expect(&rt, alloc, &cut, Status::Damaged, text)?;
    Ok(())
}

const NO_CORE: [(usize, u8, &str); 7] = [
    (0, b'o', "core 0 1 BadMagic\n"),
    (8, 2, "core 8 2 Version\n"),
    (9, 2, "core 9 3 Order\n"),
    (10, 65, "core 10 7 BadContext\n"),
    (12, 65, "core 12 6 SegmentOrder\n"),
    (24, 4, "core 24 6 SegmentOrder\n"),
    (35, 1, "core 32 5 TooLarge\n"),
];

#[test]
fn bytes_that_are_no_core(rt: HostRuntime) -> Result<(), Fail> {
    expect_each(&rt, rt.alloc(), &NO_CORE, Status::Core)
}

#[test]
fn cores_that_are_cut_or_too_long(rt: HostRuntime) -> Result<(), Fail> {
    let alloc = rt.alloc();
    let core = core_of(alloc, "0", EMPTY)?;
    assert_eq!(rt; core.len(), 68_056);
    for missing in 1..10usize {
        let length = core.len() - missing;
        let text = format!(in alloc; "core {length} 4 Short\n")?;
        expect(&rt, alloc, &core[..length], Status::Core, &text)?;
    }
    expect(&rt, alloc, b"", Status::Core, "core 0 4 Short\n")?;
    let mut longer = with_byte(alloc, &core, 0, b'O')?;
    longer.push(0)?;
    expect(&rt, alloc, &longer, Status::Core, "core 68056 8 Trailing\n")?;
    Ok(())
}

#[test]
fn cores_that_are_missing_or_fail(rt: HostRuntime) -> Result<(), Fail> {
    let alloc = rt.alloc();
    let core = core_of(alloc, "0", EMPTY)?;
    let second = Some((Call::ReadAt, 2));
    let line = ["show", "c"];
    expect_line(
        &rt,
        alloc,
        &line,
        &core,
        second,
        Status::ReadFault,
        "read fault c\n",
    )?;
    let gone = ["show", "gone"];
    expect_line(
        &rt,
        alloc,
        &gone,
        &core,
        None,
        Status::NoFile,
        "no file gone\n",
    )?;
    for line in [["show"].as_slice(), ["show", "c", "d"].as_slice()] {
        expect_line(&rt, alloc, line, &core, None, Status::Usage, "usage\n")?;
    }
    Ok(())
}
