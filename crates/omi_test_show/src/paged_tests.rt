//! How much of a core `show` reads, and each of its reads failing.

use crate::counted::Counted;
use omi_fixture_calls::{EMPTY, call, core_of, core_with};
use omi_fixture_done::words;
use omi_fixture_rows::A_TEAM_OF_TWO;
use omi_outside::{Call, MemFiles, MemSink, Status};
use omi_top::run_top;
use std::alloc::{AllocError, Global};
use std::process::Abort;
use std::test::Fail;

/// Eight threads, whose teams make trees of tasks, each ten deep.
const TREES: &str = "threads 8
env num_threads 4,2
func t0
work
end
func t1
task t0
taskwait
end
func t2
task t1
taskwait
end
func t3
task t2
taskwait
end
func t4
task t3
taskwait
end
func t5
task t4
taskwait
end
func t6
task t5
taskwait
end
func t7
task t6
taskwait
end
func t8
task t7
taskwait
end
func t9
task t8
taskwait
end
func spawn
task t9
end
func inner
repeat 4 spawn
end
func outer
parallel inner
end
func main
parallel outer
end
";

/// What `show` makes of a core: its status, how many reads it made, and how many bytes they gave.
fn shown(alloc: Global, core: &[u8]) -> Result<(Status, u64, u64), AllocError> {
    let mut files = MemFiles::new(alloc, Vec::new(alloc));
    files.put("c", core)?;
    let mut files = Counted {
        files,
        reads: 0,
        given: 0,
    };
    let mut dest = MemFiles::new(alloc, Vec::new(alloc));
    let mut out = MemSink::new(alloc, Vec::new(alloc));
    let line = words(alloc, &["show", "c"])?;
    let status = run_top(alloc, &line, &mut files, &mut dest, &mut out);
    Ok((status, files.reads, files.given))
}

/// Of the core at the twentieth task that starts, fewer bytes are read than it has.
#[test]
fn fewer_bytes_than_the_core_has(rt: HostRuntime) -> Result<(), Fail> {
    let alloc = rt.alloc();
    let options = ["--seed", "5", "--break", "task_begin", "--count", "20"];
    let core = core_with(alloc, "1000000", TREES, &options)?;
    let (status, _, given) = shown(alloc, &core)?;
    assert_eq!(rt; status, Status::Success);
    assert!(rt; 0 < given && given < core.len() as u64, "{given}");
    Ok(())
}

/// A line over a core, of which each read fails in turn, ends with a read fault and puts its line alone.
fn expect_each_failing(
    rt: &impl Abort,
    alloc: Global,
    line: &[&str],
    core: &[u8],
    before: u64,
    reads: u64,
) -> Result<(), AllocError> {
    for number in before..before.saturating_add(reads) {
        let failing = [(Call::ReadAt, number.saturating_add(1))];
        let done = call(alloc, line, (EMPTY, Some(core)), &failing, &[], &[])?;
        assert_eq!(rt; done.status, Status::ReadFault, "{number}");
        assert_eq!(rt; done.out.bytes(), b"read fault c\n".as_slice(), "{number}");
    }
    let last = before.saturating_add(reads).saturating_add(1);
    let never = [(Call::ReadAt, last)];
    let done = call(alloc, line, (EMPTY, Some(core)), &never, &[], &[])?;
    assert_eq!(rt; done.status, Status::Success);
    Ok(())
}

/// Each read of `show`, and each that `run` makes of the core behind the one of its script.
#[test]
fn each_read_fails(rt: HostRuntime) -> Result<(), Fail> {
    let alloc = rt.alloc();
    for (steps, script) in [("0", EMPTY), ("197", A_TEAM_OF_TWO)] {
        let core = core_of(alloc, steps, script)?;
        let (status, reads, _) = shown(alloc, &core)?;
        assert_eq!(rt; status, Status::Success);
        assert!(rt; reads > 3, "{reads}");
        expect_each_failing(&rt, alloc, &["show", "c"], &core, 0, reads)?;
        expect_each_failing(&rt, alloc, &["run", "0", "s", "c"], &core, 1, reads)?;
    }
    Ok(())
}
