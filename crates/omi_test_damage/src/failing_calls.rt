//! Each call of a file or of the output that a line makes, failing in turn: its status, what was put, and what was written.

use crate::calls::{BEFORE, Failing, NONE, OTHER, PIECE, call, front};
use omi_fixture_calls::{CHANGED, core_of};
use omi_fixture_done::Done;
use omi_fixture_rows::AN_EMPTY_RUN;
use omi_outside::{Call, Status};
use std::alloc::{AllocError, Global};
use std::process::Abort;
use std::test::Fail;

/// A function that works, called 1,000 times: its events are put in several pieces.
const LONG_TEXT: &str = "func f\nwork\nend\nfunc main\nrepeat 1000 f\nend\n";

/// The line failed in writing, put these bytes, left these under the core's name, and nothing else.
fn expect_fault(rt: &impl Abort, done: &Done, put: &[u8], left: &[u8]) {
    assert_eq!(rt; done.status, Status::WriteFault);
    assert_eq!(rt; done.out.bytes(), put);
    assert_eq!(rt; done.files.bytes("c"), Some(left));
    assert_eq!(rt; done.files.bytes("other"), Some(OTHER));
}

/// The core has seventeen pieces. Where the j-th can't be added, those before it stay.
#[test]
fn each_append_of_a_core(rt: HostRuntime) -> Result<(), Fail> {
    let alloc = rt.alloc();
    let core = core_of(alloc, "0", AN_EMPTY_RUN)?;
    let line = ["stop", "0", "s", "c"];
    for number in 1..18usize {
        let writes = [(Call::Append, number as u64)];
        let failing = Failing {
            writes: &writes,
            ..NONE
        };
        let done = call(alloc, &line, AN_EMPTY_RUN, b"", failing)?;
        let left = front(&core, PIECE * (number - 1));
        assert_eq!(rt; left.len(), PIECE * (number - 1));
        expect_fault(&rt, &done, b"", left);
    }
    let failing = Failing {
        writes: &[(Call::Append, 18)],
        ..NONE
    };
    let done = call(alloc, &line, AN_EMPTY_RUN, b"", failing)?;
    assert_eq!(rt; done.status, Status::Success);
    Ok(())
}

#[test]
fn a_core_that_is_not_created(rt: HostRuntime) -> Result<(), Fail> {
    let failing = Failing {
        writes: &[(Call::Create, 1)],
        ..NONE
    };
    for verb in ["stop", "run"] {
        let line = [verb, "0", "s", "c"];
        let done = call(rt.alloc(), &line, AN_EMPTY_RUN, b"", failing)?;
        expect_fault(&rt, &done, b"", BEFORE);
    }
    Ok(())
}

/// Each put of a run of this script fails in turn. The core is whole, and what was put before stays. The text has this many pieces.
fn expect_each_put(
    rt: &impl Abort,
    alloc: Global,
    script: &str,
    pieces: usize,
) -> Result<(), AllocError> {
    let line = ["stop", "1000000", "s", "c"];
    let whole = call(alloc, &line, script, b"", NONE)?;
    assert_eq!(rt; whole.status, Status::Success);
    let text = whole.out.bytes();
    assert_eq!(rt; text.len().div_ceil(PIECE), pieces);
    for number in 0..pieces {
        let puts = [number as u64 + 1];
        let failing = Failing {
            puts: &puts,
            ..NONE
        };
        let done = call(alloc, &line, script, b"", failing)?;
        let core = whole.files.bytes("c").unwrap_or(b"");
        expect_fault(rt, &done, front(text, PIECE.wrapping_mul(number)), core);
    }
    Ok(())
}

#[test]
fn each_put_of_a_text(rt: HostRuntime) -> Result<(), Fail> {
    let alloc = rt.alloc();
    expect_each_put(&rt, alloc, CHANGED, 1)?;
    expect_each_put(&rt, alloc, LONG_TEXT, 10)?;
    Ok(())
}

/// More reads than `show` of the core of an empty run makes.
const MANY: u64 = 40;

/// How many calls of a kind `show` makes of a core, where each that fails ends it with a read fault and its line alone.
fn failing_reads(
    rt: &impl Abort,
    alloc: Global,
    core: &[u8],
    kind: Call,
) -> Result<u64, AllocError> {
    for number in 1..MANY {
        let reads = [(kind, number)];
        let failing = Failing {
            reads: &reads,
            ..NONE
        };
        let done = call(alloc, &["show", "c"], "", core, failing)?;
        if done.status == Status::Success {
            return Ok(number - 1);
        }
        assert_eq!(rt; done.status, Status::ReadFault, "{number}");
        assert_eq!(rt; done.out.bytes(), b"read fault c\n".as_slice(), "{number}");
    }
    Ok(MANY)
}

#[test]
fn each_read_of_a_core(rt: HostRuntime) -> Result<(), Fail> {
    let alloc = rt.alloc();
    let core = core_of(alloc, "0", AN_EMPTY_RUN)?;
    assert_eq!(rt; failing_reads(&rt, alloc, &core, Call::Size)?, 1);
    let reads = failing_reads(&rt, alloc, &core, Call::ReadAt)?;
    assert!(rt; 3 < reads && reads < MANY, "{reads}");
    Ok(())
}

/// Of an ELF file the first four bytes, the header, the program headers, the note and its ids are one read each, and then come the pages.
#[test]
fn each_read_of_an_elf_file(rt: HostRuntime) -> Result<(), Fail> {
    let alloc = rt.alloc();
    let core = core_of(alloc, "0", AN_EMPTY_RUN)?;
    let file = call(alloc, &["elf", "c", "d"], "", &core, NONE)?.left(alloc, "d")?;
    assert_eq!(rt; failing_reads(&rt, alloc, &file, Call::Size)?, 1);
    let reads = failing_reads(&rt, alloc, &file, Call::ReadAt)?;
    assert!(rt; 5 < reads && reads < MANY, "{reads}");
    Ok(())
}
