//! Runs of `run` through the top call: what it prints of the core that it reads back, and what it leaves.

use omi_fixture_calls::{EMPTY, call, core_of, with_word};
use omi_fixture_rows::{A_TEAM_OF_TWO, FORKED};
use omi_outside::{Call, Status};
use std::alloc::{AllocError, Global};
use std::process::Abort;
use std::test::Fail;

/// What `run 0` of an empty script prints of its run.
const NO_STEP: &str = "end steps 0 events 0 by steps
";

/// The bytes are these texts, one behind the other.
fn are(bytes: &[u8], texts: &[&str]) -> bool {
    let mut left = bytes;
    for text in texts {
        let Some(rest) = left.strip_prefix(text.as_bytes()) else {
            return false;
        };
        left = rest;
    }
    left.is_empty()
}

/// `run 0` of an empty script over these bytes under `c` ends with this status and puts these texts. It leaves the core of its own run.
fn expect_back(
    rt: &impl Abort,
    alloc: Global,
    core: Option<&[u8]>,
    status: Status,
    texts: &[&str],
) -> Result<(), Fail> {
    let line = ["run", "0", "s", "c"];
    let done = call(alloc, &line, (EMPTY, core), &[], &[], &[])?;
    assert_eq!(rt; done.status, status);
    assert!(rt; are(done.out.bytes(), texts));
    let own = core_of(alloc, "0", EMPTY)?;
    assert_eq!(rt; done.files.bytes("c"), Some(own.as_slice()));
    assert_eq!(rt; done.files.bytes("other"), Some(b"stays".as_slice()));
    Ok(())
}

/// The report is that of the bytes which are read back, whatever the run was.
#[test]
fn what_is_read_back(rt: HostRuntime) -> Result<(), Fail> {
    let alloc = rt.alloc();
    let team = core_of(alloc, "197", A_TEAM_OF_TWO)?;
    expect_back(&rt, alloc, Some(&team), Status::Success, &[NO_STEP, FORKED])?;
    let own = core_of(alloc, "0", EMPTY)?;
    let circular = with_word(alloc, &own, 316, 0x109b0)?;
    expect_back(
        &rt,
        alloc,
        Some(&circular),
        Status::Damaged,
        &["cycle 0x109b0\n"],
    )?;
    expect_back(&rt, alloc, None, Status::NoFile, &["no file c\n"])?;
    expect_back(&rt, alloc, Some(b""), Status::Core, &["core 0 4 Short\n"])
}

/// `run 0` of an empty script over this core, where these calls of reading, writing and putting fail, ends with this status, puts this text and leaves
/// this under `c`.
fn expect_failed(
    rt: &impl Abort,
    alloc: Global,
    core: &[u8],
    failing: (&[(Call, u64)], &[(Call, u64)], &[u64]),
    ended: (Status, &str),
    left: Option<&[u8]>,
) -> Result<(), AllocError> {
    let line = ["run", "0", "s", "c"];
    let (reads, writes, puts) = failing;
    let done = call(alloc, &line, (EMPTY, Some(core)), reads, writes, puts)?;
    let (status, text) = ended;
    assert_eq!(rt; done.status, status);
    assert_eq!(rt; done.out.bytes(), text.as_bytes());
    assert_eq!(rt; done.files.bytes("c"), left);
    Ok(())
}

/// A read of the core that fails, behind the core that was written whole, and one of the script; a write of the core that fails, before anything is
/// read back; and a put that fails.
#[test]
fn failing_reads_writes_and_puts(rt: HostRuntime) -> Result<(), Fail> {
    let alloc = rt.alloc();
    let own = core_of(alloc, "0", EMPTY)?;
    let whole = Some(own.as_slice());
    let second = [(Call::Size, 2)];
    let back = (Status::ReadFault, "read fault c\n");
    expect_failed(&rt, alloc, &own, (&second, &[], &[]), back, whole)?;
    let first = [(Call::Size, 1)];
    let unread = (Status::ReadFault, "read fault s\n");
    expect_failed(&rt, alloc, &own, (&first, &[], &[]), unread, None)?;
    let faulty = (Status::WriteFault, "");
    let append = [(Call::Append, 2)];
    expect_failed(
        &rt,
        alloc,
        &own,
        (&[], &append, &[]),
        faulty,
        own.get(..4096),
    )?;
    expect_failed(&rt, alloc, &own, (&[], &[], &[1]), faulty, whole)?;
    Ok(())
}

/// The events of the team of two up to its fork, and why its run ends there.
const TO_THE_FORK: &str = "1 t0 enter
2 t1 begin
3 t0 state overhead 0
4 t1 offer
25 t0 want 2
27 t0 ask 1 got
197 t0 fork r0.1.0 size 2 team k0.1.0@0 k0.2.0@1
end steps 197 events 7 by break
";

/// A run up to the first event of a kind puts the events up to it, and the report of what is read back behind them. It leaves the core of its last step.
#[test]
fn a_run_up_to_a_break(rt: HostRuntime) -> Result<(), Fail> {
    let alloc = rt.alloc();
    let fork = core_of(alloc, "197", A_TEAM_OF_TWO)?;
    let line = [
        "run",
        "100000",
        "s",
        "c",
        "--break",
        "parallel_begin",
        "--count",
        "1",
    ];
    let done = call(alloc, &line, (A_TEAM_OF_TWO, Some(&fork)), &[], &[], &[])?;
    assert_eq!(rt; done.status, Status::Success);
    assert!(rt; are(done.out.bytes(), &[TO_THE_FORK, FORKED]));
    assert_eq!(rt; done.files.bytes("c"), Some(fork.as_slice()));
    Ok(())
}
