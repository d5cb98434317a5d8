//! Runs of `recode` through the top call: the copy in either order, its report, and each refusal.

use crate::show_tests::{FINISHED, OPENING, expect};
use omi_fixture_calls::{CHANGED, EMPTY, call, core_of};
use omi_fixture_done::Done;
use omi_outside::{Call, Status};
use std::alloc::{AllocError, Global};
use std::process::Abort;
use std::test::Fail;

/// What `recode` to an order leaves of a core under `c`, where these calls of reading, writing and putting fail.
fn recode_with(
    alloc: Global,
    order: &str,
    core: Option<&[u8]>,
    reads: &[(Call, u64)],
    writes: &[(Call, u64)],
    puts: &[u64],
) -> Result<Done, AllocError> {
    let line = ["recode", order, "c", "d"];
    call(alloc, &line, ("", core), reads, writes, puts)
}

/// The same, where no call fails.
fn recode(alloc: Global, order: &str, core: &[u8]) -> Result<Done, AllocError> {
    recode_with(alloc, order, Some(core), &[], &[], &[])
}

/// A call ended with this status, put this text, and left these bytes under `d`, if any.
fn expect_done(rt: &impl Abort, done: &Done, status: Status, text: &[u8], copy: Option<&[u8]>) {
    assert_eq!(rt; done.status, status);
    assert_eq!(rt; done.out.bytes(), text);
    assert_eq!(rt; done.files.bytes("d"), copy);
    assert_eq!(rt; done.files.bytes("other"), Some(b"stays".as_slice()));
}

/// A core in order 1 has byte 9 and the words of it, and the same report; back in order 0 it has its bytes again.
fn expect_both(rt: &impl Abort, alloc: Global, core: &[u8], report: &str) -> Result<(), Fail> {
    let big = recode(alloc, "1", core)?.left(alloc, "d")?;
    assert_eq!(rt; big.len(), core.len());
    assert_eq!(rt; big.get(9), Some(&1));
    assert_eq!(rt; big.get(10..40), core.get(10..40));
    assert_eq!(rt; big.get(40..48), Some([0, 0, 0, 0, 0, 0, 0, 8].as_slice()));
    expect(rt, alloc, &big, Status::Success, report)?;
    let back = recode(alloc, "0", &big)?;
    expect_done(rt, &back, Status::Success, b"recoded 0\n", Some(core));
    let again = recode(alloc, "1", &big)?;
    expect_done(
        rt,
        &again,
        Status::Success,
        b"recoded 1\n",
        Some(big.as_slice()),
    );
    let same = recode(alloc, "0", core)?;
    expect_done(rt, &same, Status::Success, b"recoded 0\n", Some(core));
    Ok(())
}

#[test]
fn both_orders(rt: HostRuntime) -> Result<(), Fail> {
    let alloc = rt.alloc();
    for (steps, script, report) in [("0", EMPTY, OPENING), ("1000", CHANGED, FINISHED)] {
        let core = core_of(alloc, steps, script)?;
        expect_both(&rt, alloc, &core, report)?;
    }
    Ok(())
}

/// Words that are refused.
const USAGE: [&[&str]; 8] = [
    &["recode", "2", "c", "d"],
    &["recode", "00", "c", "d"],
    &["recode", "+1", "c", "d"],
    &["recode", "", "c", "d"],
    &["recode", "1", "c"],
    &["recode", "1", "c", "d", "e"],
    &["recode", "1", "c", "d", "--layout", "0"],
    &["recode", "c", "d", "1"],
];

#[test]
fn refused_words(rt: HostRuntime) -> Result<(), Fail> {
    let alloc = rt.alloc();
    let core = core_of(alloc, "0", EMPTY)?;
    for line in USAGE {
        let done = call(alloc, line, ("", Some(core.as_slice())), &[], &[], &[])?;
        expect_done(&rt, &done, Status::Usage, b"usage\n", None);
    }
    Ok(())
}

/// Another byte at a place of the core, and what is put.
const NO_CORE: [(usize, u8, &[u8]); 3] = [
    (0, b'o', b"core 0 1 BadMagic\n"),
    (9, 2, b"core 9 3 Order\n"),
    (24, 4, b"core 24 6 SegmentOrder\n"),
];

#[test]
fn refused_cores(rt: HostRuntime) -> Result<(), Fail> {
    let alloc = rt.alloc();
    let core = core_of(alloc, "0", EMPTY)?;
    for (at, byte, text) in NO_CORE {
        let mut changed = core.to_vec(alloc)?;
        if at < changed.len() {
            changed[at] = byte;
        }
        let done = recode(alloc, "1", &changed)?;
        expect_done(&rt, &done, Status::Core, text, None);
    }
    let mut longer = core.to_vec(alloc)?;
    longer.push(0)?;
    let done = recode(alloc, "1", &longer)?;
    expect_done(&rt, &done, Status::Core, b"core 68056 8 Trailing\n", None);
    let none = recode_with(alloc, "1", None, &[], &[], &[])?;
    expect_done(&rt, &none, Status::NoFile, b"no file c\n", None);
    Ok(())
}

#[test]
fn a_core_without_a_layout(rt: HostRuntime) -> Result<(), Fail> {
    let alloc = rt.alloc();
    let core = b"OMPDCOR1\x01\x00\x00\x00\x00\x00\x00\x00";
    let done = recode(alloc, "1", core)?;
    let big: &[u8] = b"OMPDCOR1\x01\x01\x00\x00\x00\x00\x00\x00";
    expect_done(&rt, &done, Status::Success, b"recoded 1\n", Some(big));
    Ok(())
}

#[test]
fn calls_that_fail(rt: HostRuntime) -> Result<(), Fail> {
    let alloc = rt.alloc();
    let core = core_of(alloc, "0", EMPTY)?;
    for read in [(Call::Size, 1), (Call::ReadAt, 1), (Call::ReadAt, 5)] {
        let done = recode_with(alloc, "1", Some(core.as_slice()), &[read], &[], &[])?;
        expect_done(&rt, &done, Status::ReadFault, b"read fault c\n", None);
    }
    let done = recode_with(
        alloc,
        "1",
        Some(core.as_slice()),
        &[],
        &[(Call::Create, 1)],
        &[],
    )?;
    expect_done(&rt, &done, Status::WriteFault, b"", None);
    let big = recode(alloc, "1", &core)?.left(alloc, "d")?;
    let done = recode_with(
        alloc,
        "1",
        Some(core.as_slice()),
        &[],
        &[(Call::Append, 3)],
        &[],
    )?;
    expect_done(&rt, &done, Status::WriteFault, b"", big.get(..8192));
    let done = recode_with(alloc, "1", Some(core.as_slice()), &[], &[], &[1])?;
    expect_done(&rt, &done, Status::WriteFault, b"", Some(big.as_slice()));
    Ok(())
}
