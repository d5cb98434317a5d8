//! Each call of files and of the output that the top call over running threads makes, failing in turn.

use omi_fixture_done::Done;
use omi_fixture_rows::{A_FULL_ROW, A_TEAM_OF_TWO};
use omi_live::live_top;
use omi_outside::{Call, FreeGate, MemFiles, MemSink, Status};
use std::alloc::{AllocError, Global};
use std::process::Abort;
use std::test::Fail;
use std::thread::Threads;

/// A file is written, and a text is put, in pieces of so many bytes.
const PIECE: usize = 4096;

/// The first bytes, and all where there are fewer.
fn front(bytes: &[u8], most: usize) -> &[u8] {
    match bytes.get(..most) {
        Some(front) => front,
        None => bytes,
    }
}

/// So many steps at most over the script `s`, and the core `c` of them.
fn words(alloc: Global, budget: &str) -> Result<Vec<String>, AllocError> {
    let mut words = Vec::new(alloc);
    for word in [budget, "s", "c"] {
        words.push(String::from_str(alloc, word)?)?;
    }
    Ok(words)
}

/// What a budget over a script leaves, where the calls of these kinds and numbers fail, and these puts.
fn call_failing<R: Threads + Sync>(
    rt: &R,
    alloc: Global,
    budget: &str,
    script: &str,
    failing: &[(Call, u64)],
    puts: &[u64],
) -> Result<Done, AllocError> {
    let mut files = MemFiles::new(alloc, failing.to_vec(alloc)?);
    files.put("s", script.as_bytes())?;
    files.put("c", b"before")?;
    files.put("other", b"stays")?;
    let mut out = MemSink::new(alloc, puts.to_vec(alloc)?);
    let words = words(alloc, budget)?;
    let status = live_top(rt, alloc, &words, &mut files, &mut out, &FreeGate);
    Ok(Done { status, files, out })
}

/// Threads without steps, whose core and lines are the same in each run.
const NO_STEPS: &str = "0";

/// A call ends with this status, puts this and leaves this core, and all else as it was.
fn expect(rt: &impl Abort, done: &Done, status: Status, put: &[u8], core: &[u8]) {
    assert_eq!(rt; done.status, status);
    assert_eq!(rt; done.out.bytes(), put);
    assert!(rt; done.holds("c", core));
    assert!(rt; done.holds("s", A_TEAM_OF_TWO.as_bytes()));
    assert!(rt; done.holds("other", b"stays"));
}

/// Without a failing call: what it puts, and its core.
fn whole<R: Threads + Sync + Abort>(rt: &R, alloc: Global) -> Result<Done, Fail> {
    let done = call_failing(rt, alloc, NO_STEPS, A_TEAM_OF_TWO, &[], &[])?;
    assert_eq!(rt; done.status, Status::Success);
    Ok(done)
}

/// A piece of the core that can't be added ends the call: those before it stay, and nothing is put. There are no more calls.
#[test]
fn each_append(rt: HostRuntime) -> Result<(), Fail> {
    let alloc = rt.alloc();
    let whole = whole(&rt, alloc)?;
    let core = whole.core().ok_or("no core")?;
    let pieces = core.len().div_ceil(PIECE);
    assert!(&rt; pieces > 1);
    for number in 0..pieces {
        let failing = [(Call::Append, number as u64 + 1)];
        let done = call_failing(&rt, alloc, NO_STEPS, A_TEAM_OF_TWO, &failing, &[])?;
        let left = front(core, PIECE.wrapping_mul(number));
        expect(&rt, &done, Status::WriteFault, b"", left);
    }
    let failing = [
        (Call::Append, (pieces as u64).wrapping_add(1)),
        (Call::Create, 2),
        (Call::Size, 2),
    ];
    let done = call_failing(&rt, alloc, NO_STEPS, A_TEAM_OF_TWO, &failing, &[])?;
    expect(&rt, &done, Status::Success, whole.out.bytes(), core);
    Ok(())
}

/// A read of the script that fails, of which this line can be put or not, and a core that can't be made: nothing is written.
#[test]
fn reads_and_the_creation(rt: HostRuntime) -> Result<(), Fail> {
    let alloc = rt.alloc();
    let fault: &[u8] = b"read fault s\n";
    for (kind, puts, status, put) in [
        (Call::Size, &[] as &[u64], Status::ReadFault, fault),
        (Call::ReadAt, &[], Status::ReadFault, fault),
        (Call::Size, &[1], Status::ReadFault, b""),
        (Call::ReadAt, &[1], Status::ReadFault, b""),
        (Call::Create, &[], Status::WriteFault, b""),
    ] {
        let failing = [(kind, 1)];
        let done = call_failing(&rt, alloc, NO_STEPS, A_TEAM_OF_TWO, &failing, puts)?;
        expect(&rt, &done, status, put, b"before");
    }
    Ok(())
}

/// Each piece of the lines that can't be put, in turn: those before it stay, and the core is whole. One thread prints the same in each run.
#[test]
fn each_put(rt: HostRuntime) -> Result<(), Fail> {
    let alloc = rt.alloc();
    let budget = "5000";
    let whole = call_failing(&rt, alloc, budget, A_FULL_ROW, &[], &[])?;
    assert_eq!(&rt; whole.status, Status::Success);
    let text = whole.out.bytes();
    let pieces = text.len().div_ceil(PIECE);
    assert!(&rt; pieces > 0);
    for number in 0..pieces {
        let puts = [number as u64 + 1];
        let done = call_failing(&rt, alloc, budget, A_FULL_ROW, &[], &puts)?;
        assert_eq!(&rt; done.status, Status::WriteFault);
        assert_eq!(&rt; done.out.bytes(), front(text, PIECE.wrapping_mul(number)));
        assert_eq!(&rt; done.core(), whole.core());
    }
    let puts = [(pieces as u64).wrapping_add(1)];
    let done = call_failing(&rt, alloc, budget, A_FULL_ROW, &[], &puts)?;
    assert_eq!(&rt; done.status, Status::Success);
    Ok(())
}
