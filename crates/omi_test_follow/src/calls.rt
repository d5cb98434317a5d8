//! Lines of `follow` over two cores in memory, and what they are to leave.

use omi_fixture_calls::core_with;
use omi_fixture_done::{Done, words};
use omi_outside::{Call, MemFiles, MemSink, Status};
use omi_top::run_top;
use std::alloc::{AllocError, Global};
use std::process::Abort;
use std::test::Fail;

/// The bytes under `c` and those under `d`, if any.
#[derive(Clone, Copy)]
pub struct Cores<'a> {
    pub first: Option<&'a [u8]>,
    pub later: Option<&'a [u8]>,
}

impl<'a> Cores<'a> {
    /// Both are there.
    pub fn of(first: &'a [u8], later: &'a [u8]) -> Cores<'a> {
        Cores {
            first: Some(first),
            later: Some(later),
        }
    }
}

/// What a line leaves over two cores, where these calls of reading and of putting fail.
pub fn call(
    alloc: Global,
    line: &[&str],
    cores: Cores<'_>,
    reads: &[(Call, u64)],
    puts: &[u64],
) -> Result<Done, AllocError> {
    let mut files = MemFiles::new(alloc, reads.to_vec(alloc)?);
    if let Some(first) = cores.first {
        files.put("c", first)?;
    }
    if let Some(later) = cores.later {
        files.put("d", later)?;
    }
    let mut dest = MemFiles::new(alloc, Vec::new(alloc));
    dest.put("c", b"stays")?;
    let mut out = MemSink::new(alloc, puts.to_vec(alloc)?);
    let line = words(alloc, line)?;
    let status = run_top(alloc, &line, &mut files, &mut dest, &mut out);
    Ok(Done {
        status,
        files: dest,
        out,
    })
}

/// A line that ended with this status, put this text, and wrote nothing.
pub fn expect_done(rt: &impl Abort, done: &Done, status: Status, text: &str) {
    assert_eq!(rt; done.out.bytes(), text.as_bytes());
    assert_eq!(rt; done.status, status);
    assert_eq!(rt; done.files.bytes("c"), Some(b"stays".as_slice()));
    assert_eq!(rt; done.files.bytes("d"), None);
}

/// `follow c d` ends with this status and puts this text.
pub fn expect(
    rt: &impl Abort,
    alloc: Global,
    cores: Cores<'_>,
    status: Status,
    text: &str,
) -> Result<(), AllocError> {
    let done = call(alloc, &["follow", "c", "d"], cores, &[], &[])?;
    expect_done(rt, &done, status, text);
    Ok(())
}

/// The core at the event of this number among those of a kind.
pub fn core_at(alloc: Global, script: &str, kind: &str, count: &str) -> Result<Vec<u8>, Fail> {
    core_with(
        alloc,
        "1000000",
        script,
        &["--break", kind, "--count", count],
    )
}
