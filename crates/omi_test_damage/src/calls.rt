//! Lines of the top call over files in memory, of which some calls fail.

use omi_fixture_calls::call_over;
use omi_fixture_done::{Done, words};
use omi_outside::{Call, MemFiles, MemSink};
use omi_top::run_top;
use std::alloc::{AllocError, Global};

/// Which calls fail: of reading, of writing and of putting, each by its number.
#[derive(Clone, Copy)]
pub struct Failing<'a> {
    pub reads: &'a [(Call, u64)],
    pub writes: &'a [(Call, u64)],
    pub puts: &'a [u64],
}

/// A file is written, and a text is put, in pieces of so many bytes.
pub const PIECE: usize = 4096;

/// The first bytes, and all where there are fewer.
pub fn front(bytes: &[u8], most: usize) -> &[u8] {
    match bytes.get(..most) {
        Some(front) => front,
        None => bytes,
    }
}

/// No call fails.
pub const NONE: Failing<'static> = Failing {
    reads: &[],
    writes: &[],
    puts: &[],
};

/// What stands under the name of the core and under another one, before a line writes.
pub const BEFORE: &[u8] = b"before";

pub const OTHER: &[u8] = b"stays";

/// What a line leaves over a script under `s` and a core to read under `c`.
pub fn call(
    alloc: Global,
    line: &[&str],
    script: &str,
    core: &[u8],
    failing: Failing<'_>,
) -> Result<Done, AllocError> {
    let Failing {
        reads,
        writes,
        puts,
    } = failing;
    call_over(
        alloc,
        line,
        (script, Some(core)),
        Some(BEFORE),
        reads,
        writes,
        puts,
    )
}

/// What a line leaves over a script under `s` and two cores to read under `c` and `d`. The names that it may write hold something before.
pub fn call_of_two(
    alloc: Global,
    line: &[&str],
    script: &str,
    cores: [&[u8]; 2],
    failing: Failing<'_>,
) -> Result<Done, AllocError> {
    let [core, later] = cores;
    let mut files = MemFiles::new(alloc, failing.reads.to_vec(alloc)?);
    files.put("s", script.as_bytes())?;
    files.put("c", core)?;
    files.put("d", later)?;
    let mut dest = MemFiles::new(alloc, failing.writes.to_vec(alloc)?);
    dest.put("c", BEFORE)?;
    dest.put("d", BEFORE)?;
    dest.put("m", BEFORE)?;
    dest.put("other", OTHER)?;
    let mut out = MemSink::new(alloc, failing.puts.to_vec(alloc)?);
    let line = words(alloc, line)?;
    let status = run_top(alloc, &line, &mut files, &mut dest, &mut out);
    Ok(Done {
        status,
        files: dest,
        out,
    })
}
