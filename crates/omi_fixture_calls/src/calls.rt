//! Lines of the top call over files in memory, and what they leave.

use omi_fixture_done::{Done, words};
use omi_outside::{Call, MemFiles, MemSink};
use omi_top::run_top;
use std::alloc::{AllocError, Global};
use std::test::Fail;

/// An empty program, and one that changes two variables.
pub const EMPTY: &str = "func main\nend\n";

pub const CHANGED: &str =
    "threads 1\nenv num_threads 4,2\nfunc main\nset_num_threads 3\nset_dynamic 1\nwork\nend\n";

/// What a line leaves over a script under `s` and these bytes under `c`, if any, where these calls of reading, writing and putting fail.
pub fn call(
    alloc: Global,
    line: &[&str],
    files: (&str, Option<&[u8]>),
    reads: &[(Call, u64)],
    writes: &[(Call, u64)],
    puts: &[u64],
) -> Result<Done, AllocError> {
    call_over(alloc, line, files, None, reads, writes, puts)
}

/// The same, where these bytes, if any, stand under the name `c` of the core before the line writes.
pub fn call_over(
    alloc: Global,
    line: &[&str],
    files: (&str, Option<&[u8]>),
    before: Option<&[u8]>,
    reads: &[(Call, u64)],
    writes: &[(Call, u64)],
    puts: &[u64],
) -> Result<Done, AllocError> {
    let (script, core) = files;
    let mut files = MemFiles::new(alloc, reads.to_vec(alloc)?);
    files.put("s", script.as_bytes())?;
    if let Some(core) = core {
        files.put("c", core)?;
    }
    let mut dest = MemFiles::new(alloc, writes.to_vec(alloc)?);
    if let Some(before) = before {
        dest.put("c", before)?;
    }
    dest.put("other", b"stays")?;
    let mut out = MemSink::new(alloc, puts.to_vec(alloc)?);
    let line = words(alloc, line)?;
    let status = run_top(alloc, &line, &mut files, &mut dest, &mut out);
    Ok(Done {
        status,
        files: dest,
        out,
    })
}

/// What a line leaves over a script, with no call that fails.
pub fn run(alloc: Global, line: &[&str], script: &str) -> Result<Done, AllocError> {
    call(alloc, line, (script, None), &[], &[], &[])
}

/// The core that `stop` writes with these words behind its files. An error where it doesn't succeed.
pub fn core_with(
    alloc: Global,
    steps: &str,
    script: &str,
    options: &[&str],
) -> Result<Vec<u8>, Fail> {
    let mut line = Vec::new(alloc);
    line.extend_from_slice(&["stop", steps, "s", "c"])?;
    line.extend_from_slice(options)?;
    run(alloc, line.as_slice(), script)?.left(alloc, "c")
}

/// The same without such words.
pub fn core_of(alloc: Global, steps: &str, script: &str) -> Result<Vec<u8>, Fail> {
    core_with(alloc, steps, script, &[])
}

/// The core of one context with another word at a place. An error where it has no such word.
pub fn with_word(alloc: Global, core: &[u8], place: usize, word: u64) -> Result<Vec<u8>, Fail> {
    let mut changed = core.to_vec(alloc)?;
    let at = place.wrapping_mul(8).wrapping_add(40);
    if at > changed.len() || changed.len() - at < 8 {
        return Err(Fail::from("no such word"));
    }
    changed[at..at + 8].copy_from_slice(&word.to_le_bytes());
    Ok(changed)
}
