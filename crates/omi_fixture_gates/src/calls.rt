//! Calls of the two top calls over files in memory, and what they leave.

use omi_fixture_done::{Done, split};
use omi_live::live_top;
use omi_outside::{Call, FreeGate, Gate, MemFiles, MemSink};
use omi_top::run_top;
use std::alloc::{AllocError, Global};
use std::thread::Threads;

/// Runs a line over a script, with one call of the files that is to fail, or none.
pub fn call<R: Threads + Sync>(
    rt: &R,
    alloc: Global,
    line: &str,
    script: &str,
    failing: Option<Call>,
    puts: Vec<u64>,
) -> Result<Done, AllocError> {
    call_past(rt, alloc, line, script, failing, puts, &FreeGate)
}

/// The same, with the gate that is passed before each step.
pub fn call_past<R: Threads + Sync, G: Gate>(
    rt: &R,
    alloc: Global,
    line: &str,
    script: &str,
    failing: Option<Call>,
    puts: Vec<u64>,
    gate: &G,
) -> Result<Done, AllocError> {
    let mut calls = Vec::new(alloc);
    if let Some(kind) = failing {
        calls.push((kind, 1))?;
    }
    let mut files = MemFiles::new(alloc, calls);
    files.put("s", script.as_bytes())?;
    files.put("c", b"before")?;
    files.put("other", b"stays")?;
    let mut out = MemSink::new(alloc, puts);
    let words = split(alloc, line)?;
    let status = live_top(rt, alloc, &words, &mut files, &mut out, gate);
    Ok(Done { status, files, out })
}

/// What `ompdi` prints for a line over these files.
pub fn inspect(alloc: Global, line: &str, files: &mut MemFiles) -> Result<Done, AllocError> {
    let mut dest = MemFiles::new(alloc, Vec::new(alloc));
    let mut out = MemSink::new(alloc, Vec::new(alloc));
    let words = split(alloc, line)?;
    let status = run_top(alloc, &words, files, &mut dest, &mut out);
    Ok(Done {
        status,
        files: dest,
        out,
    })
}
