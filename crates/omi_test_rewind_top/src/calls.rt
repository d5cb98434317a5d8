//! Calls of the top call over a script in memory, and what they leave.

use omi_core::{Break, Core, End, Schedule, Stop};
use omi_fixture_done::{Done, words};
use omi_fixture_rows::A_TEAM_OF_TWO;
use omi_layout::Layout;
use omi_outside::{Call, MemFiles, MemSink, Status};
use omi_rep::suits;
use omi_rewind_top::rewind_top;
use omi_script::parse;
use std::alloc::{AllocError, Global};
use std::process::Abort;
use std::test::Fail;

/// What words leave over a script under `s`, if any, where these calls of reading and these puts fail.
pub fn call(
    alloc: Global,
    line: &[&str],
    script: Option<&str>,
    reads: &[(Call, u64)],
    puts: &[u64],
) -> Result<Done, AllocError> {
    let mut files = MemFiles::new(alloc, reads.to_vec(alloc)?);
    if let Some(script) = script {
        files.put("s", script.as_bytes())?;
    }
    let mut out = MemSink::new(alloc, puts.to_vec(alloc)?);
    let words = words(alloc, line)?;
    let status = rewind_top(alloc, &words, &mut files, &mut out);
    Ok(Done { status, files, out })
}

/// Words over a script end with this status and put this text, and leave the script.
pub fn expect(
    rt: &impl Abort,
    alloc: Global,
    line: &[&str],
    script: &str,
    status: Status,
    put: &str,
) -> Result<(), AllocError> {
    let done = call(alloc, line, Some(script), &[], &[])?;
    assert_eq!(rt; done.status, status);
    assert_eq!(rt; done.out.bytes(), put.as_bytes());
    assert!(rt; done.holds("s", script.as_bytes()));
    Ok(())
}

/// The step of the fork of the team of two, where its threads step in turn.
pub fn fork_of(alloc: Global) -> Result<u64, Fail> {
    let program = parse(alloc, A_TEAM_OF_TWO.as_bytes()).map_err(|_| "no program")?;
    let layout = Layout::family(0, 2);
    if !suits(&program, &layout) {
        return Err("no program")?;
    }
    let mut core = Core::opening(alloc, program, layout)?;
    let stop = Stop {
        steps: 100_000,
        on: Some((Break::ParallelBegin, 1)),
    };
    match core.run(&Schedule::RoundRobin, stop)? {
        End::Break => Ok(core.steps()),
        _ => Err("no fork")?,
    }
}
