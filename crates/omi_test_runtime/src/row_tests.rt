//! Worked runs, in the layout of family 0: their events, and the words of a fork, one step before it and at it.

use crate::lines::tells;
use crate::look::{Place, RUNTIME};
use crate::moves::follow;
use crate::orders::in_turn;
use crate::places::{FIRST, OTHER, SECOND, THIRD};
use crate::reports::{has_lines, report};
use crate::scripts::{A_CONTESTED_WORKER, LIMIT_OF_ACTIVE_LEVELS, TOO_FEW_THREADS};
use crate::trial::{Looks, Trial, Wrong};
use omi_fixture_rows::A_TEAM_OF_TWO;
use omi_layout::Field;
use std::alloc::Global;
use std::test::Fail;

/// More steps than come before a fork.
const MANY: u64 = 10_000;

/// Byte addresses of words by their place in the image. For two threads the arenas begin at the words 99, 112, 124 and 540, and their
/// records have 13, 6, 13 and 32 words.
const WORD_112: u64 = 0x10000 + 8 * 112;

const WORD_118: u64 = 0x10000 + 8 * 118;

const WORD_124: u64 = 0x10000 + 8 * 124;

const WORD_137: u64 = 0x10000 + 8 * 137;

const WORD_540: u64 = 0x10000 + 8 * 540;

const WORD_572: u64 = 0x10000 + 8 * 572;

const WORD_604: u64 = 0x10000 + 8 * 604;

/// Two workers wait; thread 0 gets one of them, and forks again behind its fork.
const TO_TWO_FORKS: &str = "\
1 waits at thread.assign 1 0 0 0
2 waits at thread.assign 2 0 0 0
0 until ask 2 got
1 until fork
0 until fork";

/// A worker waits; thread 0 forks twice.
const TO_A_TEAM_OF_ONE: &str = "\
1 waits at thread.assign 1 0 0 0
0 until fork
0 until fork";

/// What both cores have of thread 1, the initial region and the initial task.
const THE_REST: [(Place, Field, u64); 32] = [
    (RUNTIME, Field::RuntimeVersion, 201811),
    (RUNTIME, Field::RuntimeThreads, 2),
    (RUNTIME, Field::RuntimeProcs, 4),
    (RUNTIME, Field::RuntimeDebug, 1),
    (RUNTIME, Field::RuntimeMaxActive, 8),
    (FIRST, Field::ThreadState, 0x101),
    (OTHER, Field::ThreadLife, 1),
    (OTHER, Field::ThreadNative, 1001),
    (OTHER, Field::ThreadState, 0x100),
    (OTHER, Field::ThreadCurrent, 0),
    (FIRST, Field::RegionLife, 1),
    (FIRST, Field::RegionFunction, 0x40_0010),
    (FIRST, Field::RegionLevels, 0),
    (FIRST, Field::RegionActive, 0),
    (FIRST, Field::RegionSize, 1),
    (FIRST, Field::RegionEnclosing, 0),
    (FIRST, Field::RegionTeam, WORD_540),
    (FIRST, Field::TaskLife, 1),
    (FIRST, Field::TaskImplicit, 1),
    (FIRST, Field::TaskRegion, WORD_124),
    (FIRST, Field::TaskFunction, 0x40_0010),
    (FIRST, Field::TaskGenerating, 0),
    (FIRST, Field::TaskScheduling, 0),
    (FIRST, Field::TaskExit, 0x7f00_000f_ffc0),
    (FIRST, Field::TaskEnter, 0x7f00_000f_ffa0),
    (FIRST, Field::TaskTool, 0),
    (FIRST, Field::TaskDynamic, 0),
    (FIRST, Field::TaskNthreadsLength, 1),
    (FIRST, Field::TaskNthreads, 2),
    (FIRST, Field::TaskSchedule, 1),
    (FIRST, Field::TaskDevice, 0),
    (FIRST, Field::TaskFinal, 0),
];

/// The region and the tasks of the team.
const THE_TEAM: [(Place, Field, u64); 35] = [
    (SECOND, Field::RegionLife, 1),
    (SECOND, Field::RegionFunction, 0x40_0000),
    (SECOND, Field::RegionLevels, 1),
    (SECOND, Field::RegionActive, 1),
    (SECOND, Field::RegionSize, 2),
    (SECOND, Field::RegionEnclosing, WORD_124),
    (SECOND, Field::RegionEncountering, WORD_540),
    (SECOND, Field::RegionTeam, WORD_572),
    (SECOND, Field::TaskLife, 1),
    (SECOND, Field::TaskImplicit, 1),
    (SECOND, Field::TaskRegion, WORD_137),
    (SECOND, Field::TaskThread, WORD_112),
    (SECOND, Field::TaskNumber, 0),
    (SECOND, Field::TaskFunction, 0x40_0000),
    (SECOND, Field::TaskGenerating, WORD_540),
    (SECOND, Field::TaskScheduling, WORD_540),
    (SECOND, Field::TaskExit, 0x7f00_000f_ff80),
    (SECOND, Field::TaskEnter, 0),
    (SECOND, Field::TaskTool, 0),
    (SECOND, Field::TaskDynamic, 0),
    (SECOND, Field::TaskNthreadsLength, 1),
    (SECOND, Field::TaskNthreads, 2),
    (SECOND, Field::TaskSchedule, 1),
    (SECOND, Field::TaskDevice, 0),
    (SECOND, Field::TaskFinal, 0),
    (THIRD, Field::TaskLife, 1),
    (THIRD, Field::TaskImplicit, 1),
    (THIRD, Field::TaskRegion, WORD_137),
    (THIRD, Field::TaskThread, WORD_118),
    (THIRD, Field::TaskNumber, 1),
    (THIRD, Field::TaskFunction, 0x40_0000),
    (THIRD, Field::TaskGenerating, WORD_540),
    (THIRD, Field::TaskScheduling, 0),
    (THIRD, Field::TaskExit, 0x7f00_001f_ffc0),
    (THIRD, Field::TaskNthreads, 2),
];

/// The places at which the words of two runs differ: the last one, and how many there are.
fn differing(a: &Trial, b: &Trial) -> (usize, usize) {
    let mut last = 0;
    let mut count = 0usize;
    for place in 0..a.core().image().len() {
        let at = 0x10000 + 8 * place as u64;
        if a.core().image().get(at) != b.core().image().get(at) {
            last = place;
            count = count.wrapping_add(1);
        }
    }
    (last, count)
}

/// A run of two threads in turn, for so many steps or up to the fork.
fn run_in_turn(alloc: Global, steps: u64) -> Result<Trial, Wrong> {
    let mut t = Trial::opening(alloc, A_TEAM_OF_TWO, 0, Looks::EachStep)?;
    in_turn(&mut t, steps, "fork")?;
    Ok(t)
}

/// The words and events one step before the fork.
fn is_half_made(alloc: Global, t: &Trial) -> Result<bool, Wrong> {
    t.look().have(&THE_REST)?;
    t.look().is(FIRST, Field::ThreadCurrent, WORD_540)?;
    let events = "enter; state overhead 0; want 2; ask 1 got";
    Ok(tells(alloc, t.core(), 0, events)? && tells(alloc, t.core(), 1, "begin; offer")?)
}

/// The words and events at the fork.
fn is_forked(alloc: Global, t: &Trial) -> Result<bool, Wrong> {
    t.look().have(&THE_REST)?;
    t.look().have(&THE_TEAM)?;
    t.look()
        .is_at(SECOND, Field::RegionTeam, 1, Some(WORD_604))?;
    t.look().is(FIRST, Field::ThreadCurrent, WORD_572)?;
    let events =
        "enter; state overhead 0; want 2; ask 1 got; fork r0.1.0 size 2 team k0.1.0@0 k0.2.0@1";
    Ok(tells(alloc, t.core(), 0, events)? && tells(alloc, t.core(), 1, "begin; offer")?)
}

/// The words of a fork, and those of one step before it, which differ in one word.
fn is_one_store(alloc: Global, forked: &Trial) -> Result<bool, Wrong> {
    let steps = forked.core().steps();
    if steps < 1 || steps >= MANY {
        return Ok(false);
    }
    let half = run_in_turn(alloc, steps - 1)?;
    let made = is_half_made(alloc, &half)?;
    Ok(made && differing(&half, forked) == (114, 1))
}

#[test]
fn a_half_made_update_and_the_commit(rt: HostRuntime) -> Result<(), Fail> {
    let forked = run_in_turn(rt.alloc(), MANY)?;
    assert!(rt; is_forked(rt.alloc(), &forked)?);
    assert!(rt; is_one_store(rt.alloc(), &forked)?);
    Ok(())
}

/// Whether a thread that wants four threads and finds two forks a team of three.
fn is_a_team_of_three(alloc: Global, t: &mut Trial) -> Result<bool, Wrong> {
    in_turn(t, MANY, "fork")?;
    let events = "enter; state overhead 0; want 4; ask 1 got; ask 2 got; \
        fork r0.1.0 size 3 team k0.1.0@0 k0.2.0@1 k0.3.0@2";
    Ok(tells(alloc, t.core(), 0, events)?)
}

#[test]
fn too_few_threads(rt: HostRuntime) -> Result<(), Fail> {
    let mut t = Trial::opening(rt.alloc(), TOO_FEW_THREADS, 0, Looks::EachStep)?;
    assert!(rt; is_a_team_of_three(rt.alloc(), &mut t)?);
    Ok(())
}

/// Whether two threads that ask the same worker have it one after the other: the second is busy.
fn is_contested(alloc: Global, t: &mut Trial) -> Result<bool, Wrong> {
    follow(t, TO_TWO_FORKS)?;
    let first =
        "enter; state overhead 0; want 2; ask 1 got; fork r0.1.0 size 2 team k0.1.0@0 k0.2.0@1; \
        state work_parallel 0; enter; state overhead 0; want 2; ask 1 busy; ask 2 got; \
        fork r0.2.0 size 2 team k0.3.0@0 k0.4.0@2";
    let second =
        "begin; offer; implicit_begin k0.2.0; state work_parallel 0; enter; state overhead 0; want 2; \
        ask 0 busy; ask 2 busy; fork r1.0.0 size 1 team k1.0.0@1";
    let core = t.core();
    Ok(
        tells(alloc, core, 0, first)?
            && tells(alloc, core, 1, second)?
            && tells(alloc, core, 2, "begin; offer")?,
    )
}

#[test]
fn a_contested_worker(rt: HostRuntime) -> Result<(), Fail> {
    let mut t = Trial::opening(rt.alloc(), A_CONTESTED_WORKER, 0, Looks::EachStep)?;
    assert!(rt; is_contested(rt.alloc(), &mut t)?);
    Ok(())
}

/// Whether a team within a team of one level has one member.
fn is_limited(alloc: Global, t: &mut Trial) -> Result<bool, Wrong> {
    follow(t, TO_A_TEAM_OF_ONE)?;
    t.look().are(
        THIRD,
        &[
            (Field::RegionFunction, Some(0x40_0000)),
            (Field::RegionLevels, Some(2)),
            (Field::RegionActive, Some(1)),
            (Field::RegionSize, Some(1)),
            (Field::RegionEnclosing, Some(WORD_137)),
        ],
    )?;
    let events =
        "enter; state overhead 0; want 2; ask 1 got; fork r0.1.0 size 2 team k0.1.0@0 k0.2.0@1; \
        state work_parallel 0; enter; state overhead 0; want 1; fork r0.2.0 size 1 team k0.3.0@0";
    Ok(tells(alloc, t.core(), 0, events)?)
}

/// The row of its region: two levels, of which one is active.
const THE_LIMITED_REGION: &str =
    "region r0.2.0 function 0x400000 levels-var=2 active-levels-var=1 team-size-var=1 enclosing r0.1.0";

#[test]
fn the_limit_of_active_levels(rt: HostRuntime) -> Result<(), Fail> {
    let mut t = Trial::opening(rt.alloc(), LIMIT_OF_ACTIVE_LEVELS, 0, Looks::EachStep)?;
    assert!(rt; is_limited(rt.alloc(), &mut t)?);
    let report = report(rt.alloc(), &t)?;
    assert!(rt;
        has_lines(&report, "region r0.2", THE_LIMITED_REGION),
        "{report}"
    );
    Ok(())
}
