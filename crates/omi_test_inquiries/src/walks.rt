//! Reports of a fork, by walks over its words.

ghost use Rattle.std.specs.Prelude.{◌≡◌, ◌≤◌, if◌then◌else◌};
ghost use Rattle.std.specs.Int.{from_le_bytes, from_be_bytes, w64};
ghost use Rattle.omi_calls.specs.Kept.{GivesNumbers, TakesAll};

use omi_calls::ToHost;
use omi_corefile::CoreImage;
use omi_fixture_rows::A_TEAM_OF_TWO;
use omi_fixture_targets::{
    Asked, BIG, ByteOrder, LITTLE, Stopped, Words, Wrong, at_fork, core_at, library, open,
};
use omi_layout::Field;
use omi_text::report_text;
use omi_walk::{WalkFault, walk};
use omi_word::{Natives, OutOfMemory};
use std::alloc::Global;
use std::test::Fail;

/// The report of a team of two at its fork, for the contexts 1000, 1001 and 1002.
const THE_REPORT: &str = "ompd 201811 threads 2 debug enabled
icv num-procs-var=4 max-active-levels-var=8
thread 0 native 1000 state overhead wait 0 thread-num-var=0 current k0.1.0
thread 1 native 1001 state idle wait 0 thread-num-var=none current none
native 1002 none
region r0.0.0 function 0x400010 levels-var=0 active-levels-var=0 team-size-var=1 enclosing none
member 0 thread 0 task k0.0.0
region r0.1.0 function 0x400000 levels-var=1 active-levels-var=1 team-size-var=2 enclosing r0.0.0
member 0 thread 0 task k0.1.0
member 1 thread 1 task k0.2.0
task k0.1.0 thread 0 kind implicit region r0.1.0 function 0x400000 generating k0.0.0 scheduling k0.0.0 exit 0x7f00000fff80 enter 0x0 tool 0
icv dyn-var=0 nthreads-var=2 run-sched-var=static,0 default-device-var=0 final-task-var=0 implicit-task-var=1
task k0.0.0 thread 0 kind implicit region r0.0.0 function 0x400010 generating none scheduling none exit 0x7f00000fffc0 enter 0x7f00000fffa0 tool 0
icv dyn-var=0 nthreads-var=2 run-sched-var=static,0 default-device-var=0 final-task-var=0 implicit-task-var=1
";

/// More calls of a debugger than opening a session and this report make.
const MANY: u64 = 1_000;

/// Why there is no report.
#[derive(Clone, Copy, Debug, PartialEq, Eq)]
enum Missing {
    NoSession(Wrong),
    NoWalk(WalkFault),
    NoMemory,
    /// A walk gives another report, or one where it was to be refused.
    OtherReport,
}

impl From<OutOfMemory> for Missing {
    fn from(_e: OutOfMemory) -> Missing {
        Missing::NoMemory
    }
}

impl From<WalkFault> for Missing {
    fn from(fault: WalkFault) -> Missing {
        Missing::NoWalk(fault)
    }
}

impl From<Wrong> for Missing {
    fn from(wrong: Wrong) -> Missing {
        Missing::NoSession(wrong)
    }
}

/// The report that a walk over a session gives for the contexts 1000, 1001 and 1002.
fn report<F: ToHost>(alloc: Global, s: &mut Stopped<'_, F>) -> Result<Vec<u8>, Missing> {
    let mut contexts = Natives::new(alloc);
    contexts.push(1000)?;
    contexts.push(1001)?;
    contexts.push(1002)?;
    if contexts.len() > 64 || s.made() > 100_000 {
        return Err(Missing::NoMemory);
    }
    let view = walk(s, alloc, &contexts)?;
    Ok(report_text(alloc, &view)?)
}

/// Whether a walk over a core gives the report, and a second one too.
fn is_reported<F: ToHost>(
    alloc: Global,
    core: CoreImage,
    order: ByteOrder,
    to_host: F,
) -> Result<bool, Missing>
    requires takes { TakesAll (F.takes to_host) }
    requires gives { GivesNumbers (F.gives to_host) (if order.highest_first then 1 else 0) }
{
    let asked = Asked::never();
    let mut s = open(alloc, core, order, to_host, &asked)?;
    let first = report(alloc, &mut s)?;
    let second = report(alloc, &mut s)?;
    Ok(first.as_slice() == THE_REPORT.as_bytes() && second.as_slice() == first.as_slice())
}

#[test]
fn a_fork_in_both_orders_of_bytes(rt: HostRuntime) -> Result<(), Fail> {
    let alloc = rt.alloc();
    let core = core_at(alloc, A_TEAM_OF_TWO, 7, at_fork())?;
    let little = is_reported(
        alloc,
        core,
        LITTLE,
        |bytes: [u8; 8]| -> u64
            ensures { result ≡ from_le_bytes w64 bytes }
        { u64::from_le_bytes(bytes) },
    );
    assert_eq!(rt; little, Ok(true));
    let core = core_at(alloc, A_TEAM_OF_TWO, 0, at_fork())?;
    let big = is_reported(
        alloc,
        core,
        BIG,
        |bytes: [u8; 8]| -> u64
            ensures { result ≡ from_be_bytes w64 bytes }
        { u64::from_be_bytes(bytes) },
    );
    assert_eq!(rt; big, Ok(true));
    Ok(())
}

/// The number of the last call of a debugger that a first walk makes. Where one fails, from `first` on, the walk answers Callback, and the next walk
/// gives the report.
fn last_call<F: ToHost + Copy>(alloc: Global, first: u64, to_host: F) -> Result<u64, Missing>
    requires takes { TakesAll (F.takes to_host) }
    requires gives { GivesNumbers (F.gives to_host) 0 }
    requires some { 1 ≤ first }
{
    for number in first..MANY {
        if !fails_once(alloc, number, to_host)? {
            return Ok(number - 1);
        }
    }
    Err(Missing::OtherReport)
}

/// Whether the first walk fails where the call of this number fails. Then the next one gives the report.
fn fails_once<F: ToHost>(alloc: Global, number: u64, to_host: F) -> Result<bool, Missing>
    requires takes { TakesAll (F.takes to_host) }
    requires gives { GivesNumbers (F.gives to_host) 0 }
{
    let asked = Asked::never();
    let core = core_at(alloc, A_TEAM_OF_TWO, 0, at_fork())?;
    let library = library(alloc, core, LITTLE, to_host, &[number], &asked)?;
    let mut s = match library.process_initialize(alloc) {
        Ok(session) => session,
        Err((rc, _)) => return Err(Missing::NoSession(Wrong::Refused(rc))),
    };
    match report(alloc, &mut s) {
        Ok(_) => return Ok(false),
        Err(Missing::NoWalk(WalkFault::Callback)) => {}
        Err(other) => return Err(other),
    }
    let text = report(alloc, &mut s)?;
    if text.as_slice() == THE_REPORT.as_bytes() {
        Ok(true)
    } else {
        Err(Missing::OtherReport)
    }
}

/// Opening a session makes a look-up and 56 reads, and each call behind them is one of the walk.
#[test]
fn each_call_that_fails(rt: HostRuntime) -> Result<(), Fail> {
    let calls = last_call(
        rt.alloc(),
        58,
        |bytes: [u8; 8]| -> u64
            ensures { result ≡ from_le_bytes w64 bytes }
        { u64::from_le_bytes(bytes) },
    );
    assert!(rt; calls.is_ok_and(|calls| calls > 150), "{calls:?}");
    Ok(())
}

/// The byte addresses of the records of the second region and the second task. For two threads the records of regions begin at the word 124, those
/// of tasks at the word 540, and they have 13 and 32 words.
const REGION: u64 = 0x10000 + 8 * 137;

const TASK: u64 = 0x10000 + 8 * 572;

/// The refusal of a walk over the words of a fork of which one is changed, at a field of the record at an address.
fn refused<F: ToHost>(
    alloc: Global,
    record: u64,
    field: Field,
    new: Option<u64>,
    to_host: F,
) -> Result<WalkFault, Missing>
    requires takes { TakesAll (F.takes to_host) }
    requires gives { GivesNumbers (F.gives to_host) 0 }
{
    let asked = Asked::never();
    let words = Words::of_two(alloc, A_TEAM_OF_TWO, 0, at_fork())?;
    let change = (words.at(record, field, 0), new);
    let core = words.core(alloc, [change, change])?;
    let mut s = open(alloc, core, LITTLE, to_host, &asked)?;
    match report(alloc, &mut s) {
        Err(Missing::NoWalk(fault)) => Ok(fault),
        Err(other) => Err(other),
        Ok(_) => Err(Missing::OtherReport),
    }
}

#[test]
fn damaged_words(rt: HostRuntime) -> Result<(), Fail> {
    let to_host = |bytes: [u8; 8]| -> u64
        ensures { result ≡ from_le_bytes w64 bytes }
    { u64::from_le_bytes(bytes) };
    let damaged = |addr: u64, field: Field| WalkFault::Damaged {
        addr,
        field: field.number(),
    };
    for (record, field, new, wanted) in [
        (
            REGION,
            Field::RegionEnclosing,
            Some(REGION),
            WalkFault::Cycle { addr: REGION },
        ),
        (
            TASK,
            Field::TaskScheduling,
            Some(TASK),
            WalkFault::Cycle { addr: TASK },
        ),
        (
            TASK,
            Field::TaskGenerating,
            Some(0x900000),
            damaged(0x900000, Field::TaskGenerating),
        ),
        (
            REGION,
            Field::RegionSize,
            Some(3),
            damaged(REGION, Field::RegionSize),
        ),
        (
            REGION,
            Field::RegionFunction,
            None,
            damaged(REGION, Field::RegionFunction),
        ),
    ] {
        assert_eq!(rt;
            refused(rt.alloc(), record, field, new, &to_host),
            Ok(wanted)
        );
    }
    Ok(())
}
