//! Which threads are listed, and the two forms.

ghost use Rattle.std.specs.Prelude.{◌≡◌};
ghost use Rattle.std.specs.Int.{from_le_bytes, w64};
ghost use Rattle.omi_calls.specs.Kept.{GivesNumbers, TakesAll};

use crate::listed::{Ids, Missing, text};
use omi_calls::ToHost;
use omi_fixture_rows::A_TEAM_OF_TWO;
use omi_fixture_targets::{Asked, LITTLE, at_fork, core_at, open};
use omi_ps::Form;
use std::alloc::Global;
use std::test::Fail;

/// Threads 1000 and 1001 of a fork.
const TWO_THREADS: &str = "ID    STATE     WAIT  NUM  TEAM  LEVEL  TASK    FUNCTION
1000  overhead  -     0    2     1      k0.1.0  0x400000
1001  idle      -     -    -     -      -       -
";

/// The same of three contexts, the last of which is none of a thread.
const THREE_CONTEXTS: &str = "ID    STATE     WAIT  NUM  TEAM  LEVEL  TASK    FUNCTION
1000  overhead  -     0    2     1      k0.1.0  0x400000
1001  idle      -     -    -     -      -       -
1002  -         -     -    -     -      -       -
";

/// Thread 1001 alone.
const ONE_THREAD: &str = "ID    STATE  WAIT  NUM  TEAM  LEVEL  TASK  FUNCTION
1001  idle   -     -    -     -      -     -
";

/// No thread.
const NO_THREAD: &str = "ID  STATE  WAIT  NUM  TEAM  LEVEL  TASK  FUNCTION\n";

/// The report of thread 1001.
const REPORT: &str = "ompd 201811 threads 2 debug enabled
icv num-procs-var=4 max-active-levels-var=8
thread 1 native 1001 state idle wait 0 thread-num-var=none current none
";

/// Whether so many lines in front of these are the text that is listed at a fork.
fn is_listed<F: ToHost>(
    alloc: Global,
    to_host: F,
    ids: Ids<'_>,
    form: (Form, bool),
    wanted: (&str, &str),
) -> Result<bool, Missing>
    requires takes { TakesAll (F.takes to_host) }
    requires gives { GivesNumbers (F.gives to_host) 0 }
{
    let asked = Asked::never();
    let core = core_at(alloc, A_TEAM_OF_TWO, 0, at_fork())?;
    let mut s = open(alloc, core, LITTLE, to_host, &asked)?;
    let found = text(alloc, &mut s, ids, form.0, form.1)?;
    let head = wanted.0.as_bytes();
    Ok(found.starts_with(head) && found.get(head.len()..) == Some(wanted.1.as_bytes()))
}

/// The threads that the kernel or a debugger wrote, in any order: those of no record are counted, each once.
#[test]
fn threads(rt: HostRuntime) -> Result<(), Fail> {
    let alloc = rt.alloc();
    let to_host = |bytes: [u8; 8]| -> u64
        ensures { result ≡ from_le_bytes w64 bytes }
    { u64::from_le_bytes(bytes) };
    for (ids, head, wanted) in [
        (
            [1001, 77, 1000, 1002, 77].as_slice(),
            "others 2\n",
            TWO_THREADS,
        ),
        ([1000, 1001].as_slice(), "others 0\n", TWO_THREADS),
        ([9, 1001].as_slice(), "others 1\n", ONE_THREAD),
        ([3, 2, 1].as_slice(), "others 3\n", NO_THREAD),
        ([].as_slice(), "others 0\n", NO_THREAD),
    ] {
        let is = is_listed(
            alloc,
            to_host,
            Ids::Threads(ids),
            (Form::Threads, false),
            (head, wanted),
        );
        assert_eq!(rt; is, Ok(true));
    }
    Ok(())
}

/// The ids of a note of ours are the contexts, whatever records say.
#[test]
fn contexts(rt: HostRuntime) -> Result<(), Fail> {
    let alloc = rt.alloc();
    let to_host = |bytes: [u8; 8]| -> u64
        ensures { result ≡ from_le_bytes w64 bytes }
    { u64::from_le_bytes(bytes) };
    let ids = Ids::Contexts([1000, 1001, 1002].as_slice());
    let is = is_listed(
        alloc,
        to_host,
        ids,
        (Form::Threads, false),
        ("", THREE_CONTEXTS),
    );
    assert_eq!(rt; is, Ok(true));
    Ok(())
}

/// The lines of a report, and in front of them that the file is cut off.
#[test]
fn reports(rt: HostRuntime) -> Result<(), Fail> {
    let alloc = rt.alloc();
    let to_host = |bytes: [u8; 8]| -> u64
        ensures { result ≡ from_le_bytes w64 bytes }
    { u64::from_le_bytes(bytes) };
    let threads = Ids::Threads([1001, 5].as_slice());
    let cut_off = is_listed(
        alloc,
        to_host,
        threads,
        (Form::Report, true),
        ("cut off\nothers 1\n", REPORT),
    );
    let whole = is_listed(
        alloc,
        to_host,
        threads,
        (Form::Report, false),
        ("others 1\n", REPORT),
    );
    let ours = Ids::Contexts([1001].as_slice());
    let of_ours = is_listed(
        alloc,
        to_host,
        ours,
        (Form::Report, true),
        ("cut off\n", REPORT),
    );
    assert_eq!(rt; (cut_off, whole, of_ours), (Ok(true), Ok(true), Ok(true)));
    Ok(())
}
