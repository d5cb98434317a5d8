//! Words that are missing, and calls that fail.

ghost use Rattle.std.specs.Prelude.{◌≡◌, ◌≤◌};
ghost use Rattle.std.specs.Int.{from_le_bytes, w64};
ghost use Rattle.omi_calls.specs.Kept.{GivesNumbers, TakesAll};

use crate::listed::{Ids, Missing, listing};
use omi_calls::ToHost;
use omi_fixture_rows::A_TEAM_OF_TWO;
use omi_fixture_targets::{Asked, LITTLE, Words, Wrong, at_fork, core_at, library, open};
use omi_layout::{Field, Layout};
use omi_walk::WalkFault;
use std::alloc::Global;
use std::test::Fail;

/// The byte address of the record of the second of two threads.
fn second_thread() -> u64 {
    Layout::family(0, 2).thread_at(1)
}

/// Why nothing is listed where a word of the second thread's record isn't mapped.
fn without<F: ToHost>(
    alloc: Global,
    field: Field,
    ids: Ids<'_>,
    to_host: F,
) -> Result<WalkFault, Missing>
    requires takes { TakesAll (F.takes to_host) }
    requires gives { GivesNumbers (F.gives to_host) 0 }
{
    let asked = Asked::never();
    let words = Words::of_two(alloc, A_TEAM_OF_TWO, 0, at_fork())?;
    let change = (words.at(second_thread(), field, 0), None);
    let core = words.core(alloc, [change, change])?;
    let mut s = open(alloc, core, LITTLE, to_host, &asked)?;
    match listing(alloc, &mut s, ids) {
        Err(Missing::NoWalk(fault)) => Ok(fault),
        Err(other) => Err(other),
        Ok(_) => Err(Missing::Unrefused),
    }
}

/// The fault of a word of the second thread's record.
fn damaged(field: Field) -> Result<WalkFault, Missing> {
    Ok(WalkFault::Damaged {
        addr: second_thread(),
        field: field.number(),
    })
}

/// Where all threads are listed, the records of all are read. Where there is a note of ours, the native id in a record that is behind the last
/// context's isn't.
#[test]
fn a_word_that_is_missing(rt: HostRuntime) -> Result<(), Fail> {
    let alloc = rt.alloc();
    let to_host = |bytes: [u8; 8]| -> u64
        ensures { result ≡ from_le_bytes w64 bytes }
    { u64::from_le_bytes(bytes) };
    let threads = Ids::Threads([1000].as_slice());
    let contexts = Ids::Contexts([1000].as_slice());
    let life = without(alloc, Field::ThreadLife, threads, to_host);
    let native = without(alloc, Field::ThreadNative, threads, to_host);
    let ours = without(alloc, Field::ThreadNative, contexts, to_host);
    assert_eq!(rt; life, damaged(Field::ThreadLife));
    assert_eq!(rt; native, damaged(Field::ThreadNative));
    assert_eq!(rt; ours, Err(Missing::Unrefused));
    Ok(())
}

/// More calls of a debugger than opening a session and this listing make.
const MANY: u64 = 1_000;

/// Whether nothing is listed where the call of this number fails.
fn fails_once<F: ToHost>(alloc: Global, number: u64, to_host: F) -> Result<bool, Missing>
    requires takes { TakesAll (F.takes to_host) }
    requires gives { GivesNumbers (F.gives to_host) 0 }
{
    let asked = Asked::never();
    let core = core_at(alloc, A_TEAM_OF_TWO, 0, at_fork())?;
    let library = library(alloc, core, LITTLE, to_host, &[number], &asked)?;
    let mut s = match library.process_initialize(alloc) {
        Ok(session) => session,
        Err((rc, _)) => return Err(Missing::NoSession(Wrong::Refused(rc))),
    };
    match listing(alloc, &mut s, Ids::Threads([1001, 1000].as_slice())) {
        Ok(_) => Ok(false),
        Err(Missing::NoWalk(WalkFault::Callback)) => Ok(true),
        Err(other) => Err(other),
    }
}

/// The number of the first call from this one on that isn't made.
fn first_unmade<F: ToHost + Copy>(alloc: Global, first: u64, to_host: F) -> Result<u64, Missing>
    requires takes { TakesAll (F.takes to_host) }
    requires gives { GivesNumbers (F.gives to_host) 0 }
{
    for number in first..MANY {
        if !fails_once(alloc, number, to_host)? {
            return Ok(number);
        }
    }
    Err(Missing::Unrefused)
}

/// Opening a session makes a look-up and 56 reads, and each call behind them is one of the listing, which reads two words of each of two records,
/// and then what a walk reads.
#[test]
fn each_call_that_fails(rt: HostRuntime) -> Result<(), Fail> {
    let calls = first_unmade(
        rt.alloc(),
        58,
        |bytes: [u8; 8]| -> u64
            ensures { result ≡ from_le_bytes w64 bytes }
        { u64::from_le_bytes(bytes) },
    );
    assert!(rt; calls.is_ok_and(|calls| calls > 150), "{calls:?}");
    Ok(())
}
