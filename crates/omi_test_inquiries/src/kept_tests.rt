//! Handles of the tasks of a fork that a walk over its words keeps.

ghost use Rattle.std.specs.Prelude.{◌≡◌, ◌≤◌, length, IfOk};
ghost use Rattle.std.specs.Int.{from_le_bytes, w64};
ghost use Rattle.omi_calls.specs.Kept.{GivesNumbers, TakesAll};

use omi_ask::get_thread_handle;
use omi_asktask::{
    get_curr_task_handle, get_scheduling_task_handle, get_task_function, rel_task_handle,
    task_handle_compare, task_id,
};
use omi_calls::ToHost;
use omi_fixture_rows::A_TEAM_OF_TWO;
use omi_fixture_targets::{
    Asked, LITTLE, LONG_TASKS, Opened, Stopped, Wrong, at_fork, core_at, library, long_chains, open,
};
use omi_handle::TaskHandle;
use omi_model::{TaskRow, Tid};
use omi_session::Rc;
use omi_walk::{KeptList, WalkFault, kept, walk};
use omi_word::{Natives, OutOfMemory};
use std::alloc::Global;
use std::cmp::Ordering;
use std::test::Fail;

/// How many handles are held. Their keys are below 16, as fewer are held at a time and a key is used again.
fn held<F: ToHost>(s: &Stopped<'_, F>) -> u64 {
    let mut count: u64 = 0;
    for serial in 0..s.made() {
        for key in 0..16 {
            count = count.wrapping_add(u64::from(s.find(key, serial).is_some()));
        }
    }
    count
}

/// The one context of these walks, that of thread 0.
fn contexts(alloc: Global) -> Result<Natives, OutOfMemory>
    ensures few { IfOk result (λ contexts. length contexts ≡ 1) }
{
    let mut contexts = Natives::new(alloc);
    contexts.push(1000)?;
    Ok(contexts)
}

/// The tasks of the report, each with a handle of it.
fn tasks<F: ToHost>(
    alloc: Global,
    s: &mut Stopped<'_, F>,
) -> Result<Result<KeptList, WalkFault>, Wrong> {
    let contexts = contexts(alloc)?;
    s.may_make()?;
    Ok(kept(s, alloc, &contexts))
}

/// Whether two walks kept different handles of the task of a row, which answer as the row does, equal that of an inquiry, and are let go once.
fn are_of<F: ToHost>(
    s: &mut Stopped<'_, F>,
    pairs: [(Tid, TaskHandle); 2],
    row: &TaskRow,
    asked: TaskHandle,
) -> Result<bool, Rc> {
    for (task, handle) in pairs {
        let found = (task_id(s, handle)?, get_task_function(s, handle)?);
        let is_equal = task_handle_compare(s, handle, asked)? == Ordering::Equal;
        rel_task_handle(s, handle)?;
        let is_gone = rel_task_handle(s, handle) == Err(Rc::BadInput);
        if task != row.task || found != (row.task, row.func) || !is_equal || !is_gone {
            return Ok(false);
        }
    }
    let (first, second) = (pairs[0].1, pairs[1].1);
    Ok(first != second && first != asked && second != asked)
}

/// Whether two walks keep the two tasks of the report, and no other handle. Those of inquiries before them are held to the end.
fn are_kept<F: ToHost>(alloc: Global, s: &mut Stopped<'_, F>) -> Result<bool, Wrong> {
    s.may_make()?;
    let thread = get_thread_handle(s, 0, 1000)?;
    s.may_make()?;
    let inner = get_curr_task_handle(s, thread)?;
    s.may_make()?;
    let outer = get_scheduling_task_handle(s, inner)?;
    let contexts = contexts(alloc)?;
    s.may_make()?;
    let view = walk(s, alloc, &contexts);
    let made = s.made();
    let (Ok(view), Ok(first), Ok(second)) = (view, tasks(alloc, s)?, tasks(alloc, s)?) else {
        return Ok(false);
    };
    let ([leaf, root], [a, b], [c, d]) = (
        view.tasks.as_slice(),
        first.as_slice(),
        second.as_slice(),
    ) else {
        return Ok(false);
    };
    let are_held = held(s) == 7 && made < s.made();
    let are_right = are_of(s, [*a, *c], leaf, inner)? && are_of(s, [*b, *d], root, outer)?;
    let is_kept = held(s) == 3 && get_task_function(s, outer)? == 0x40_0010;
    Ok(are_held && are_right && is_kept && get_task_function(s, inner)? == 0x40_0000)
}

/// Whether the first walk fails, and holds no handle. Then the next one keeps both tasks.
fn is_refused<F: ToHost>(alloc: Global, s: &mut Stopped<'_, F>) -> Result<bool, Wrong> {
    let is_callback = match tasks(alloc, s)? {
        Ok(_) => return Ok(false),
        Err(fault) => fault == WalkFault::Callback,
    };
    let are_none = held(s) == 0;
    let count = match tasks(alloc, s)? {
        Ok(next) => next.len(),
        Err(_) => 0,
    };
    if is_callback && are_none && count == 2 {
        Ok(true)
    } else {
        Err(Wrong::NoCore)
    }
}

/// A session at the fork of a team of two, where the debugger's calls of these numbers fail.
fn opened<'a, F: ToHost>(
    alloc: Global,
    failing: &[u64],
    to_host: F,
    asked: &'a Asked,
) -> Result<Opened<'a, F>, Wrong>
    requires takes { TakesAll (F.takes to_host) }
    requires gives { GivesNumbers (F.gives to_host) 0 }
{
    let core = core_at(alloc, A_TEAM_OF_TWO, 0, at_fork())?;
    match library(alloc, core, LITTLE, to_host, failing, asked)?.process_initialize(alloc) {
        Ok(session) => Ok(Opened { session }),
        Err((rc, _)) => Err(Wrong::Refused(rc)),
    }
}

/// Whether walks over a fork keep their tasks.
fn are_kept_at_a_fork<F: ToHost>(alloc: Global, to_host: F) -> Result<bool, Wrong>
    requires takes { TakesAll (F.takes to_host) }
    requires gives { GivesNumbers (F.gives to_host) 0 }
{
    let asked = Asked::never();
    let mut s = opened(alloc, &[], to_host, &asked)?;
    are_kept(alloc, &mut s.session)
}

/// Whether a walk over a fork is refused where the call of this number fails.
fn is_refused_at_a_fork<F: ToHost>(alloc: Global, number: u64, to_host: F) -> Result<bool, Wrong>
    requires takes { TakesAll (F.takes to_host) }
    requires gives { GivesNumbers (F.gives to_host) 0 }
{
    let asked = Asked::never();
    let mut s = opened(alloc, &[number], to_host, &asked)?;
    is_refused(alloc, &mut s.session)
}

/// The number of the last call of a debugger that a first walk makes. Where one fails, from `first` on, the walk is refused.
fn last_call<F: ToHost + Copy>(alloc: Global, first: u64, to_host: F) -> Result<u64, Wrong>
    requires takes { TakesAll (F.takes to_host) }
    requires gives { GivesNumbers (F.gives to_host) 0 }
    requires some { 1 ≤ first }
{
    for number in first..1_000 {
        if !is_refused_at_a_fork(alloc, number, to_host)? {
            return Ok(number - 1);
        }
    }
    Err(Wrong::NoCore)
}

#[test]
fn handles_of_the_tasks_of_a_fork(rt: HostRuntime) -> Result<(), Fail> {
    let kept = are_kept_at_a_fork(
        rt.alloc(),
        |bytes: [u8; 8]| -> u64
            ensures { result ≡ from_le_bytes w64 bytes }
        { u64::from_le_bytes(bytes) },
    );
    assert!(rt; kept.is_ok_and(|kept| kept), "{kept:?}");
    Ok(())
}

/// Opening a session makes a look-up and 56 reads, and each call behind them is one of the walk.
#[test]
fn no_handle_behind_a_call_that_fails(rt: HostRuntime) -> Result<(), Fail> {
    let calls = last_call(
        rt.alloc(),
        58,
        |bytes: [u8; 8]| -> u64
            ensures { result ≡ from_le_bytes w64 bytes }
        { u64::from_le_bytes(bytes) },
    );
    assert!(rt; calls.is_ok_and(|calls| calls > 150), "{calls:?}");
    Ok(())
}

/// How many tasks a walk keeps over a memory of 64 threads whose tasks are one chain.
fn kept_of_a_long_chain<F: ToHost>(alloc: Global, to_host: F) -> Result<usize, Wrong>
    requires takes { TakesAll (F.takes to_host) }
    requires gives { GivesNumbers (F.gives to_host) 0 }
{
    let asked = Asked::never();
    let session = open(alloc, long_chains(alloc)?, LITTLE, to_host, &asked)?;
    let mut s = Opened { session };
    match tasks(alloc, &mut s.session)? {
        Ok(kept) => Ok(kept.len()),
        Err(_) => Err(Wrong::NoCore),
    }
}

#[test]
fn a_handle_of_each_task_of_a_long_chain(rt: HostRuntime) -> Result<(), Fail> {
    let count = kept_of_a_long_chain(
        rt.alloc(),
        |bytes: [u8; 8]| -> u64
            ensures { result ≡ from_le_bytes w64 bytes }
        { u64::from_le_bytes(bytes) },
    )?;
    assert_eq!(rt; count as u64, LONG_TASKS);
    Ok(())
}
