//! Handles: their making, order and release, and what becomes of them over the words of another stop.

ghost use Rattle.std.specs.Prelude.{◌≡◌};
ghost use Rattle.std.specs.Int.{from_le_bytes, w64};
ghost use Rattle.omi_calls.specs.Kept.{GivesNumbers, TakesAll};

use omi_ask::{
    get_curr_parallel_handle, get_enclosing_parallel_handle, get_thread_handle, get_thread_id,
    parallel_handle_compare, rel_parallel_handle, rel_thread_handle, thread_handle_compare,
};
use omi_asktask::{
    get_curr_task_handle, get_generating_task_handle, get_task_function, rel_task_handle,
    task_handle_compare,
};
use omi_calls::{Table, ToHost};
use omi_fixture_rows::A_TEAM_OF_TWO;
use omi_fixture_targets::{
    Asked, LITTLE, Opened, Stopped, Target, Wrong, after, at_fork, core_at, library, open,
};
use omi_handle::{Held, Kind, RegionHandle, TaskHandle, ThreadHandle};
use omi_layout::Field;
use omi_session::{Rc, lead};
use std::alloc::Global;
use std::cmp::Ordering;
use std::test::Fail;

/// Handles of thread 0 and of its current task.
fn both<F: ToHost>(s: &mut Stopped<'_, F>) -> Result<(ThreadHandle, TaskHandle), Rc> {
    s.may_make()?;
    let thread = get_thread_handle(s, 0, 1000)?;
    s.may_make()?;
    let task = get_curr_task_handle(s, thread)?;
    Ok((thread, task))
}

/// Whether handles of a task are in order, by address: of the same task, and of the task that made it.
fn orders_tasks<F: ToHost>(
    s: &mut Stopped<'_, F>,
    task: TaskHandle,
    again: TaskHandle,
) -> Result<bool, Rc> {
    s.may_make()?;
    let made_by = get_generating_task_handle(s, task)?;
    let same = task_handle_compare(s, again, task)?;
    let less = task_handle_compare(s, made_by, task)?;
    let greater = task_handle_compare(s, task, made_by)?;
    Ok(
        again != task
            && (same, less, greater) == (Ordering::Equal, Ordering::Less, Ordering::Greater),
    )
}

/// Whether a task's handle that was let go is refused, and another one of it is not.
fn lets_a_task_go<F: ToHost>(
    s: &mut Stopped<'_, F>,
    task: TaskHandle,
    again: TaskHandle,
) -> Result<bool, Rc> {
    rel_task_handle(s, task)?;
    let twice = rel_task_handle(s, task);
    let asked = get_task_function(s, task);
    let compared = task_handle_compare(s, again, task);
    let other = get_task_function(s, again)?;
    let are_refused = twice == Err(Rc::BadInput) && asked == Err(Rc::BadInput);
    Ok(are_refused && compared == Err(Rc::BadInput) && other == 0x40_0000)
}

/// Both, of the current task of a thread.
fn is_order_kept<F: ToHost>(s: &mut Stopped<'_, F>) -> Result<bool, Rc> {
    let (thread, task) = both(s)?;
    s.may_make()?;
    let again = get_curr_task_handle(s, thread)?;
    let orders = orders_tasks(s, task, again)?;
    let lets_go = lets_a_task_go(s, task, again)?;
    Ok(orders && lets_go)
}

fn a_task_handle_by<F: ToHost>(alloc: Global, to_host: F) -> Result<bool, Wrong>
    requires takes { TakesAll (F.takes to_host) }
    requires gives { GivesNumbers (F.gives to_host) 0 }
{
    let asked = Asked::never();
    let core = core_at(alloc, A_TEAM_OF_TWO, 0, at_fork())?;
    let session = open(alloc, core, LITTLE, to_host, &asked)?;
    let mut s = Opened { session };
    s.session.reserve(3)?;
    let is = is_order_kept(&mut s.session)?;
    Ok(is)
}

#[test]
fn a_task_handle(rt: HostRuntime) -> Result<(), Fail> {
    let is = a_task_handle_by(
        rt.alloc(),
        |bytes: [u8; 8]| -> u64
            ensures { result ≡ from_le_bytes w64 bytes }
        { u64::from_le_bytes(bytes) },
    )?;
    assert!(rt; is);
    Ok(())
}

/// Whether handles of two threads, and of a region and the one around it, are in order.
fn orders_both<F: ToHost>(
    s: &mut Stopped<'_, F>,
    thread: ThreadHandle,
    other: ThreadHandle,
    region: RegionHandle,
) -> Result<bool, Rc> {
    let less = thread_handle_compare(s, thread, other)?;
    let same = thread_handle_compare(s, other, other)?;
    s.may_make()?;
    let outer = get_enclosing_parallel_handle(s, region)?;
    let greater = parallel_handle_compare(s, region, outer)?;
    Ok((less, same, greater) == (Ordering::Less, Ordering::Equal, Ordering::Greater))
}

/// Whether handles of a thread and of a region that were let go are refused, and that of another thread is not.
fn lets_both_go<F: ToHost>(
    s: &mut Stopped<'_, F>,
    thread: ThreadHandle,
    other: ThreadHandle,
    region: RegionHandle,
) -> Result<bool, Rc> {
    rel_parallel_handle(s, region)?;
    let region_twice = rel_parallel_handle(s, region);
    rel_thread_handle(s, thread)?;
    let thread_twice = rel_thread_handle(s, thread);
    let asked = get_thread_id(s, 1, thread);
    let native = get_thread_id(s, 0, other)?;
    let are_refused = region_twice == Err(Rc::BadInput) && thread_twice == Err(Rc::BadInput);
    Ok(are_refused && asked == Err(Rc::BadInput) && native == 1001)
}

/// Both, of the threads of a team of two and of its region.
fn are_kept_in_order<F: ToHost>(s: &mut Stopped<'_, F>) -> Result<bool, Rc> {
    let (thread, _) = both(s)?;
    s.may_make()?;
    let other = get_thread_handle(s, 0, 1001)?;
    s.may_make()?;
    let region = get_curr_parallel_handle(s, thread)?;
    let order = orders_both(s, thread, other, region)?;
    let lets_go = lets_both_go(s, thread, other, region)?;
    Ok(order && lets_go)
}

fn thread_and_region_handles_by<F: ToHost>(alloc: Global, to_host: F) -> Result<bool, Wrong>
    requires takes { TakesAll (F.takes to_host) }
    requires gives { GivesNumbers (F.gives to_host) 0 }
{
    let asked = Asked::never();
    let core = core_at(alloc, A_TEAM_OF_TWO, 7, at_fork())?;
    let session = open(alloc, core, LITTLE, to_host, &asked)?;
    let mut s = Opened { session };
    let are = are_kept_in_order(&mut s.session)?;
    Ok(are)
}

#[test]
fn thread_and_region_handles(rt: HostRuntime) -> Result<(), Fail> {
    let are = thread_and_region_handles_by(
        rt.alloc(),
        |bytes: [u8; 8]| -> u64
            ensures { result ≡ from_le_bytes w64 bytes }
        { u64::from_le_bytes(bytes) },
    )?;
    assert!(rt; are);
    Ok(())
}

/// The address of the record of thread 0 in the layout of family 0 for two threads.
const THREAD: u64 = 0x10380;

/// The handle of the first thread, made in this session.
fn made<F: ToHost>(s: &mut Stopped<'_, F>) -> Result<(u64, u64), Rc> {
    s.may_make()?;
    if s.layout().threads() < 1 {
        return Err(Rc::BadInput);
    }
    let addr = s.layout().thread_at(0);
    let held = lead(s, Kind::Thread, Field::TaskThread, addr)?;
    s.make(held)
}

/// What the handle of thread 0 stands for.
fn held() -> Option<Held> {
    Some(Held {
        kind: Kind::Thread,
        addr: THREAD,
        life: 1,
    })
}

/// Makes a handle and lets it go, and makes another one. Answers both, and whether each was found as long as it was held.
fn one_gone_and_one_kept<F: ToHost>(
    s: &mut Stopped<'_, F>,
) -> Result<((u64, u64), (u64, u64), bool), Rc> {
    let first = made(s)?;
    let is_found = s.find(first.0, first.1) == held();
    let is_live = s.peek(THREAD) == Ok(Some(1));
    let is_released = s.release(first.0, first.1);
    let is_again = s.release(first.0, first.1);
    let is_gone = s.find(first.0, first.1).is_none();
    let second = made(s)?;
    let is_right = is_found && is_released && !is_again && is_gone;
    Ok((first, second, is_right && is_live && second.1 == 1))
}

/// Whether the handles of the stop before are as they were, and the next one is a new one.
fn goes_on<F: ToHost>(
    s: &mut Stopped<'_, F>,
    first: (u64, u64),
    second: (u64, u64),
) -> Result<bool, Rc> {
    let is_kept = s.find(second.0, second.1) == held();
    let is_gone = s.find(first.0, first.1).is_none();
    let count = s.made();
    let third = made(s)?;
    Ok(is_kept && is_gone && count == 2 && third.1 == 2)
}

/// Goes on with a session over callbacks that tell another layout, which are refused, and then over the same callbacks.
fn over_another_layout<'a, F: ToHost>(
    s: Opened<'a, F>,
    other: Table<Target<'a>, F>,
) -> Result<Opened<'a, F>, Wrong> {
    let (parted, table) = s.alone().part();
    match parted.over(other) {
        Err((Rc::Incompatible, parted, _)) => match parted.over(table) {
            Ok(session) => Ok(Opened { session }),
            Err((rc, _, _)) => Err(Wrong::Refused(rc)),
        },
        _ => Err(Wrong::NoCore),
    }
}

fn handles_are_kept_by<F: ToHost + Copy>(alloc: Global, to_host: F) -> Result<bool, Wrong>
    requires takes { TakesAll (F.takes to_host) }
    requires gives { GivesNumbers (F.gives to_host) 0 }
{
    let asked = Asked::never();
    let core = core_at(alloc, A_TEAM_OF_TWO, 0, after(0))?;
    let session = open(alloc, core, LITTLE, to_host, &asked)?;
    let mut s = Opened { session };
    s.session.reserve(2)?;
    let (first, second, is_right) = one_gone_and_one_kept(&mut s.session)?;
    let other = core_at(alloc, A_TEAM_OF_TWO, 7, at_fork())?;
    let other = library(alloc, other, LITTLE, to_host, &[], &asked)?;
    let mut s = over_another_layout(s, other.finalize())?;
    let is_kept = goes_on(&mut s.session, first, second)?;
    Ok(is_right && is_kept)
}

#[test]
fn handles_are_kept_over_other_callbacks(rt: HostRuntime) -> Result<(), Fail> {
    let are = handles_are_kept_by(
        rt.alloc(),
        |bytes: [u8; 8]| -> u64
            ensures { result ≡ from_le_bytes w64 bytes }
        { u64::from_le_bytes(bytes) },
    )?;
    assert!(rt; are);
    Ok(())
}
