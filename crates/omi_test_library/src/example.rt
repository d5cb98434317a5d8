//! A worked example for a debugger's author: a session over two stops of one run.

ghost use Rattle.std.specs.Prelude.{◌≡◌};
ghost use Rattle.std.specs.Int.{from_le_bytes, w64};
ghost use Rattle.std.specs.Int.{from_le_bytes, w64};
ghost use Rattle.omi_calls.specs.Kept.{GivesNumbers, TakesAll};

use omi_ask::{
    get_curr_parallel_handle, get_enclosing_parallel_handle, get_task_parallel_handle,
    get_thread_handle, get_thread_in_parallel, parallel_handle_compare, region_id,
    rel_parallel_handle, rel_thread_handle, thread_number,
};
use omi_asktask::{
    get_curr_task_handle, get_generating_task_handle, get_scheduling_task_handle,
    get_task_function, get_task_in_parallel, rel_task_handle, task_id,
};
use omi_calls::{MemCalls, Table, ToHost};
use omi_corefile::CoreImage;
use omi_fixture_targets::{Wrong, two_stops};
use omi_handle::{RegionHandle, TaskHandle, ThreadHandle};
use omi_model::{Id, Rid, Tid};
use omi_session::{Rc, Session, initialize};
use std::alloc::Global;
use std::cmp::Ordering;
use std::test::Fail;

/// Teams within a team.
const NESTED: &str = "threads 4
env num_threads 2,2
func leaf
  work
end
func mid
  parallel leaf
end
func main
  parallel mid
end
";

/// A session with a target whose words are in memory.
type Stopped<F> = Session<MemCalls, F>;

/// Opens a session.
fn open<F: ToHost>(alloc: Global, table: Table<MemCalls, F>) -> Result<Stopped<F>, Rc> {
    let library = match initialize(201811, table) {
        Ok(library) => library,
        Err((rc, _)) => return Err(rc),
    };
    match library.process_initialize(alloc) {
        Ok(session) => Ok(session),
        Err((rc, _)) => Err(rc),
    }
}

/// A member of a region: the region, the number of the member's thread, and its task.
type Member = (Rid, u8, Tid);

/// Adds the members of a region, in order. The member whose number is the team's size is BadInput.
fn add_team<F: ToHost>(
    s: &mut Stopped<F>,
    region: RegionHandle,
    members: &mut Vec<Member>,
) -> Result<(), Wrong> {
    for num in 0..64 {
        s.may_make()?;
        let task = match get_task_in_parallel(s, region, num) {
            Ok(task) => task,
            Err(Rc::BadInput) => break,
            Err(rc) => return Err(rc.into()),
        };
        s.may_make()?;
        let thread = get_thread_in_parallel(s, region, num)?;
        members.push((
            region_id(s, region)?,
            thread_number(s, thread)?,
            task_id(s, task)?,
        ))?;
        rel_thread_handle(s, thread)?;
        rel_task_handle(s, task)?;
    }
    Ok(())
}

/// The members of a region and of those around it, from the inside out. Around the initial region is none.
fn teams<F: ToHost>(
    alloc: Global,
    s: &mut Stopped<F>,
    innermost: RegionHandle,
) -> Result<Vec<Member>, Wrong> {
    let mut members = Vec::new(alloc);
    add_team(s, innermost, &mut members)?;
    s.may_make()?;
    let mut outer = get_enclosing_parallel_handle(s, innermost);
    for _ in 0..64 {
        let region = match outer {
            Ok(region) => region,
            Err(Rc::Unavailable) => break,
            Err(rc) => return Err(rc.into()),
        };
        add_team(s, region, &mut members)?;
        s.may_make()?;
        outer = get_enclosing_parallel_handle(s, region);
        rel_parallel_handle(s, region)?;
    }
    Ok(members)
}

/// The name of a task that was found, and None where there is none.
fn named<F: ToHost>(s: &mut Stopped<F>, found: Result<TaskHandle, Rc>) -> Result<Option<Tid>, Rc> {
    match found {
        Ok(task) => Ok(Some(task_id(s, task)?)),
        Err(Rc::Unavailable) => Ok(None),
        Err(rc) => Err(rc),
    }
}

/// The task that made a task, and the one that was left for it on its thread.
fn ancestors<F: ToHost>(s: &mut Stopped<F>, task: TaskHandle) -> Result<[Option<Tid>; 2], Rc> {
    s.may_make()?;
    let made_by = get_generating_task_handle(s, task);
    s.may_make()?;
    let left = get_scheduling_task_handle(s, task);
    Ok([named(s, made_by)?, named(s, left)?])
}

/// The first region in a slot of thread 0.
fn region_in(slot: u16) -> Rid {
    Rid(Id {
        creator: 0,
        slot,
        generation: 0,
    })
}

/// The first task in a slot of thread 0.
fn task_in(slot: u16) -> Tid {
    Tid(Id {
        creator: 0,
        slot,
        generation: 0,
    })
}

/// The handles that are kept from one stop to the next: of a thread, of its task and of its region.
type Kept = (ThreadHandle, TaskHandle, RegionHandle);

/// Whether the task that forked a region made the tasks of all its members, and was left for that of the master alone.
fn is_forked_by<F: ToHost>(
    s: &mut Stopped<F>,
    task: TaskHandle,
    region: RegionHandle,
) -> Result<bool, Wrong> {
    let fork = Some(task_in(1));
    let master = ancestors(s, task)?;
    s.may_make()?;
    let worker = get_task_in_parallel(s, region, 1)?;
    let other = ancestors(s, worker)?;
    Ok(master == [fork, fork] && other == [fork, None])
}

/// At the first stop both inner teams are forked: the initial thread is in the second region that it made.
fn first_stop<F: ToHost>(alloc: Global, s: &mut Stopped<F>) -> Result<(Kept, bool), Wrong> {
    s.may_make()?;
    let thread = get_thread_handle(s, 0, 1000)?;
    s.may_make()?;
    let task = get_curr_task_handle(s, thread)?;
    s.may_make()?;
    let region = get_task_parallel_handle(s, task)?;
    let found = teams(alloc, s, region)?;
    let wanted = [
        (region_in(2), 0, task_in(3)),
        (region_in(2), 2, task_in(4)),
        (region_in(1), 0, task_in(1)),
        (region_in(1), 1, task_in(2)),
        (region_in(0), 0, task_in(0)),
    ];
    let are_found = found.as_slice() == wanted.as_slice();
    let is_forked = is_forked_by(s, task, region)?;
    let is_named = task_id(s, task) == Ok(task_in(3));
    Ok(((thread, task, region), are_found && is_forked && is_named))
}

/// At the second stop the team is joined, and the record of its first member's task was given back. That of the region, which is
/// given back behind those of all members, answers as before.
fn second_stop<F: ToHost>(s: &mut Stopped<F>, kept: Kept) -> Result<bool, Wrong> {
    let (thread, task, region) = kept;
    let stale = get_task_function(s, task);
    rel_task_handle(s, task)?;
    s.may_make()?;
    let outer = get_curr_parallel_handle(s, thread)?;
    let is_named = region_id(s, outer) == Ok(region_in(1));
    s.may_make()?;
    let around = get_enclosing_parallel_handle(s, region)?;
    let order = parallel_handle_compare(s, around, outer)?;
    Ok(is_named && stale == Err(Rc::StaleHandle) && order == Ordering::Equal)
}

/// The target runs on: the session goes on with its handles over the words of the next stop.
fn over<F: ToHost>(
    alloc: Global,
    s: Stopped<F>,
    core: CoreImage,
    to_host: F,
) -> Result<Stopped<F>, Wrong>
    requires takes { TakesAll (F.takes to_host) }
    requires gives { GivesNumbers (F.gives to_host) 0 }
    requires order { core.order ≡ 0 }
{
    let (parted, _) = s.part();
    let calls = MemCalls::over(core, Vec::new(alloc));
    match parted.over(Table::new(calls, 0, to_host)) {
        Ok(s) => Ok(s),
        Err((rc, _, _)) => Err(rc.into()),
    }
}

/// A session over two stops of a run.
fn two_stops_by<F: ToHost + Copy>(alloc: Global, to_host: F) -> Result<bool, Wrong>
    requires takes { TakesAll (F.takes to_host) }
    requires gives { GivesNumbers (F.gives to_host) 0 }
{
    let (first, second) = two_stops(alloc, NESTED, [848, 100])?;
    let calls = MemCalls::over(first, Vec::new(alloc));
    let mut s = open(alloc, Table::new(calls, 0, to_host))?;
    s.reserve(32)?;
    let (kept, is_first) = first_stop(alloc, &mut s)?;
    let mut s = over(alloc, s, second, to_host)?;
    let is_second = second_stop(&mut s, kept)?;
    let table = s.rel_address_space_handle().finalize();
    Ok(is_first && is_second && open(alloc, table).is_ok())
}

#[test]
fn a_session_over_two_stops(rt: HostRuntime) -> Result<(), Fail> {
    let is = two_stops_by(
        rt.alloc(),
        |bytes: [u8; 8]| -> u64
            ensures { result ≡ from_le_bytes w64 bytes }
        { u64::from_le_bytes(bytes) },
    )?;
    assert!(rt; is);
    Ok(())
}
