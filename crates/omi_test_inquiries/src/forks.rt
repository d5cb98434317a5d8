//! What inquiries answer over the words of runs: before the first step, at a fork, and at the next stop.

ghost use Rattle.std.specs.Prelude.{◌≡◌, if◌then◌else◌};
ghost use Rattle.std.specs.Int.{from_le_bytes, from_be_bytes, w64};
ghost use Rattle.omi_calls.specs.Kept.{GivesNumbers, TakesAll};

use omi_ask::{
    get_curr_parallel_handle, get_enclosing_parallel_handle, get_task_parallel_handle,
    get_thread_handle, get_thread_id, get_thread_in_parallel, region_id, thread_number,
};
use omi_asktask::{
    Frames, get_curr_task_handle, get_generating_task_handle, get_scheduling_task_handle,
    get_task_frame, get_task_function, get_task_in_parallel, task_id,
};
use omi_calls::ToHost;
use omi_fixture_rows::{A_TEAM_OF_TWO, AN_EMPTY_RUN};
use omi_fixture_targets::{
    Asked, BIG, ByteOrder, LITTLE, Opened, Stopped, Wrong, after, at_fork, core_at, open,
};
use omi_handle::{RegionHandle, TaskHandle, ThreadHandle};
use omi_model::{Id, Rid, Tid};
use omi_session::Rc;
use std::alloc::Global;
use std::test::Fail;

/// The name of the first object in a slot of thread 0.
fn first(slot: u16) -> Id {
    Id {
        creator: 0,
        slot,
        generation: 0,
    }
}

/// The number of a thread that was found.
fn number<F: ToHost>(s: &mut Stopped<'_, F>, found: Result<ThreadHandle, Rc>) -> Result<u8, Rc> {
    match found {
        Ok(thread) => thread_number(s, thread),
        Err(rc) => Err(rc),
    }
}

/// The name of a region that was found.
fn region<F: ToHost>(s: &mut Stopped<'_, F>, found: Result<RegionHandle, Rc>) -> Result<Id, Rc> {
    match found {
        Ok(region) => match region_id(s, region) {
            Ok(Rid(id)) => Ok(id),
            Err(rc) => Err(rc),
        },
        Err(rc) => Err(rc),
    }
}

/// The name of a task that was found.
fn task<F: ToHost>(s: &mut Stopped<'_, F>, found: Result<TaskHandle, Rc>) -> Result<Id, Rc> {
    match found {
        Ok(task) => match task_id(s, task) {
            Ok(Tid(id)) => Ok(id),
            Err(rc) => Err(rc),
        },
        Err(rc) => Err(rc),
    }
}

/// A handle of the thread with a native id.
fn thread<F: ToHost>(s: &mut Stopped<'_, F>, native: u64) -> Result<ThreadHandle, Rc> {
    s.may_make()?;
    get_thread_handle(s, 0, native)
}

/// The names of a task, of the task that made it and of the task that was left for it.
fn links<F: ToHost>(s: &mut Stopped<'_, F>, of: TaskHandle) -> Result<[Result<Id, Rc>; 3], Rc> {
    s.may_make()?;
    let generating = get_generating_task_handle(s, of);
    s.may_make()?;
    let scheduling = get_scheduling_task_handle(s, of);
    Ok([task(s, Ok(of)), task(s, generating), task(s, scheduling)])
}

/// The names of a region, of the one around it, and of the one around that.
fn chain<F: ToHost>(s: &mut Stopped<'_, F>, of: RegionHandle) -> Result<[Result<Id, Rc>; 3], Rc> {
    s.may_make()?;
    let outer = get_enclosing_parallel_handle(s, of);
    let none = match outer {
        Ok(outer) => {
            s.may_make()?;
            get_enclosing_parallel_handle(s, outer)
        }
        Err(rc) => Err(rc),
    };
    Ok([region(s, Ok(of)), region(s, outer), region(s, none)])
}

/// The number of the thread of a member, and the name of its task.
fn member<F: ToHost>(
    s: &mut Stopped<'_, F>,
    of: RegionHandle,
    num: u32,
) -> Result<(Result<u8, Rc>, Result<Id, Rc>), Rc> {
    s.may_make()?;
    let thread = get_thread_in_parallel(s, of, num);
    s.may_make()?;
    let found = get_task_in_parallel(s, of, num);
    Ok((number(s, thread), task(s, found)))
}

/// The region of a thread's current task, and that task.
fn current<F: ToHost>(
    s: &mut Stopped<'_, F>,
    of: ThreadHandle,
) -> Result<(RegionHandle, TaskHandle), Rc> {
    s.may_make()?;
    let region = get_curr_parallel_handle(s, of)?;
    s.may_make()?;
    let task = get_curr_task_handle(s, of)?;
    Ok((region, task))
}

/// The name of the region of a task.
fn region_of<F: ToHost>(s: &mut Stopped<'_, F>, of: TaskHandle) -> Result<Id, Rc> {
    s.may_make()?;
    let found = get_task_parallel_handle(s, of);
    region(s, found)
}

/// Whether the initial region and task have no others around them or before them, and no thread has another native id or kind of ids.
fn has_null_ends<F: ToHost>(s: &mut Stopped<'_, F>) -> Result<bool, Rc> {
    let none = Err(Rc::Unavailable);
    let initial = Ok(first(0));
    let found = thread(s, 1000)?;
    let (inner, current) = current(s, found)?;
    let links = links(s, current)?;
    let chain = chain(s, inner)?;
    let other = thread(s, 1001);
    s.may_make()?;
    let other_kind = get_thread_handle(s, 1, 1000);
    let is_alone = links == [initial, none, none] && chain == [initial, none, none];
    Ok(is_alone && other == Err(Rc::Unavailable) && other_kind == Err(Rc::Unsupported))
}

/// The same before the first step of a script's run.
fn null_ends_in<F: ToHost>(
    alloc: Global,
    script: &str,
    order: ByteOrder,
    to_host: F,
) -> Result<bool, Wrong>
    requires takes { TakesAll (F.takes to_host) }
    requires gives { GivesNumbers (F.gives to_host) (if order.highest_first then 1 else 0) }
{
    let asked = Asked::never();
    let core = core_at(alloc, script, 0, after(0))?;
    let session = open(alloc, core, order, to_host, &asked)?;
    let mut s = Opened { session };
    let has = has_null_ends(&mut s.session)?;
    Ok(has)
}

/// Whether the team of the region has two members, and no third.
fn has_two_members<F: ToHost>(s: &mut Stopped<'_, F>) -> Result<bool, Rc> {
    let found = thread(s, 1000)?;
    let (inner, _) = current(s, found)?;
    let name = region(s, Ok(inner));
    let master = member(s, inner, 0)?;
    let worker = member(s, inner, 1)?;
    let past = member(s, inner, 2)?;
    let are_two = master == (Ok(0), Ok(first(1))) && worker == (Ok(1), Ok(first(2)));
    Ok(are_two && name == Ok(first(1)) && past == (Err(Rc::BadInput), Err(Rc::BadInput)))
}

/// The same at the fork of a team of two.
fn team_numbers_in<F: ToHost>(alloc: Global, order: ByteOrder, to_host: F) -> Result<bool, Wrong>
    requires takes { TakesAll (F.takes to_host) }
    requires gives { GivesNumbers (F.gives to_host) (if order.highest_first then 1 else 0) }
{
    let asked = Asked::never();
    let core = core_at(alloc, A_TEAM_OF_TWO, 0, at_fork())?;
    let session = open(alloc, core, order, to_host, &asked)?;
    let mut s = Opened { session };
    let has = has_two_members(&mut s.session)?;
    Ok(has)
}

/// Whether there are null ends before the first step of an empty run and of one of two threads, and two members at the fork of a team of two.
fn null_ends_and_numbers_in<F: ToHost + Copy>(
    alloc: Global,
    order: ByteOrder,
    to_host: F,
) -> Result<(bool, bool), Wrong>
    requires takes { TakesAll (F.takes to_host) }
    requires gives { GivesNumbers (F.gives to_host) (if order.highest_first then 1 else 0) }
{
    let of_one = null_ends_in(alloc, AN_EMPTY_RUN, order, to_host)?;
    let of_two = null_ends_in(alloc, A_TEAM_OF_TWO, order, to_host)?;
    let numbers = team_numbers_in(alloc, order, to_host)?;
    Ok((of_one && of_two, numbers))
}

#[test]
fn null_ends_and_team_numbers(rt: HostRuntime) -> Result<(), Fail> {
    let little = null_ends_and_numbers_in(
        rt.alloc(),
        LITTLE,
        |bytes: [u8; 8]| -> u64
            ensures { result ≡ from_le_bytes w64 bytes }
        { u64::from_le_bytes(bytes) },
    )?;
    let big = null_ends_and_numbers_in(
        rt.alloc(),
        BIG,
        |bytes: [u8; 8]| -> u64
            ensures { result ≡ from_be_bytes w64 bytes }
        { u64::from_be_bytes(bytes) },
    )?;
    assert_eq!(rt; (little, big), ((true, true), (true, true)));
    Ok(())
}

/// What the task of the master answers of itself at a fork.
fn has_a_master<F: ToHost>(s: &mut Stopped<'_, F>, master: TaskHandle) -> Result<bool, Rc> {
    let frames = Frames {
        exit: 0x7f00_000f_ff80,
        exit_flag: 0x21,
        enter: 0,
        enter_flag: 0,
    };
    let (own, initial) = (Ok(first(1)), Ok(first(0)));
    let links = links(s, master)?;
    let region = region_of(s, master)?;
    let function = get_task_function(s, master)?;
    let found = get_task_frame(s, master)?;
    let is_linked = links == [own, initial, initial] && region == first(1);
    Ok(is_linked && function == 0x40_0000 && found == frames)
}

/// What the words of a fork answer: of the region of the team, of its master, and of the other member's task.
fn is_forked<F: ToHost>(s: &mut Stopped<'_, F>) -> Result<bool, Rc> {
    let none = Err(Rc::Unavailable);
    let (own, initial) = (Ok(first(1)), Ok(first(0)));
    let found = thread(s, 1000)?;
    let native = get_thread_id(s, 0, found)?;
    let (inner, master) = current(s, found)?;
    let chain = chain(s, inner)?;
    let has_master = has_a_master(s, master)?;
    s.may_make()?;
    let worker = get_task_in_parallel(s, inner, 1)?;
    let links = links(s, worker)?;
    let is_linked = links == [Ok(first(2)), initial, none] && chain == [own, initial, none];
    Ok(has_master && is_linked && native == 1000)
}

/// The same in the layout of a family.
fn a_fork_in<F: ToHost>(alloc: Global, family: u8, to_host: F) -> Result<bool, Wrong>
    requires takes { TakesAll (F.takes to_host) }
    requires gives { GivesNumbers (F.gives to_host) 0 }
{
    let asked = Asked::never();
    let core = core_at(alloc, A_TEAM_OF_TWO, family, at_fork())?;
    let session = open(alloc, core, LITTLE, to_host, &asked)?;
    let mut s = Opened { session };
    let is = is_forked(&mut s.session)?;
    Ok(is)
}

/// The words of the fork, in two layouts: the region of the team, its tasks, and what they answer of themselves.
#[test]
fn a_fork_in_two_layouts(rt: HostRuntime) -> Result<(), Fail> {
    for family in [0, 7] {
        let is = a_fork_in(
            rt.alloc(),
            family,
            |bytes: [u8; 8]| -> u64
                ensures { result ≡ from_le_bytes w64 bytes }
            { u64::from_le_bytes(bytes) },
        )?;
        assert!(rt; is);
    }
    Ok(())
}
