//! A new team: its region, and the implicit tasks of its members.

ghost use Rattle.std.specs.Prelude.{◌≡◌, ◌==◌, ◌<◌, ◌+◌, ℕ, false, IfOk, IfSome, OnOk, OnErr, Some, if◌then◌else◌, length, nat_lt, replicate, slice_get, ⊤};
ghost use Rattle.omi_machine.specs.Kept.{slots_of, state_of};
ghost use Rattle.omi_machine.specs.KeptSlots.{AreKept, IsKept};
ghost use Rattle.omi_machine.specs.NewMembers.{tasks_back};
ghost use Rattle.omi_model.specs.Changes.{OfCurrentRegion, by_region};
ghost use Rattle.omi_numbers.specs.Addresses.{exit_frame, exit_below};
ghost use Rattle.omi_model.specs.Rows.{member_items};
ghost use Rattle.omi_model.specs.Teams.{forked, inherited, master_of, member_task, new_region, shortened, with_members};

use crate::State;
use crate::first_lists::{push_end_of_member, push_function, push_working};
use crate::slot_changes::{keep_slot, make};
use crate::thread_changes::set_current;
use omi_model::{
    Encounter, Item, ItemList, Progress, Region, Rid, Rows, Slot, Task, Team, Tid, Variables,
};
use omi_numbers::{exit_below, exit_frame};
use omi_script::{NumList, Program};
use omi_word::OutOfMemory;
use std::alloc::{AllocError, Global};

/// So many equal elements.
fn replicated<T: Copy + Drop>(alloc: Global, x: T, count: usize) -> Result<Rows<T>, OutOfMemory>
    ensures { IfOk result (λ list. list ≡ replicate count x) }
{
    let mut list = Rows::new(alloc);
    for _ in 0..count {
        list.push(x)?;
    }
    Ok(list)
}

/// How many active levels a region over a team adds.
fn active_more(team: &Team) -> u64
    ensures { result ≡ (if nat_lt 1 (length team.now) then 1 else 0) }
{
    if team.len() > 1 { 1 } else { 0 }
}

/// The region of a team, which a task encounters in its region.
fn region_of_team(
    alloc: Global,
    k: Tid,
    t: &Task,
    r: &Region,
    team: &Team,
    f: u8,
) -> Result<Region, OutOfMemory>
    ensures { IfOk result (λ new. new ≡ new_region k t.now r.now team.now f) }
{
    let Some(levels) = r.levels.checked_add(1) else {
        return Err(AllocError);
    };
    let Some(active) = r.active.checked_add(active_more(team)) else {
        return Err(AllocError);
    };
    Ok(Region {
        enclosing: Some(t.region),
        encountering: Some(k),
        team: *team,
        function: f,
        levels,
        active,
        arrivals: replicated(alloc, 0, team.len())?,
        released: 0,
        ended: replicated(alloc, false, team.len())?,
        joined: false,
    })
}

/// A list without its first element, or the same where it has at most one.
fn without_first(alloc: Global, list: &NumList) -> Result<NumList, OutOfMemory>
    ensures { IfOk result (λ new. new ≡ shortened list.now) }
{
    if list.len() < 2 {
        return list.same(alloc);
    }
    let mut new = NumList::new(alloc);
    for k in 1..list.len() {
        new.push(*list.get(k))?;
    }
    Ok(new)
}

/// The variables that an implicit task inherits.
fn inherited_variables(alloc: Global, v: &Variables) -> Result<Variables, OutOfMemory>
    ensures { IfOk result (λ new. new ≡ inherited v.now) }
{
    Ok(Variables {
        dynamic: v.dynamic,
        nthreads: without_first(alloc, &v.nthreads)?,
        schedule: v.schedule,
        device: v.device,
    })
}

/// What a member has to do.
fn member_list(alloc: Global, p: &Program, at: Encounter, f: u8) -> Result<ItemList, OutOfMemory>
    ensures { IfOk result (λ list. list ≡ member_items p.now at f) }
{
    let mut list = ItemList::new(alloc);
    let last = if at.number == 0 {
        Item::Join
    } else {
        Item::ImplicitEnd
    };
    list.push_front(last)?;
    push_end_of_member(&mut list, at)?;
    push_function(&mut list, &p.funcs, f)?;
    push_working(&mut list, at)?;
    Ok(list)
}

/// The exit frame of a member.
fn member_exit(t: &Task, number: u64, thread: u8) -> u64
    ensures { result ≡ (if number == 0 then exit_below t.now.exit else exit_frame thread 1) }
{
    if number == 0 {
        exit_below(t.exit)
    } else {
        exit_frame(thread, 1)
    }
}

/// The encounter of a member of a team that is forked in a region.
fn member_encounter(p: &Program, r: &Region, number: u64) -> Option<Encounter>
    ensures { IfSome result (λ at. at ≡ record {
      debug = p.now.env.debug;
      number = number;
      level = r.now.levels + 1;
      is_final = false;
    }) }
{
    Some(Encounter {
        debug: p.env.debug,
        number,
        level: r.levels.checked_add(1)?,
        is_final: false,
    })
}

/// The implicit task of a member of a team over `f`, which task `k`, which is `t`, forks in region `r`.
fn new_member(
    alloc: Global,
    p: &Program,
    region: Rid,
    k: Tid,
    t: &Task,
    r: &Region,
    f: u8,
    number: u64,
    thread: u8,
) -> Result<Task, OutOfMemory>
    ensures { IfOk result (λ new.
        new ≡ member_task p.now region k t.now r.now f number thread) }
{
    let Some(at) = member_encounter(p, r, number) else {
        return Err(AllocError);
    };
    Ok(Task {
        implicit: true,
        region,
        thread,
        number,
        generating: Some(k),
        scheduling: if number == 0 { Some(k) } else { None },
        function: f,
        exit: member_exit(t, number, thread),
        enter: 0,
        variables: inherited_variables(alloc, &t.variables)?,
        is_final: false,
        tool: 0,
        progress: if number == 0 {
            Progress::Begun
        } else {
            Progress::NotBegun
        },
        place: 0,
        group: None,
        open_groups: 0,
        frees: None,
        list: member_list(alloc, p, at, f)?,
    })
}

/// The implicit tasks of a team's members, the last one first.
fn new_members(
    alloc: Global,
    p: &Program,
    region: Rid,
    k: Tid,
    t: &Task,
    r: &Region,
    f: u8,
    team: &Team,
) -> Result<Rows<Task>, OutOfMemory>
    ensures { IfOk result (λ new.
        new ≡ tasks_back (member_task p.now region k t.now r.now f) 0 team.now) }
{
    let mut new = Rows::new(alloc);
    for done in 0..team.len() {
        let at = team.len() - 1 - done;
        let thread = team.get(at).1;
        new.push(new_member(alloc, p, region, k, t, r, f, at as u64, thread)?)?;
    }
    Ok(new)
}

/// Keeps the slots of a team's tasks. What is kept means the same slots, also where there is no room.
fn keep_team(
    alloc: Global,
    slots: &mut Rows<Rows<Slot<Task>>>,
    team: &Team,
) -> Result<(), OutOfMemory>
    ensures same { slots_of slots.new ≡ slots_of slots.old }
    ensures done { OnOk result (AreKept slots.new team.now) }
{
    for at in 0..team.len() {
        keep_slot(alloc, slots, team.get(at).0.0)?;
    }
    Ok(())
}

/// The tasks of a team begin, of which the last one is first.
fn make_members(alloc: Global, slots: &mut Rows<Rows<Slot<Task>>>, team: &Team, mut new: Rows<Task>)
    requires { AreKept slots.old team.now }
    ensures { (task : ℕ → ℕ → Task) → new ≡ tasks_back task 0 team.now
        → slots_of slots.new ≡ with_members task 0 team.now (slots_of slots.old) }
{
    for at in 0..team.len() {
        let Some(t) = new.pop() else {
            return;
        };
        make(alloc, slots, team.get(at).0.0, t);
    }
}

/// The task of member 0.
fn first_task(team: &Team) -> Option<Tid>
    ensures { result ≡ master_of team.now }
{
    if team.len() > 0 {
        Some(team.get(0).0)
    } else {
        None
    }
}

/// A team forks over a function: its region and tasks begin, and the thread goes on with member 0. Without room the state
/// stays.
pub(crate) fn fork(
    alloc: Global,
    p: &Program,
    s: &mut State,
    i: usize,
    region: Rid,
    team: &Team,
    f: u8,
) -> Result<(), OutOfMemory>
    requires known { i < (state_of s.old).count }
    requires current { OfCurrentRegion (state_of s.old) i (λ k t r. ⊤) }
    ensures done { OnOk result (by_region (state_of s.old) i
        (forked p.now (state_of s.old) i region team.now f) ≡ Some (state_of s.new)) }
    ensures refused { OnErr result (state_of s.new ≡ state_of s.old) }
{
    let Some((k, t, r)) = s.current_region(i) else {
        unreachable!();
    };
    let new = region_of_team(alloc, k, t, r, team, f)?;
    let tasks = new_members(alloc, p, region, k, t, r, f, team)?;
    keep_slot(alloc, &mut s.regions, region.0)?;
    keep_team(alloc, &mut s.tasks, team)?;
    make(alloc, &mut s.regions, region.0, new);
    make_members(alloc, &mut s.tasks, team, tasks);
    set_current(alloc, s, i, first_task(team));
    Ok(())
}
