//! What an event changes of a state in which its list has moved on.

ghost use Rattle.std.specs.Prelude.{◌≡◌, ◌<◌, true, Some, IsSome, OnOk, OnErr};
ghost use Rattle.omi_script.specs.declared.program.Program.{Program};
ghost use Rattle.omi_machine.specs.Kept.{state_of};
ghost use Rattle.omi_machine.specs.Needs.{HasCurrent, HasNextMember, HasRegion, Needs};
ghost use Rattle.omi_model.specs.Lists.{fits};
ghost use Rattle.omi_model.specs.Rules.{effect};
ghost use Rattle.omi_model.specs.State.{task_of};
ghost use Rattle.omi_model.specs.declared.event.Event.TheVariants as event;

use crate::State;
use crate::barrier_changes::{arrive, release};
use crate::freeing::{free_finished, free_member, free_region};
use crate::group_changes::{begin_group, end_group};
use crate::lock_changes::set_lock;
use crate::new_tasks::{defer, start_now};
use crate::new_teams::fork;
use crate::setting_changes::{enter, leave, set_tool};
use crate::task_changes::{begin_task, finish, start, start_alone};
use crate::team_changes::{end_task, join};
use crate::thread_changes::{ask, begin, offer, show_state, want};
use crate::variable_changes::set_variable;
use omi_model::{Event, Freeable, Item, Rid, Team, Tid};
use omi_script::Program;
use omi_word::OutOfMemory;
use std::alloc::Global;

/// A team forks by its item.
fn fork_by(
    alloc: Global,
    p: &Program,
    s: &mut State,
    i: usize,
    region: Rid,
    team: &Team,
    x: Item,
) -> Result<(), OutOfMemory>
    requires known { i < (state_of s.old).count }
    requires current { HasRegion (state_of s.old) i }
    requires taken { fits (event.Fork region team.now) x ≡ true }
    ensures done { OnOk result (effect p.now (state_of s.old) i (event.Fork region team.now) x
        ≡ Some (state_of s.new)) }
    ensures refused { OnErr result (state_of s.new ≡ state_of s.old) }
{
    match x {
        Item::Fork { f } => fork(alloc, p, s, i, region, team, f),
        _ => unreachable!(),
    }
}

/// A task is deferred by its item.
fn defer_by(
    alloc: Global,
    p: &Program,
    s: &mut State,
    i: usize,
    task: Tid,
    x: Item,
) -> Result<(), OutOfMemory>
    requires known { i < (state_of s.old).count }
    requires current { HasCurrent (state_of s.old) i }
    requires taken { fits (event.Defer task) x ≡ true }
    ensures done { OnOk result (effect p.now (state_of s.old) i (event.Defer task) x
        ≡ Some (state_of s.new)) }
    ensures refused { OnErr result (state_of s.new ≡ state_of s.old) }
{
    match x {
        Item::Defer { seen, f, is_final } => defer(alloc, p, s, i, task, f, is_final, seen),
        _ => unreachable!(),
    }
}

/// A new task starts at once by its item.
fn start_now_by(
    alloc: Global,
    p: &Program,
    s: &mut State,
    i: u8,
    task: Tid,
    x: Item,
) -> Result<(), OutOfMemory>
    requires known { i < (state_of s.old).count }
    requires current { HasCurrent (state_of s.old) i }
    requires taken { fits (event.StartNow task) x ≡ true }
    ensures done { OnOk result (effect p.now (state_of s.old) i (event.StartNow task) x
        ≡ Some (state_of s.new)) }
    ensures refused { OnErr result (state_of s.new ≡ state_of s.old) }
{
    match x {
        Item::Defer {
            seen: _,
            f,
            is_final,
        }
        | Item::StartNow { f, is_final } => { start_now(alloc, p, s, i, task, f, is_final) }
        _ => unreachable!(),
    }
}

/// A deferred task starts by its item.
fn start_by(alloc: Global, s: &mut State, i: u8, task: Tid, x: Item) -> Result<(), OutOfMemory>
    requires known { i < (state_of s.old).count }
    requires current { HasCurrent (state_of s.old) i }
    requires live { IsSome (task_of (state_of s.old) task) }
    requires taken { fits (event.Start task) x ≡ true }
    ensures done { (p : Program) → OnOk result (effect p (state_of s.old) i (event.Start task) x
        ≡ Some (state_of s.new)) }
    ensures refused { OnErr result (state_of s.new ≡ state_of s.old) }
{
    match x {
        Item::Tasks { .. } => start(alloc, s, i, task),
        Item::OneTask => {
            start_alone(alloc, s, i, task);
            Ok(())
        }
        _ => unreachable!(),
    }
}

/// The record of a task is given back by its item.
fn free_by(alloc: Global, s: &mut State, i: usize, task: Tid, x: Item)
    requires known { i < (state_of s.old).count }
    requires current { HasCurrent (state_of s.old) i }
    requires member { HasNextMember (state_of s.old) x }
    requires taken { fits (event.FreeTask task) x ≡ true }
    ensures { (p : Program) → effect p (state_of s.old) i (event.FreeTask task) x
        ≡ Some (state_of s.new) }
{
    match x {
        Item::Frees {
            next: Freeable::Joined { region, number },
        } => free_member(alloc, s, i, task, region, number),
        Item::Frees {
            next: Freeable::Finished { .. },
        } => free_finished(alloc, s, i, task),
        _ => unreachable!(),
    }
}

/// An event changes a state in which its list has moved on. Without room the state stays.
pub(crate) fn take_effect(
    alloc: Global,
    p: &Program,
    s: &mut State,
    thread: u8,
    e: &Event,
    x: Item,
) -> Result<(), OutOfMemory>
    requires known { thread < (state_of s.old).count }
    requires needs { Needs (state_of s.old) thread e.now x }
    requires taken { fits e.now x ≡ true }
    ensures done { OnOk result (effect p.now (state_of s.old) thread e.now x
        ≡ Some (state_of s.new)) }
    ensures refused { OnErr result (state_of s.new ≡ state_of s.old) }
{
    let i = thread as usize;
    match e {
        Event::Ask { w, got } => return ask(alloc, s, thread, *w, *got),
        Event::Fork { region, team } => return fork_by(alloc, p, s, i, *region, team, x),
        Event::Arrive => return arrive(alloc, s, i),
        Event::Release => return release(alloc, s, i),
        Event::Defer { task } => return defer_by(alloc, p, s, i, *task, x),
        Event::StartNow { task } => return start_now_by(alloc, p, s, thread, *task, x),
        Event::Start { task } => return start_by(alloc, s, thread, *task, x),
        Event::Set { icv, value } => return set_variable(alloc, s, i, *icv, *value),
        Event::Lock { k } => return set_lock(s, *k, Some(thread)),
        Event::Unlock { k } => return set_lock(s, *k, None),
        Event::Begin => begin(alloc, s, i),
        Event::Offer => offer(alloc, s, i),
        Event::Want { n } => want(alloc, s, i, *n),
        Event::ImplicitBegin { task } => begin_task(alloc, s, i, *task),
        Event::State { state, wait } => show_state(alloc, s, i, *state, *wait),
        Event::Enter => enter(alloc, s, i),
        Event::Leave => leave(alloc, s, i),
        Event::ImplicitEnd { .. } => end_task(alloc, s, i),
        Event::Join { .. } => join(alloc, s, i),
        Event::Finish { .. } => finish(alloc, s, i),
        Event::FreeTask { task } => free_by(alloc, s, i, *task, x),
        Event::FreeRegion { region } => free_region(alloc, s, *region),
        Event::GroupBegin => begin_group(alloc, s, i),
        Event::GroupEnd => end_group(alloc, s, i),
        Event::SetTool { x } => set_tool(alloc, s, i, *x),
        Event::Pass
        | Event::Seen { .. }
        | Event::WaitDone
        | Event::Yield
        | Event::Work
        | Event::Call { .. }
        | Event::Skip
        | Event::Ret
        | Event::Done => (),
    }
    Ok(())
}
