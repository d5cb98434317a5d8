//! The state in which a program starts, made.

ghost use Rattle.std.specs.Prelude.{◌≡◌, ◌≤◌, ◌∷◌, ◌-◌, [], false, OnOk, IfOk, replicate};
ghost use Rattle.omi_machine.specs.Kept.{slots_of, state_of};
ghost use Rattle.omi_model.specs.Opening.{initial_thread, waiting_worker, opening_region, opening_task, opening, variables_of};
ghost use Rattle.omi_model.specs.Put.{first_alone};
ghost use Rattle.omi_model.specs.Rows.{main_items, worker_items};

use crate::State;
use crate::first_lists::{push_end_of_member, push_function};
use omi_model::{
    Claim, Encounter, Id, Item, ItemList, Progress, Region, Rid, Rows, Slot, Task, Team, Thread,
    Tid, Variables,
};
use omi_numbers::{IDLE, WORK_SERIAL, exit_frame};
use omi_script::{Env, Program};
use omi_word::OutOfMemory;
use std::alloc::Global;

/// The name of the initial task, and that of the initial region.
const INITIAL: Id = Id {
    creator: 0,
    slot: 0,
    generation: 0,
};

/// The encounter of the initial task.
fn initial_encounter(env: &Env) -> Encounter
    ensures { result ≡ record { debug = env.now.debug; number = 0; level = 0; is_final = false } }
{
    Encounter {
        debug: env.debug,
        number: 0,
        level: 0,
        is_final: false,
    }
}

/// What a worker that has not begun has to do.
fn worker_list(alloc: Global) -> Result<ItemList, OutOfMemory>
    ensures { IfOk result (λ list. list ≡ worker_items) }
{
    let mut list = ItemList::new(alloc);
    list.push_front(Item::Serve)?;
    list.push_front(Item::Offer)?;
    list.push_front(Item::Begin)?;
    Ok(list)
}

/// What the initial task has to do.
fn main_list(alloc: Global, p: &Program) -> Result<ItemList, OutOfMemory>
    ensures { IfOk result (λ list. list ≡ (opening_task p.now).list) }
{
    let at = initial_encounter(&p.env);
    let mut list = ItemList::new(alloc);
    list.push_front(Item::Done)?;
    push_end_of_member(&mut list, at)?;
    push_function(&mut list, &p.funcs, p.main)?;
    Ok(list)
}

/// Thread 0.
fn first_thread(alloc: Global) -> Thread
    ensures { result ≡ initial_thread }
{
    Thread {
        begun: true,
        current: Some(Tid(INITIAL)),
        state: WORK_SERIAL,
        wait: 0,
        claim: Claim::Own,
        wanted: 0,
        asks: Rows::new(alloc),
        list: ItemList::new(alloc),
    }
}

/// A worker that has not begun.
fn worker(alloc: Global) -> Result<Thread, OutOfMemory>
    ensures { IfOk result (λ h. h ≡ waiting_worker) }
{
    Ok(Thread {
        begun: false,
        current: None,
        state: IDLE,
        wait: 0,
        claim: Claim::Own,
        wanted: 0,
        asks: Rows::new(alloc),
        list: worker_list(alloc)?,
    })
}

/// Thread 0 and the workers.
fn threads(alloc: Global, count: u8) -> Result<Rows<Thread>, OutOfMemory>
    requires { 1 ≤ count }
    ensures { IfOk result (λ list. list ≡ initial_thread ∷ replicate (count - 1) waiting_worker) }
{
    let mut list = Rows::new(alloc);
    list.push(first_thread(alloc))?;
    for _ in 1..count {
        list.push(worker(alloc)?)?;
    }
    Ok(list)
}

/// A list of one element.
fn only<T: Drop>(alloc: Global, x: T) -> Result<Rows<T>, OutOfMemory>
    ensures { IfOk result (λ list. list ≡ x ∷ []) }
{
    let mut list = Rows::new(alloc);
    list.push(x)?;
    Ok(list)
}

/// One object, in the first slot of thread 0.
fn first_slot<T: Drop>(alloc: Global, x: T) -> Result<Rows<Rows<Slot<T>>>, OutOfMemory>
    ensures { IfOk result (λ slots. slots_of slots ≡ first_alone x) }
{
    let slot = Slot {
        generations: 1,
        live: Some(x),
    };
    only(alloc, only(alloc, slot)?)
}

/// The initial region.
fn initial_region(alloc: Global, p: &Program) -> Result<Region, OutOfMemory>
    ensures { IfOk result (λ r. r ≡ opening_region p.now) }
{
    let mut team = Team::new();
    team.push(Tid(INITIAL), 0);
    Ok(Region {
        enclosing: None,
        encountering: None,
        team,
        function: p.main,
        levels: 0,
        active: 0,
        arrivals: only(alloc, 0)?,
        released: 0,
        ended: only(alloc, false)?,
        joined: false,
    })
}

/// The variables of the environment.
fn variables(alloc: Global, env: &Env) -> Result<Variables, OutOfMemory>
    ensures { IfOk result (λ v. v ≡ variables_of env.now) }
{
    Ok(Variables {
        dynamic: env.dynamic,
        nthreads: env.nthreads.same(alloc)?,
        schedule: env.sched,
        device: env.device as u64,
    })
}

/// The initial task.
fn initial_task(alloc: Global, p: &Program) -> Result<Task, OutOfMemory>
    ensures { IfOk result (λ t. t ≡ opening_task p.now) }
{
    Ok(Task {
        implicit: true,
        region: Rid(INITIAL),
        thread: 0,
        number: 0,
        generating: None,
        scheduling: None,
        function: p.main,
        exit: exit_frame(0, 1),
        enter: 0,
        variables: variables(alloc, &p.env)?,
        is_final: false,
        tool: 0,
        progress: Progress::Begun,
        place: 0,
        group: None,
        open_groups: 0,
        frees: None,
        list: main_list(alloc, p)?,
    })
}

/// The opening state of a program.
pub fn opening(alloc: Global, p: &Program) -> Result<State, OutOfMemory>
    ensures { IfOk result (λ s. state_of s ≡ opening p.now) }
{
    Ok(State {
        environment: p.env.same(alloc)?,
        max_active: p.env.max_active as u64,
        locks: Rows::new(alloc),
        threads: threads(alloc, p.threads)?,
        regions: first_slot(alloc, initial_region(alloc, p)?)?,
        tasks: first_slot(alloc, initial_task(alloc, p)?)?,
    })
}
