//! The state of the machine, as the plain program keeps it.

ghost use Rattle.std.specs.Prelude.{◌≡◌, ◌<◌, IfSome, None, Some, slice_index, unwrap_or};
ghost use Rattle.std.specs.Option.{option_map};
ghost use Rattle.omi_model.specs.Changes.{IsCurrent, ahead_of, encounter, in_front, level_of};
ghost use Rattle.omi_machine.specs.Kept.{slots_of, state_of};
ghost use Rattle.omi_model.specs.declared.id.Tid.{Tid};
ghost use Rattle.omi_model.specs.declared.region.Region.{Region};
ghost use Rattle.omi_model.specs.declared.task.Task.{Task};
ghost use Rattle.omi_model.specs.Put.{named, unused};
ghost use Rattle.omi_model.specs.State.{current_task, region_of, task_of};

use omi_model::{Encounter, Freeable, Id, ItemList, Region, Rid, Rows, Slot, Task, Thread, Tid};
use omi_script::Env;

/// A state: the program's environment, the number of threads, max-active-levels-var, the holder of each lock, the threads,
/// and the regions and tasks in the slots of their creators. The state of the machine that it means is `specs/Kept.antt`'s.
pub struct State {
    pub(crate) environment: Env,
    pub(crate) max_active: u64,
    pub(crate) locks: Rows<Option<u8>>,
    pub(crate) threads: Rows<Thread>,
    pub(crate) regions: Rows<Rows<Slot<Region>>>,
    pub(crate) tasks: Rows<Rows<Slot<Task>>>,
}

// Written out: docs/DECISIONS.md, "A drop written out".
impl Drop for State {
    fn drop(self) {
        let State {
            environment: _environment,
            max_active: _max_active,
            locks: _locks,
            threads: _threads,
            regions: _regions,
            tasks: _tasks,
        } = self;
    }
}

/// A slot that is kept.
fn slot_in<T: Drop>(slots: &Rows<Rows<Slot<T>>>, n: Id) -> Option<&Slot<T>>
    ensures { unwrap_or (option_map (λ slot. slot.now) result) unused
        ≡ slots_of slots.now n.creator n.slot }
{
    slots.find(n.creator as usize)?.find(n.slot as usize)
}

/// The object of a name, where it is live.
pub fn live_in<T: Drop>(slots: &Rows<Rows<Slot<T>>>, n: Id) -> Option<&T>
    ensures { option_map (λ x. x.now) result ≡ named (slots_of slots.now) n }
{
    match slot_in(slots, n) {
        Some(slot) if slot.generations == n.generation as u64 + 1 => slot.live.as_ref(),
        _ => None,
    }
}

/// The arrivals of a member of a region, 0 where it has no such member.
pub fn arrivals_of(r: &Region, number: u64) -> u64
    ensures { result ≡ slice_index r.now.arrivals number }
{
    let number = number as usize;
    if number < r.arrivals.len() {
        *r.arrivals.get(number)
    } else {
        0
    }
}

impl State {
    /// The environment of the program.
    pub fn environment(&self) -> &Env
        ensures { result.now ≡ (state_of self.now).environment }
    {
        &self.environment
    }

    /// max-active-levels-var.
    pub fn max_active(&self) -> u64
        ensures { result ≡ (state_of self.now).max_active }
    {
        self.max_active
    }

    /// The holder of a lock.
    pub fn holder_of(&self, k: u8) -> Option<u8>
        ensures { result ≡ (state_of self.now).locks k }
    {
        match self.locks.find(k as usize) {
            Some(holder) => *holder,
            None => None,
        }
    }

    /// The slots of regions that are kept, by the thread that makes them.
    pub fn regions(&self) -> &Rows<Rows<Slot<Region>>>
        ensures { (state_of self.now).regions ≡ slots_of result.now }
    {
        &self.regions
    }

    /// The slots of tasks that are kept, by the thread that makes them.
    pub fn tasks(&self) -> &Rows<Rows<Slot<Task>>>
        ensures { (state_of self.now).tasks ≡ slots_of result.now }
    {
        &self.tasks
    }

    /// The number of threads.
    pub fn count(&self) -> usize
        ensures { result ≡ (state_of self.now).count }
    {
        self.threads.len()
    }

    /// The live region of a name.
    pub fn region_of(&self, n: Rid) -> Option<&Region>
        ensures { option_map (λ r. r.now) result ≡ region_of (state_of self.now) n }
    {
        live_in(&self.regions, n.0)
    }

    /// The live task of a name.
    pub fn task_of(&self, k: Tid) -> Option<&Task>
        ensures { option_map (λ t. t.now) result ≡ task_of (state_of self.now) k }
    {
        live_in(&self.tasks, k.0)
    }

    /// A thread.
    pub fn thread(&self, i: usize) -> &Thread
        requires { i < (state_of self.now).count }
        ensures { result.now ≡ (state_of self.now).threads i }
    {
        self.threads.get(i)
    }

    /// The current task of a thread.
    pub fn current_task(&self, i: usize) -> Option<&Task>
        requires { i < (state_of self.now).count }
        ensures { option_map (λ t. t.now) result ≡ current_task (state_of self.now) i }
    {
        match self.thread(i).current {
            Some(k) => self.task_of(k),
            None => None,
        }
    }

    /// The current task of a thread by name, where it has one that is live.
    pub fn current(&self, i: usize) -> Option<(Tid, &Task)>
        requires { i < (state_of self.now).count }
        ensures found { IfSome result (λ x. IsCurrent (state_of self.now) i x.0 x.1.now) }
        ensures none { result ≡ None → (k : Tid) (t : Task) → IsCurrent (state_of self.now) i k t
            → ⊥ }
    {
        let k = self.thread(i).current?;
        let t = self.task_of(k)?;
        Some((k, t))
    }

    /// The current task of a thread and its region, where both are live.
    pub fn current_region(&self, i: usize) -> Option<(Tid, &Task, &Region)>
        requires { i < (state_of self.now).count }
        ensures found { IfSome result (λ x.
            IsCurrent (state_of self.now) i x.0 x.1.now
            × (region_of (state_of self.now) x.1.now.region ≡ Some x.2.now)) }
        ensures none { result ≡ None → (k : Tid) (t : Task) (r : Region)
            → IsCurrent (state_of self.now) i k t → region_of (state_of self.now) t.region ≡ Some r
            → ⊥ }
    {
        let (k, t) = self.current(i)?;
        let r = self.region_of(t.region)?;
        Some((k, t, r))
    }

    /// What a row sees of the task that a thread runs.
    pub fn encounter(&self, i: usize) -> Encounter
        requires { i < (state_of self.now).count }
        ensures { result ≡ encounter (state_of self.now) i }
    {
        let debug = self.environment.debug;
        match self.current_task(i) {
            Some(t) => Encounter {
                debug,
                number: t.number,
                level: self.level_of(t.region),
                is_final: t.is_final,
            },
            None => Encounter {
                debug,
                number: 0,
                level: 0,
                is_final: false,
            },
        }
    }

    /// The level of a region, 0 where it isn't live.
    fn level_of(&self, n: Rid) -> u64
        ensures { result ≡ level_of (state_of self.now) n }
    {
        match self.region_of(n) {
            Some(r) => r.levels,
            None => 0,
        }
    }

    /// What a thread may go on with: what may be given back next, and the list behind it.
    pub fn ahead_of(&self, i: usize) -> (Option<Freeable>, &ItemList)
        requires { i < (state_of self.now).count }
        ensures { in_front result.0 result.1.now ≡ ahead_of (state_of self.now) i }
    {
        match self.current_task(i) {
            Some(t) => (t.frees, &t.list),
            None => (None, &self.thread(i).list),
        }
    }
}
