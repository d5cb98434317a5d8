//! Whether a state is well formed, computed for tests.
use omi_machine::State;
use omi_model::{Id, Progress, Region, Rid, Task, Team, Tid, Variables};

/// The states of a thread.
const STATES: [u32; 9] = [
    0x000, 0x001, 0x011, 0x014, 0x020, 0x021, 0x042, 0x100, 0x101,
];

/// More objects than a chain of these tests has.
const LONG: usize = 1000;

fn are_live(s: &State, team: &Team) -> bool {
    for at in 0..team.len() {
        if s.task_of(team.get(at).0).is_none() {
            return false;
        }
    }
    true
}

fn is_visible_region(s: &State, n: Rid) -> bool {
    match s.region_of(n) {
        Some(r) => are_live(s, &r.team),
        None => false,
    }
}

fn is_visible_task(s: &State, k: Tid) -> bool {
    match s.task_of(k) {
        Some(t) => {
            if t.implicit {
                is_visible_region(s, t.region)
            } else {
                t.progress == Progress::Begun || t.progress == Progress::Finished
            }
        }
        None => false,
    }
}

/// A name that is none, or that of a visible task or region.
fn is_task_or_none(s: &State, k: Option<Tid>) -> bool {
    match k {
        Some(k) => is_visible_task(s, k),
        None => true,
    }
}

fn is_region_or_none(s: &State, n: Option<Rid>) -> bool {
    match n {
        Some(n) => is_visible_region(s, n),
        None => true,
    }
}

fn has_begun(s: &State, i: u8) -> bool {
    let i = i as usize;
    i < s.count() && s.thread(i).begun
}

/// Each member's task is visible, and its thread is the task's and has begun.
fn are_members_right(s: &State, team: &Team) -> bool {
    for at in 0..team.len() {
        let (k, i) = team.get(at);
        let same = match s.task_of(k) {
            Some(t) => t.thread == i,
            None => false,
        };
        if !same || !is_visible_task(s, k) || !has_begun(s, i) {
            return false;
        }
    }
    true
}

fn scheduling_ends(s: &State, from: Option<Tid>) -> bool {
    let mut next = from;
    for _ in 0..LONG {
        let Some(k) = next else {
            return true;
        };
        next = match s.task_of(k) {
            Some(t) => t.scheduling,
            None => None,
        };
    }
    false
}

fn enclosing_ends(s: &State, from: Option<Rid>) -> bool {
    let mut next = from;
    for _ in 0..LONG {
        let Some(n) = next else {
            return true;
        };
        next = match s.region_of(n) {
            Some(r) => r.enclosing,
            None => None,
        };
    }
    false
}

fn are_in_range(v: &Variables) -> bool {
    let sizes = v.nthreads.len();
    let kind = v.schedule.kind;
    (1..=4).contains(&sizes) && (1..=4).contains(&kind)
}

fn is_region_right(s: &State, r: &Region) -> bool {
    is_region_or_none(s, r.enclosing)
        && is_task_or_none(s, r.encountering)
        && are_members_right(s, &r.team)
        && r.team.len() >= 1
        && r.team.len() <= s.count()
        && enclosing_ends(s, r.enclosing)
}

fn is_task_right(s: &State, t: &Task) -> bool {
    is_visible_region(s, t.region)
        && is_task_or_none(s, t.generating)
        && is_task_or_none(s, t.scheduling)
        && has_begun(s, t.thread)
        && scheduling_ends(s, t.scheduling)
        && are_in_range(&t.variables)
}

/// The name of the last object of a slot.
pub fn name_at(creator: usize, slot: usize, generations: u64) -> Option<Id> {
    Some(Id {
        creator: u8::try_from(creator).ok()?,
        slot: u16::try_from(slot).ok()?,
        generation: u32::try_from(generations.checked_sub(1)?).ok()?,
    })
}

fn are_tasks_right(s: &State) -> bool {
    let tasks = s.tasks();
    for c in 0..tasks.len() {
        let row = tasks.get(c);
        for k in 0..row.len() {
            let slot = row.get(k);
            if let (Some(t), Some(n)) = (&slot.live, name_at(c, k, slot.generations)) {
                if is_visible_task(s, Tid(n)) && !is_task_right(s, t) {
                    return false;
                }
            }
        }
    }
    true
}

fn are_regions_right(s: &State) -> bool {
    let regions = s.regions();
    for c in 0..regions.len() {
        let row = regions.get(c);
        for k in 0..row.len() {
            let slot = row.get(k);
            if let (Some(r), Some(n)) = (&slot.live, name_at(c, k, slot.generations)) {
                if is_visible_region(s, Rid(n)) && !is_region_right(s, r) {
                    return false;
                }
            }
        }
    }
    true
}

fn are_threads_right(s: &State) -> bool {
    for i in 0..s.count() {
        let h = s.thread(i);
        if !is_task_or_none(s, h.current) || !STATES.contains(&h.state) {
            return false;
        }
    }
    true
}

/// Whether a state is well formed: what is visible names only what is visible, and its numbers are in range.
pub fn is_well_formed(s: &State) -> bool {
    are_threads_right(s) && are_regions_right(s) && are_tasks_right(s)
}
