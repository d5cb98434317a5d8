//! Random walks: from the opening some legal event after another, over programs of every statement.
ghost use Rattle.std.specs.Prelude.{◌<◌};
ghost use Rattle.omi_machine.specs.Kept.{state_of};

use crate::well_formed::{is_well_formed, name_at};
use omi_list::List;
use omi_machine::{State, after, head_item, may_pass_over, opening};
use omi_machine_legal::legal;
use omi_machine_view::view_of;
use omi_model::{Event, Freeable, Id, Item, Progress, Rid, Rows, Slot, Team, Tid};
use omi_script::{Program, parse};
use omi_word::{Natives, OutOfMemory};
use std::alloc::Global;
use std::test::Fail;

/// Programs of every statement. Critical regions contain no waits, so that no walk is stuck.
const SCRIPTS: [&str; 9] = [
    "threads 2\nfunc w\nwork\nend\nfunc a\ntask w\ntask w final 1\ntaskwait\ntaskyield\nend\nfunc main\nparallel a\ntask a\ntaskwait\nend\n",
    "threads 3\nfunc w\nwork\nend\nfunc c\ncritical 0 w\ncritical 3 w\nend\nfunc b\nbarrier\nonly 0 c\nrepeat 3 w\nbarrier\ncall c\nend\nfunc main\nparallel b num 3\nend\n",
    "threads 4\nenv num_threads 3,2\nfunc w\nwork\nend\nfunc m\nparallel w\nset_num_threads 2\nparallel w num 4\nend\nfunc main\nparallel m\nend\n",
    "threads 3\nenv debug disabled\nfunc w\nwork\nend\nfunc a\ntask w\ntask w\ntaskwait\nbarrier\nend\nfunc main\nparallel a num 2\ntask w if 0\nend\n",
    "threads 2\nfunc w\nwork\nend\nfunc m\nset_schedule guided 7\nset_default_device 3\nparallel w\ntool 77\nend\nfunc main\nset_max_active_levels 1\nset_dynamic 1\nset_num_threads 5\nparallel m\nend\n",
    "threads 2\nfunc w\nwork\nend\nfunc f\ntask w\ntask w if 0\ntaskyield\nend\nfunc main\ntask f\ntask f final 1\ntask w\ntask w\ntask w\ntask w\ntask w\ntask f if 0\nend\n",
    "threads 3\nfunc w\nwork\nend\nfunc h\nparallel w num 2\nend\nfunc g\ntask h\nonly 1 h\ntaskyield\nend\nfunc main\nparallel g num 2\nend\n",
    "threads 3\nfunc w\nwork\nend\nfunc t\ntask w\nend\nfunc c\ncritical 1 t\nrepeat 2 t\ncritical 7 w\nend\nfunc main\nparallel c\nend\n",
    "threads 3\nfunc w\nwork\nend\nfunc t\ntask w\ntask w\nend\nfunc g\ntask t\ntaskgroup t\ntask w if 0\nend\nfunc m\ntask w\ntaskgroup g\ntaskwait\nend\nfunc main\nparallel m num 2\ntaskgroup t\nend\n",
];

/// Events that are proposed, each of a thread.
type Proposals = List<(u8, Event)>;

/// More events than a walk has.
const MOST: usize = 5000;

/// Random numbers from a seed.
#[derive(Drop)]
struct Dice {
    state: u64,
}

impl Dice {
    /// A number below another one, or 0.
    fn roll(&mut self, below: usize) -> usize {
        self.state = self
            .state
            .wrapping_mul(6364136223846793005)
            .wrapping_add(1442695040888963407);
        if below == 0 {
            return 0;
        }
        (self.state >> 33) as usize % below
    }
}

/// How many records of each kind were given back, and how many slots were taken again.
#[derive(Drop)]
struct Counts {
    tasks: usize,
    members: usize,
    regions: usize,
    again: usize,
}

impl Counts {
    /// Counts an event that a state has before it.
    fn count(&mut self, s: &State, e: &Event) {
        match e {
            Event::FreeTask { task } => match s.task_of(*task) {
                Some(t) if t.implicit => self.members = self.members.saturating_add(1),
                _ => self.tasks = self.tasks.saturating_add(1),
            },
            Event::FreeRegion { .. } => self.regions = self.regions.saturating_add(1),
            Event::Fork { region, .. } if region.0.generation > 0 => {
                self.again = self.again.saturating_add(1);
            }
            _ => (),
        }
    }
}

/// The number of slots that are kept of a creator.
fn kept<T: Drop>(slots: &Rows<Rows<Slot<T>>>, i: usize) -> usize {
    match slots.find(i) {
        Some(row) => row.len(),
        None => 0,
    }
}

/// A fresh name of a thread: a slot past those that are kept.
fn fresh(i: u8, past: usize) -> Id {
    Id {
        creator: i,
        slot: u16::try_from(past).unwrap_or(u16::MAX),
        generation: 0,
    }
}

/// A fresh name of a thread: a slot whose object is gone, or one past those that are kept.
fn some_fresh<T: Drop>(slots: &Rows<Rows<Slot<T>>>, i: u8, dice: &mut Dice) -> Id {
    let past = kept(slots, i as usize);
    let at = dice.roll(past.saturating_add(1));
    let again = match slots.find(i as usize) {
        Some(row) => match row.find(at) {
            Some(slot) if slot.live.is_none() => u32::try_from(slot.generations).ok(),
            _ => None,
        },
        None => None,
    };
    match (again, u16::try_from(at)) {
        (Some(generation), Ok(slot)) => Id {
            creator: i,
            slot,
            generation,
        },
        _ => fresh(i, past.saturating_add(dice.roll(3))),
    }
}

/// A team of a thread and those that joined, with new tasks.
fn new_team(s: &State, i: u8, from: usize) -> Team
    requires { i < (state_of s.now).count }
{
    let mut team = Team::new();
    team.push(Tid(fresh(i, from)), i);
    for a in s.thread(i as usize).asks.as_slice() {
        if a.1 && team.len() < 64 {
            team.push(Tid(fresh(i, from.saturating_add(team.len()))), a.0);
        }
    }
    team
}

/// Proposes that tasks begin: the thread's implicit tasks, or deferred ones.
fn propose_tasks(s: &State, i: u8, list: &mut Proposals) -> Result<(), OutOfMemory> {
    let tasks = s.tasks();
    for c in 0..tasks.len() {
        let row = tasks.get(c);
        for k in 0..row.len() {
            let slot = row.get(k);
            let Some(n) = name_at(c, k, slot.generations) else {
                continue;
            };
            let task = Tid(n);
            match &slot.live {
                Some(t) if t.progress == Progress::NotBegun => {
                    list.push((i, Event::ImplicitBegin { task }))?
                }
                Some(t) if t.progress == Progress::Deferred => {
                    list.push((i, Event::Start { task }))?
                }
                _ => (),
            }
        }
    }
    Ok(())
}

/// Proposes asks for each thread, that joins or not.
fn propose_asks(s: &State, i: u8, list: &mut Proposals) -> Result<(), OutOfMemory> {
    for w in 0..s.count() {
        let w = u8::try_from(w).unwrap_or(u8::MAX);
        list.push((i, Event::Ask { w, got: true }))?;
        list.push((i, Event::Ask { w, got: false }))?;
    }
    Ok(())
}

/// Proposes each size of a team.
fn propose_sizes(i: u8, list: &mut Proposals) -> Result<(), OutOfMemory> {
    for n in 0..65 {
        list.push((i, Event::Want { n }))?;
    }
    Ok(())
}

/// Proposes what ends by the current task: an implicit task, a region or an explicit task.
fn propose_ends(s: &State, i: u8, list: &mut Proposals) -> Result<(), OutOfMemory>
    requires { i < (state_of s.now).count }
{
    let Some(task) = s.thread(i as usize).current else {
        return Ok(());
    };
    list.push((i, Event::ImplicitEnd { task }))?;
    list.push((i, Event::Finish { task }))?;
    match s.task_of(task) {
        Some(t) => list.push((i, Event::Join { region: t.region })),
        None => Ok(()),
    }
}

/// Proposes a new task in a free slot, or a place that was seen taken.
fn propose_new(
    s: &State,
    i: u8,
    seen: u8,
    dice: &mut Dice,
    list: &mut Proposals,
) -> Result<(), OutOfMemory> {
    let task = Tid(some_fresh(s.tasks(), i, dice));
    list.push((i, Event::Seen { j: seen }))?;
    list.push((i, Event::Defer { task }))?;
    list.push((i, Event::StartNow { task }))
}

/// Proposes a fork in free slots.
fn propose_fork(s: &State, i: u8, dice: &mut Dice, list: &mut Proposals) -> Result<(), OutOfMemory>
    requires { i < (state_of s.now).count }
{
    let region = Rid(some_fresh(s.regions(), i, dice));
    let team = new_team(
        s,
        i,
        kept(s.tasks(), i as usize).saturating_add(dice.roll(3)),
    );
    list.push((i, Event::Fork { region, team }))
}

/// The event of an item that stands for one event, whatever the state.
fn event_of(x: Item) -> Option<Event> {
    match x {
        Item::Begin => Some(Event::Begin),
        Item::Offer => Some(Event::Offer),
        Item::State { state, wait } => Some(Event::State { state, wait }),
        Item::Enter => Some(Event::Enter),
        Item::Leave => Some(Event::Leave),
        Item::Arrive => Some(Event::Arrive),
        Item::Release => Some(Event::Release),
        Item::Pass => Some(Event::Pass),
        Item::WaitDone => Some(Event::WaitDone),
        Item::GroupBegin => Some(Event::GroupBegin),
        Item::GroupEnd => Some(Event::GroupEnd),
        Item::Yield => Some(Event::Yield),
        Item::Set { icv, value } => Some(Event::Set { icv, value }),
        Item::SetTool { x } => Some(Event::SetTool { x }),
        Item::Lock { k } => Some(Event::Lock { k }),
        Item::Unlock { k } => Some(Event::Unlock { k }),
        Item::Work => Some(Event::Work),
        Item::Call { f } => Some(Event::Call { f }),
        Item::Skip => Some(Event::Skip),
        Item::Ret => Some(Event::Ret),
        Item::Done => Some(Event::Done),
        _ => None,
    }
}

/// Proposes the events of an item.
fn propose(
    s: &State,
    i: u8,
    x: Item,
    dice: &mut Dice,
    list: &mut Proposals,
) -> Result<(), OutOfMemory>
    requires { i < (state_of s.now).count }
{
    match x {
        Item::Serve | Item::Tasks { .. } | Item::OneTask => propose_tasks(s, i, list),
        Item::Want { .. } => propose_sizes(i, list),
        Item::Asks => propose_asks(s, i, list),
        Item::Fork { .. } => propose_fork(s, i, dice, list),
        Item::Join | Item::ImplicitEnd | Item::Finish => propose_ends(s, i, list),
        Item::Defer { seen, .. } => propose_new(s, i, seen, dice, list),
        Item::StartNow { .. } => propose_new(s, i, 0, dice, list),
        _ => match event_of(x) {
            Some(e) => list.push((i, e)),
            None => Ok(()),
        },
    }
}

/// Proposes that a record is given back: a finished task, the task of a member, or a region.
fn propose_freed(
    s: &State,
    i: u8,
    next: Freeable,
    list: &mut Proposals,
) -> Result<(), OutOfMemory> {
    match next {
        Freeable::Finished { task } => list.push((i, Event::FreeTask { task })),
        Freeable::Joined { region, number } => {
            let at = number as usize;
            if let Some(r) = s.region_of(region) {
                if at < r.team.len() {
                    let task = r.team.get(at).0;
                    list.push((i, Event::FreeTask { task }))?;
                }
            }
            list.push((i, Event::FreeRegion { region }))
        }
    }
}

/// Proposes that what stands in front of a thread's list is given back, and the events that fit the list's head, and those
/// behind it that may be passed over to.
fn propose_thread(
    s: &State,
    i: u8,
    dice: &mut Dice,
    list: &mut Proposals,
) -> Result<(), OutOfMemory>
    requires { i < (state_of s.now).count }
{
    let (frees, items) = s.ahead_of(i as usize);
    if let Some(next) = frees {
        propose_freed(s, i, next, list)?;
    }
    for k in 0..items.len() {
        let x = *items.get(k);
        propose(s, i, head_item(s.encounter(i as usize), x), dice, list)?;
        if !may_pass_over(x) {
            return Ok(());
        }
    }
    Ok(())
}

/// Proposes the events of all threads.
fn proposals(alloc: Global, s: &State, dice: &mut Dice) -> Result<Proposals, OutOfMemory> {
    let mut list = Proposals::new(alloc);
    for i in 0..s.count() {
        let Ok(thread) = u8::try_from(i) else {
            return Ok(list);
        };
        propose_thread(s, thread, dice, &mut list)?;
    }
    Ok(list)
}

/// The first legal event from some place on: any, or one that gives a task back.
fn first_legal(
    p: &Program,
    s: &State,
    list: &Proposals,
    from: usize,
    frees: bool,
) -> Option<(u8, Event)> {
    for k in 0..list.len() {
        let (thread, e) = *list.get(k.saturating_add(from) % list.len());
        if (!frees || matches!(e, Event::FreeTask { .. })) && legal(p, s, thread, &e) {
            return Some((thread, e));
        }
    }
    None
}

/// The next event. A task that may be given back is: one that is passed over may live on, and then the barrier of its region is
/// not released.
fn pick(p: &Program, s: &State, list: &Proposals, from: usize) -> Option<(u8, Event)> {
    match first_legal(p, s, list, from, true) {
        Some(event) => Some(event),
        None => first_legal(p, s, list, from, false),
    }
}

/// Walks to the end of a program, with a view of each state for these contexts. None where no event is legal before, or
/// where a state isn't well formed.
fn walk(
    alloc: Global,
    p: &Program,
    contexts: &Natives,
    dice: &mut Dice,
    counts: &mut Counts,
) -> Result<Option<usize>, OutOfMemory> {
    let mut s = opening(alloc, p)?;
    for n in 0..MOST {
        let list = proposals(alloc, &s, dice)?;
        let Some((thread, e)) = pick(p, &s, &list, dice.roll(list.len())) else {
            return Ok(None);
        };
        if !legal(p, &s, thread, &e) {
            return Ok(None);
        }
        counts.count(&s, &e);
        after(alloc, p, &mut s, thread, &e)?;
        if !is_well_formed(&s) {
            return Ok(None);
        }
        let view = view_of(alloc, &s, contexts)?;
        if view.threads.len() != contexts.len() {
            return Ok(None);
        }
        if e == Event::Done {
            return Ok(Some(n));
        }
    }
    Ok(None)
}

#[test]
fn two_thousand_walks(rt: HostRuntime) -> Result<(), Fail> {
    let alloc = rt.alloc();
    let mut dice = Dice { state: 12 };
    let mut contexts = Natives::new(alloc);
    for native in 1000..1004 {
        contexts.push(native)?;
    }
    let mut counts = Counts {
        tasks: 0,
        members: 0,
        regions: 0,
        again: 0,
    };
    let mut events = 0usize;
    for n in 0..2000 {
        let p = parse(alloc, SCRIPTS[n % 9].as_bytes())?;
        match walk(alloc, &p, &contexts, &mut dice, &mut counts)? {
            Some(more) => events = events.saturating_add(more),
            None => assert!(rt; false, "walk {n}"),
        }
    }
    assert!(rt; events > 200000);
    assert!(rt; counts.tasks > 0 && counts.members > 0);
    assert!(rt; counts.regions > 0 && counts.again > 0);
    Ok(())
}
