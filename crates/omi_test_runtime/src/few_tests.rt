//! Random orders of workloads that take records again, whose threads have few records; each step judged by the machine. In the layouts of all families.

use crate::few_scripts::{
    CHAINS_OF_TASKS, GROUPS_AGAIN, LOCKS_AND_SETTINGS, TASKS_AND_WAITS, TASKS_AT_ONCE,
    TASKS_OF_LARGER_TEAMS, TEAMS_AGAIN, TEAMS_AND_TASKS_IN_TEAMS, TEAMS_IN_TEAMS_AGAIN,
    TEAMS_WITH_TASKS_AGAIN, Workload,
};
use crate::orders::{Dice, Manner, manner_of, steps, to_the_end};
use crate::scripts::FEW_OF_ONE_THREAD;
use crate::trial::{Few, Looks, Trial, Wrong};
use omi_model::{Event, Rid, Tid};
use std::alloc::Global;
use std::test::Fail;

/// How many orders each workload is run in with few records, in the layout of each family.
const ORDERS: u64 = 4;

/// The number of families.
const FAMILIES: u8 = 16;

/// How many steps of a run are made in its own manner, and more steps than it has.
const STEPS: (u64, u64) = (400, 6_000);

/// How many records the workloads of one thread take again in one run each: in the first, 19 of its 20 tasks, which all have one record; in the second
/// and the third, four of five tasks in each of two records; in the fourth, four of its five regions, and all of its five tasks, each behind a member; in
/// the fifth, three of its four regions, and 11 of its 12 tasks, which have one record.
const TAKEN_OF_ONE: usize = 19 + 8 + 8 + 9 + 14;

/// The generation of the record that an event takes, 0 where it takes none.
fn generation(e: &Event) -> u32 {
    match e {
        Event::Fork {
            region: Rid(id),
            ..
        } => id.generation,
        Event::Defer { task: Tid(id) } | Event::StartNow { task: Tid(id) } => id.generation,
        _ => 0,
    }
}

/// How many regions and explicit tasks of a run took a record that was given back.
fn taken_again(t: &Trial) -> usize {
    let events = t.core().events();
    let mut count = 0usize;
    for at in 0..events.len() {
        let (_, _, e) = events.get(at);
        if generation(&e) > 0 {
            count = count.wrapping_add(1);
        }
    }
    count
}

/// How many life words an event stores, or tells to have been stored for it.
fn lives(e: &Event) -> u64 {
    match e {
        Event::Fork { team, .. } => (team.len() as u64).wrapping_add(1),
        Event::Defer { .. } | Event::StartNow { .. } => 1,
        Event::FreeTask { .. } | Event::FreeRegion { .. } => 1,
        _ => 0,
    }
}

/// Whether the life words of a run that is done were raised once for each record that was taken, and for each that was given back.
fn each_life_is_told(t: &Trial) -> bool {
    let events = t.core().events();
    let mut told = 0u64;
    for at in 0..events.len() {
        let (_, _, e) = events.get(at);
        told = told.wrapping_add(lives(&e));
    }
    t.raised == told
}

/// What runs took again: how many records, and how many of the runs took any.
#[derive(Clone, Copy)]
struct Taken {
    records: usize,
    runs: u64,
}

/// No run.
const NOTHING: Taken = Taken {
    records: 0,
    runs: 0,
};

impl Taken {
    /// Adds a run.
    fn add(&mut self, records: usize) {
        self.records = self.records.saturating_add(records);
        if records > 0 {
            self.runs = self.runs.saturating_add(1);
        }
    }
}

/// Judges a run up to its end, and adds what it took again.
fn judge(t: &mut Trial, how: Manner, dice: &mut Dice, taken: &mut Taken) -> Result<(), Wrong> {
    to_the_end(t, how, dice, STEPS)?;
    if !each_life_is_told(t) {
        return Err(Wrong::Lives);
    }
    taken.add(taken_again(t));
    Ok(())
}

/// Judges a workload with few records, in the order of this number and the layout of a family.
fn judge_with_few(
    alloc: Global,
    workload: &Workload,
    k: u8,
    order: u64,
    dice: &mut Dice,
    taken: &mut Taken,
) -> Result<(), Wrong> {
    let (script, regions, tasks) = *workload;
    let few = Few { regions, tasks };
    let mut t = Trial::with_few(alloc, script, k, few, Looks::Seldom)?;
    judge(&mut t, manner_of(order), dice, taken)
}

/// Judges a workload in the layout of a family, once with all of its records, and in so many orders with few.
fn judge_in_family(
    alloc: Global,
    workload: &Workload,
    k: u8,
    orders: u64,
    dice: &mut Dice,
    taken: &mut Taken,
) -> Result<(), Wrong> {
    let mut t = Trial::opening(alloc, workload.0, k, Looks::Seldom)?;
    judge(&mut t, Manner::Even, dice, taken)?;
    for n in 0..orders {
        let order = u64::from(k).wrapping_mul(orders).wrapping_add(n);
        judge_with_few(alloc, workload, k, order, dice, taken)?;
    }
    Ok(())
}

/// Judges a workload in the layouts of all families, in so many orders each.
fn judge_workload(
    alloc: Global,
    workload: &Workload,
    orders: u64,
    dice: &mut Dice,
) -> Result<Taken, Wrong> {
    let mut taken = NOTHING;
    for k in 0..FAMILIES {
        judge_in_family(alloc, workload, k, orders, dice, &mut taken)?;
    }
    Ok(taken)
}

/// Judges workloads in the layouts of all families, in so many orders each, drawn from a seed. Answers how many records were taken again. Of each
/// workload more than half of the runs have to take some: in the others a worker came too late for the team.
fn all_judged(
    alloc: Global,
    workloads: &[Workload],
    orders: u64,
    seed: u64,
) -> Result<usize, Wrong> {
    let mut dice = Dice { state: seed };
    let mut again = 0usize;
    for workload in workloads {
        let taken = judge_workload(alloc, workload, orders, &mut dice)?;
        if taken.runs <= orders.wrapping_add(1).wrapping_mul(8) {
            return Err(Wrong::NoneAgain);
        }
        again = again.saturating_add(taken.records);
    }
    Ok(again)
}

/// Workloads of one thread, which have one order each.
#[test]
fn few_records_of_one_thread(rt: HostRuntime) -> Result<(), Fail> {
    let again = all_judged(rt.alloc(), &FEW_OF_ONE_THREAD, 1, 8)?;
    assert_eq!(rt; again, 2 * 16 * TAKEN_OF_ONE);
    Ok(())
}

#[test]
fn tasks_at_once(rt: HostRuntime) -> Result<(), Fail> {
    let again = all_judged(rt.alloc(), &TASKS_AT_ONCE, ORDERS, 9)?;
    assert!(rt; again > 520, "{again}");
    Ok(())
}

#[test]
fn teams_again(rt: HostRuntime) -> Result<(), Fail> {
    let again = all_judged(rt.alloc(), &TEAMS_AGAIN, ORDERS, 10)?;
    assert!(rt; again > 700, "{again}");
    Ok(())
}

#[test]
fn locks_and_settings(rt: HostRuntime) -> Result<(), Fail> {
    let again = all_judged(rt.alloc(), &LOCKS_AND_SETTINGS, ORDERS, 11)?;
    assert!(rt; again > 600, "{again}");
    Ok(())
}

#[test]
fn teams_in_teams_again(rt: HostRuntime) -> Result<(), Fail> {
    let again = all_judged(rt.alloc(), &TEAMS_IN_TEAMS_AGAIN, ORDERS, 12)?;
    assert!(rt; again > 330, "{again}");
    Ok(())
}

#[test]
fn tasks_and_waits(rt: HostRuntime) -> Result<(), Fail> {
    let again = all_judged(rt.alloc(), &TASKS_AND_WAITS, ORDERS, 13)?;
    assert!(rt; again > 850, "{again}");
    Ok(())
}

#[test]
fn tasks_of_larger_teams(rt: HostRuntime) -> Result<(), Fail> {
    let again = all_judged(rt.alloc(), &TASKS_OF_LARGER_TEAMS, ORDERS, 14)?;
    assert!(rt; again > 530, "{again}");
    Ok(())
}

#[test]
fn chains_of_tasks(rt: HostRuntime) -> Result<(), Fail> {
    let again = all_judged(rt.alloc(), &CHAINS_OF_TASKS, ORDERS, 15)?;
    assert!(rt; again > 1_200, "{again}");
    Ok(())
}

#[test]
fn teams_with_tasks_again(rt: HostRuntime) -> Result<(), Fail> {
    let again = all_judged(rt.alloc(), &TEAMS_WITH_TASKS_AGAIN, ORDERS, 16)?;
    assert!(rt; again > 1_250, "{again}");
    Ok(())
}

#[test]
fn teams_and_tasks_in_teams(rt: HostRuntime) -> Result<(), Fail> {
    let again = all_judged(rt.alloc(), &TEAMS_AND_TASKS_IN_TEAMS, ORDERS, 17)?;
    assert!(rt; again > 850, "{again}");
    Ok(())
}

#[test]
fn groups_again(rt: HostRuntime) -> Result<(), Fail> {
    let again = all_judged(rt.alloc(), &GROUPS_AGAIN, ORDERS, 20)?;
    assert!(rt; again > 600, "{again}");
    Ok(())
}

/// The workload behind two tasks of its initial task that start at once, the second one in the record of the first.
fn behind_two_tasks(alloc: Global, script: &str) -> Result<String, Wrong> {
    let Some((functions, statements)) = script.split_once("func main\n") else {
        return Err(Wrong::NoProgram);
    };
    let two = "func main\ntask w if 0\ntask w if 0\n";
    Ok(format!(in alloc; "{functions}{two}{statements}")?)
}

/// How many steps thread 0 makes alone before the others begin.
const FIRST: u64 = 100;

/// Judges a run: thread 0 alone, and then all threads in the order of this number. Answers the number of the first step that took a record again.
fn judge_again(t: &mut Trial, order: u64, dice: &mut Dice) -> Result<u64, Wrong> {
    steps(t, 0, FIRST, 0)?;
    let mut taken = NOTHING;
    judge(t, manner_of(order), dice, &mut taken)?;
    Ok(t.again)
}

/// Judges so a workload behind two tasks, with few records, in the layout of a family.
fn first_again(
    alloc: Global,
    workload: &Workload,
    k: u8,
    order: u64,
    dice: &mut Dice,
) -> Result<u64, Wrong> {
    let (script, regions, tasks) = *workload;
    let text = behind_two_tasks(alloc, script)?;
    let few = Few { regions, tasks };
    let mut t = Trial::with_few(alloc, &text, k, few, Looks::Seldom)?;
    judge_again(&mut t, order, dice)
}

/// How many of these workloads take a record again within the first 100 steps, in each of four families.
fn soon_again(alloc: Global, workloads: &[Workload], dice: &mut Dice) -> Result<usize, Wrong> {
    let mut count = 0usize;
    for at in 0..workloads.len() {
        let mut is_soon = true;
        for n in 0..4u64 {
            let order = n.wrapping_mul(4).wrapping_add(at as u64 % 4);
            let k = (order % u64::from(FAMILIES)) as u8;
            let again = first_again(alloc, &workloads[at], k, order, dice)?;
            is_soon = is_soon && 0 < again && again <= FIRST;
        }
        if is_soon {
            count = count.wrapping_add(1);
        }
    }
    Ok(count)
}

/// Each of the 49 workloads, behind two tasks, takes a record again within 100 steps.
#[test]
fn again_within_a_hundred_steps(rt: HostRuntime) -> Result<(), Fail> {
    let alloc = rt.alloc();
    let mut dice = Dice { state: 18 };
    let mut count = 0usize;
    for workloads in [
        FEW_OF_ONE_THREAD.as_slice(),
        TASKS_AT_ONCE.as_slice(),
        TEAMS_AGAIN.as_slice(),
        LOCKS_AND_SETTINGS.as_slice(),
        TEAMS_IN_TEAMS_AGAIN.as_slice(),
        TASKS_AND_WAITS.as_slice(),
        TASKS_OF_LARGER_TEAMS.as_slice(),
        CHAINS_OF_TASKS.as_slice(),
        TEAMS_WITH_TASKS_AGAIN.as_slice(),
        TEAMS_AND_TASKS_IN_TEAMS.as_slice(),
        GROUPS_AGAIN.as_slice(),
    ] {
        count = count.wrapping_add(soon_again(alloc, workloads, &mut dice)?);
    }
    assert_eq!(rt; count, 49);
    Ok(())
}
