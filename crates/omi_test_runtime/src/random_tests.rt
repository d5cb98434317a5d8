//! Random orders of threads over many workloads, each step judged by the machine.

use crate::orders::{Dice, at_random, manner_of};
use crate::scripts::{CALLS, EXAMPLES, GROUPS, LEVELS, MANY_THREADS, SETTINGS, TASKS, TEAMS};
use crate::trial::{Looks, Trial, Wrong};
use std::alloc::Global;
use std::test::Fail;

/// How many orders each workload is run in.
const ORDERS: u64 = 96;

/// The same of workloads that mostly have one thread.
const ORDERS_OF_ONE: u64 = 8;

/// The same of workloads of many threads.
const ORDERS_OF_MANY: u64 = 24;

/// More steps than a run has.
const MOST: u64 = 6_000;

/// Judges a workload in an order, in the layout of some family. The words are compared with the state at one of eight events at least, before the first
/// step and behind the last one.
fn judged(alloc: Global, script: &str, order: u64, dice: &mut Dice) -> Result<Trial, Wrong> {
    let looks = if order / 4 % 2 == 0 {
        Looks::EachEvent
    } else {
        Looks::Seldom
    };
    let family = (dice.roll(16) % 16) as u8;
    let mut t = Trial::opening(alloc, script, family, looks)?;
    at_random(&mut t, manner_of(order), dice, MOST)?;
    if t.compared < (t.core().events().len() as u64 / 8).wrapping_add(2) {
        return Err(Wrong::Unseen);
    }
    Ok(t)
}

/// Judges a workload in so many orders, and answers the number of events.
fn judged_in(alloc: Global, script: &str, orders: u64, dice: &mut Dice) -> Result<usize, Wrong> {
    let mut events = 0usize;
    for order in 0..orders {
        let t = judged(alloc, script, order, dice)?;
        events = events.saturating_add(t.core().events().len());
    }
    Ok(events)
}

/// Judges workloads, each in so many orders, drawn from a seed, and answers the number of events.
fn all_judged(alloc: Global, scripts: &[&str], orders: u64, seed: u64) -> Result<usize, Wrong> {
    let mut dice = Dice { state: seed };
    let mut events = 0usize;
    for script in scripts {
        events = events.saturating_add(judged_in(alloc, script, orders, &mut dice)?);
    }
    Ok(events)
}

#[test]
fn examples(rt: HostRuntime) -> Result<(), Fail> {
    let events = all_judged(rt.alloc(), &EXAMPLES, ORDERS_OF_ONE, 1)?;
    assert!(rt; events > 150, "{events}");
    Ok(())
}

#[test]
fn teams(rt: HostRuntime) -> Result<(), Fail> {
    let events = all_judged(rt.alloc(), &TEAMS, ORDERS, 2)?;
    assert!(rt; events > 6_000, "{events}");
    Ok(())
}

#[test]
fn levels(rt: HostRuntime) -> Result<(), Fail> {
    let events = all_judged(rt.alloc(), &LEVELS, ORDERS, 6)?;
    assert!(rt; events > 9_000, "{events}");
    Ok(())
}

#[test]
fn many_threads(rt: HostRuntime) -> Result<(), Fail> {
    let events = all_judged(rt.alloc(), &MANY_THREADS, ORDERS_OF_MANY, 3)?;
    assert!(rt; events > 4_000, "{events}");
    Ok(())
}

#[test]
fn calls(rt: HostRuntime) -> Result<(), Fail> {
    let events = all_judged(rt.alloc(), &CALLS, ORDERS, 4)?;
    assert!(rt; events > 20_000, "{events}");
    Ok(())
}

#[test]
fn settings(rt: HostRuntime) -> Result<(), Fail> {
    let events = all_judged(rt.alloc(), &SETTINGS, ORDERS, 5)?;
    assert!(rt; events > 10_000, "{events}");
    Ok(())
}

#[test]
fn tasks(rt: HostRuntime) -> Result<(), Fail> {
    let events = all_judged(rt.alloc(), &TASKS, ORDERS_OF_MANY, 7)?;
    assert!(rt; events > 20_000, "{events}");
    Ok(())
}

#[test]
fn groups(rt: HostRuntime) -> Result<(), Fail> {
    let events = all_judged(rt.alloc(), &GROUPS, ORDERS_OF_MANY, 19)?;
    assert!(rt; events > 10_000, "{events}");
    Ok(())
}
