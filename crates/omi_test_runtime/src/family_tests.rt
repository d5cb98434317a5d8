//! The same orders of threads in the layouts of all sixteen families: the same events.

use crate::orders::{Dice, Manner, at_random};
use crate::scripts::{A_CONTESTED_WORKER, LIMIT_OF_ACTIVE_LEVELS, TOO_FEW_THREADS};
use crate::trial::{Looks, Trial, Wrong};
use omi_fixture_rows::A_TEAM_OF_TWO;
use std::alloc::Global;
use std::test::Fail;

/// How many orders each workload is run in.
const ORDERS: u64 = 4;

/// More steps than a run has.
const MOST: u64 = 4_000;

const ROWS: [&str; 4] = [
    A_TEAM_OF_TWO,
    TOO_FEW_THREADS,
    A_CONTESTED_WORKER,
    LIMIT_OF_ACTIVE_LEVELS,
];

/// A run in the layout of a family, by an order from a seed.
fn run(alloc: Global, script: &str, k: u8, seed: u64) -> Result<Trial, Wrong> {
    let mut t = Trial::opening(alloc, script, k, Looks::EachEvent)?;
    let mut dice = Dice { state: seed };
    at_random(&mut t, Manner::Even, &mut dice, MOST)?;
    Ok(t)
}

/// Whether two runs have the same events, by the same threads at the same steps.
fn are_same(a: &Trial, b: &Trial) -> bool {
    let (a, b) = (a.core().events(), b.core().events());
    if a.len() != b.len() {
        return false;
    }
    for at in 0..a.len() {
        if a.get(at) != b.get(at) {
            return false;
        }
    }
    true
}

/// The number of families but the first whose run by an order from a seed is the same as that of the first.
fn same_families(alloc: Global, script: &str, seed: u64) -> Result<u8, Wrong> {
    let first = run(alloc, script, 0, seed)?;
    let mut same = 0u8;
    for k in 1..16u8 {
        let other = run(alloc, script, k, seed)?;
        if first.core().events().len() > 10 && are_same(&first, &other) {
            same = same.wrapping_add(1);
        }
    }
    Ok(same)
}

#[test]
fn sixteen_families(rt: HostRuntime) -> Result<(), Fail> {
    for script in ROWS.iter() {
        for seed in 0..ORDERS {
            let same = same_families(rt.alloc(), script, seed)?;
            assert_eq!(rt; same, 15);
        }
    }
    Ok(())
}
