//! A team of as many threads as a program can have, judged where all of its threads come to the same event.

use crate::orders::until;
use crate::scripts::SIXTY_FOUR_THREADS;
use crate::trial::{Looks, Trial, Wrong};
use std::test::Fail;

/// The number of its threads.
const THREADS: u8 = 64;

/// Each thread from this one on up to an event whose line begins so, and the words behind it.
fn each_until(t: &mut Trial, from: u8, event: &str) -> Result<(), Wrong> {
    for i in from..THREADS {
        until(t, i, event)?;
    }
    t.compare()
}

/// One thread up to such an event, and the words behind it.
fn one_until(t: &mut Trial, i: u8, event: &str) -> Result<(), Wrong> {
    until(t, i, event)?;
    t.compare()
}

#[test]
fn a_team_of_all_threads(rt: HostRuntime) -> Result<(), Fail> {
    let mut t = Trial::opening(rt.alloc(), SIXTY_FOUR_THREADS, 0, Looks::Seldom)?;
    each_until(&mut t, 1, "offer")?;
    one_until(&mut t, 0, "ask 63 got")?;
    one_until(&mut t, 0, "fork r0.1.0 size 64 team ")?;
    one_until(&mut t, 0, "state work_parallel 0")?;
    each_until(&mut t, 1, "implicit_begin k0.")?;
    for _ in 0..2u8 {
        each_until(&mut t, 0, "arrive")?;
        each_until(&mut t, 0, "pass")?;
    }
    each_until(&mut t, 1, "implicit_end k0.")?;
    each_until(&mut t, 1, "offer")?;
    one_until(&mut t, 0, "join r0.1.0")?;
    one_until(&mut t, 0, "done")?;
    Ok(())
}
