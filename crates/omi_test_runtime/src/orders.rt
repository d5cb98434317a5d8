//! Orders of the threads of a run.

use crate::trial::{Trial, Wrong};
use omi_rep::Outcome;

/// More steps than a thread makes to come to what it is waited for.
const LONG: u32 = 10_000;

/// Steps a thread up to an event whose line begins so.
pub fn until(t: &mut Trial, i: u8, event: &str) -> Result<(), Wrong> {
    for _ in 0..LONG {
        if let Some(Outcome::Event(e)) = t.step(i)? {
            if t.begins(i, &e, event)? {
                return Ok(());
            }
        }
    }
    Err(Wrong::TooLong)
}

/// The threads in turn, from thread 0 on, for so many steps or up to the first event whose line begins so.
pub fn in_turn(t: &mut Trial, steps: u64, event: &str) -> Result<(), Wrong> {
    let threads = t.core().threads();
    for n in 0..steps {
        let i = (n % u64::from(threads)) as u8;
        if let Some(Outcome::Event(e)) = t.step(i)? {
            if t.begins(i, &e, event)? {
                return Ok(());
            }
        }
    }
    Ok(())
}

/// Pseudo-random numbers from a seed.
#[derive(Drop)]
pub struct Dice {
    pub state: u64,
}

impl Dice {
    /// A number below another one, or 0.
    pub fn roll(&mut self, below: u64) -> u64 {
        self.state = self
            .state
            .wrapping_mul(6_364_136_223_846_793_005)
            .wrapping_add(1_442_695_040_888_963_407);
        if below == 0 {
            0
        } else {
            (self.state >> 33) % below
        }
    }
}

/// How a random order goes.
#[derive(Clone, Copy)]
pub enum Manner {
    /// A thread is drawn for each step.
    Even,
    /// A thread that is drawn makes up to 40 steps.
    Bursts,
    /// One thread makes a step only where another draw falls on it too.
    Slow(u8),
}

/// The manner of an order by its number.
pub fn manner_of(order: u64) -> Manner {
    match order % 4 {
        0 => Manner::Bursts,
        1 => Manner::Slow((order / 4 % 3) as u8),
        _ => Manner::Even,
    }
}

/// For how many steps the thread that is drawn goes on.
fn burst(manner: Manner, i: u8, dice: &mut Dice) -> u64 {
    match manner {
        Manner::Even => 1,
        Manner::Bursts => 1 + dice.roll(40) % 40,
        Manner::Slow(slow) => if i == slow && dice.roll(16) != 0 {
            0
        } else {
            1
        },
    }
}

/// So many steps of a thread. Answers how many of them in a row, up to the last one, found it not ready.
pub fn steps(t: &mut Trial, i: u8, count: u64, idle: u64) -> Result<u64, Wrong> {
    let mut idle = idle;
    for _ in 0..count {
        idle = match t.step(i)? {
            Some(Outcome::Quiet | Outcome::Event(_)) => 0,
            _ => idle.wrapping_add(1),
        };
    }
    Ok(idle)
}

/// Threads in a random order, until no thread has gone on for long, or so many steps were made.
pub fn at_random(t: &mut Trial, manner: Manner, dice: &mut Dice, most: u64) -> Result<(), Wrong> {
    let threads = u64::from(t.core().threads());
    let mut idle = 0u64;
    for _ in 0..most {
        let i = u8::try_from(dice.roll(threads)).unwrap_or(0);
        let count = burst(manner, i, dice);
        idle = steps(t, i, count, idle)?;
        if t.core().steps() >= most || idle > threads.wrapping_mul(50) {
            break;
        }
    }
    t.compare()
}

/// So many steps in a random order, and then an even one up to the end of the program, in fewer than so many steps.
pub fn to_the_end(
    t: &mut Trial,
    manner: Manner,
    dice: &mut Dice,
    most: (u64, u64),
) -> Result<(), Wrong> {
    let (first, all) = most;
    at_random(t, manner, dice, first)?;
    for _ in 0..all {
        if let Some(Outcome::Ended) = t.step(0)? {
            return t.compare();
        }
        if t.core().steps() >= all {
            break;
        }
        at_random(t, Manner::Even, dice, all)?;
    }
    Err(Wrong::TooLong)
}
