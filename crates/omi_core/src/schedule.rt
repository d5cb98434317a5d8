//! Which thread makes each step of a run.

ghost use Rattle.std.specs.Prelude.{◌≡◌, ◌<◌, ◌+◌};
ghost use Rattle.omi_core.specs.Schedules.{IsDrawn, IsListed, first_draw, next_draw, next_number, thread_at};

use omi_script::NumList;

/// The factor of the generator of pseudo-random numbers.
pub const FACTOR: u64 = 6_364_136_223_846_793_005;

/// What the generator adds.
pub const SUMMAND: u64 = 1_442_695_040_888_963_407;

/// Which thread makes each step of a run.
#[derive(Drop)]
pub enum Schedule {
    /// The threads in turn, from thread 0 on.
    RoundRobin,
    /// Threads by pseudo-random numbers, from this seed on.
    Seed(u64),
    /// These threads, one for each step.
    List(NumList),
}

/// The pseudo-random number behind a number.
pub fn next_number(x: u64) -> u64
    ensures { result ≡ next_number x }
{
    x.wrapping_mul(FACTOR).wrapping_add(SUMMAND)
}

/// The number that is drawn for the first step of a run.
pub fn first_draw(how: &Schedule) -> u64
    ensures { result ≡ first_draw how.now }
{
    match how {
        Schedule::Seed(seed) => next_number(*seed),
        _ => 0,
    }
}

/// What is drawn for the step behind one for which this was drawn.
pub fn next_draw(how: &Schedule, threads: u8, draw: u64) -> u64
    ensures { result ≡ next_draw how.now threads draw }
{
    match how {
        Schedule::RoundRobin => {
            if draw < u64::from(threads).saturating_sub(1) {
                draw + 1
            } else {
                0
            }
        }
        Schedule::Seed(_) => next_number(draw),
        Schedule::List(_) => 0,
    }
}

/// The thread that makes step `step` of a run, counted from 0, of so many threads, where this was drawn for the step.
pub fn thread_at(how: &Schedule, threads: u8, step: u64, draw: u64) -> u8
    requires some { 0 < threads }
    requires drawn { IsDrawn how.now threads step draw }
    requires listed { IsListed how.now threads (step + 1) }
    ensures { result ≡ thread_at how.now threads step }
{
    match how {
        Schedule::RoundRobin => draw as u8,
        Schedule::Seed(_) => ((draw >> 33) % u64::from(threads)) as u8,
        Schedule::List(list) => *list.get(step as usize) as u8,
    }
}
