//! When a stop is called, by what the workers said last, and where they wait for it. No clause rests on it.

ghost use Rattle.omi_park.specs.Work.{IsTableFor, IsTableOf};

use crate::limits::{HALF, LEFT, MOST_LOOKS, MOST_LOOKS_FOR_CALL, STEPS_UNTOLD};
use crate::table::{Words, acknowledgement_place};
use omi_layout::Layout;
use omi_script::Program;
use std::thread::yield_now;

/// The budget of each worker in equal shares, one more than there are stops. A stop, counted from 1, is due for a worker that has made as many shares.
#[derive(Clone, Copy)]
pub(crate) struct Shares {
    budget: u64,
    stops: u8,
}

impl Shares {
    /// The shares of so many steps, for so many stops.
    pub(crate) fn of(budget: u64, stops: u8) -> Shares {
        Shares { budget, stops }
    }

    /// Whether a stop is due for a worker that has made so many steps.
    fn is_due(&self, stop: u64, made: u64) -> bool {
        made.saturating_mul(u64::from(self.stops) + 1) >= stop.saturating_mul(self.budget)
    }

    /// Whether a stop is due for a worker that says so many steps, and was not when it said fewer.
    fn comes_due(&self, stop: u64, made: u64) -> bool {
        self.is_due(stop, made) && !self.is_due(stop, made.saturating_sub(STEPS_UNTOLD))
    }
}

/// What the workers said last: how many steps they have made at least, and whether a stop is due for each that has not left.
#[derive(Clone, Copy)]
struct Progress {
    made: u64,
    is_due: bool,
}

impl Progress {
    /// By a look at each acknowledgement.
    fn of(p: &Program, l: &Layout, words: &Words, shares: &Shares, stop: u64) -> Progress
        requires table { IsTableFor p.now l.now words.now.key words.now.table_id }
    {
        let mut progress = Progress {
            made: 0,
            is_due: true,
        };
        for thread in 0..p.threads {
            let said = words.peek(acknowledgement_place(l, words, thread));
            let steps = said % HALF;
            progress.made = progress.made.saturating_add(steps);
            if said / LEFT == 0 && !shares.is_due(stop, steps) {
                progress.is_due = false;
            }
        }
        progress
    }
}

/// Looks until the workers have made more than so many steps or the stop is due, `MOST_LOOKS` times at most, with no pause.
fn await_more(
    p: &Program,
    l: &Layout,
    words: &Words,
    shares: &Shares,
    stop: u64,
    made: u64,
) -> Option<Progress>
    requires table { IsTableFor p.now l.now words.now.key words.now.table_id }
{
    for _look in 0..MOST_LOOKS {
        let now = Progress::of(p, l, words, shares, stop);
        if now.made > made || now.is_due {
            return Some(now);
        }
    }
    None
}

/// The inspector waits until a stop is due for each worker that has not left, or for as long as the number of their steps rises.
pub(crate) fn await_due(p: &Program, l: &Layout, words: &Words, shares: &Shares, stop: u64)
    requires table { IsTableFor p.now l.now words.now.key words.now.table_id }
{
    let mut now = Progress::of(p, l, words, shares, stop);
    for _rise in 0..u64::from(p.threads).saturating_mul(shares.budget) {
        if now.is_due {
            return;
        }
        let Some(next) = await_more(p, l, words, shares, stop, now.made) else {
            return;
        };
        now = next;
    }
}

/// A worker that has made so many steps, and has said so, waits where the next stop has just come due for it: until this is called, or for
/// `MOST_LOOKS_FOR_CALL` looks. Behind 1, 2, 4, 8 looks and so on it lets another thread run, since beside busy programs each time costs a time slice.
pub(crate) fn await_call(l: &Layout, words: &Words, shares: &Shares, made: u64)
    requires at { IsTableOf l.now words.now.key words.now.table_id }
{
    if made % STEPS_UNTOLD != 0 {
        return;
    }
    let epoch = words.peek(l.image_words());
    if epoch % 2 == 1 || !shares.comes_due(epoch / 2 + 1, made) {
        return;
    }
    for look in 1..MOST_LOOKS_FOR_CALL {
        if words.peek(l.image_words()) != epoch {
            return;
        }
        if look.is_power_of_two() {
            yield_now();
        }
    }
}
