//! Gates that hold the inspector and the workers until others come, each for a bounded number of turns.

use omi_outside::Gate;
use omi_park::INSPECTOR;
use std::sync::atomic::AtomicU64;
use std::sync::atomic::Ordering::SeqCst;
use std::thread::yield_now;

/// So many turns a hold lasts at most.
const MOST_TURNS: u64 = 100_000_000;

/// How many holds ended in vain.
#[derive(Drop)]
pub struct Holds {
    late: AtomicU64,
}

impl Holds {
    pub fn new() -> Holds {
        Holds {
            late: AtomicU64::new(0),
        }
    }

    /// Whether every hold ended by its event.
    pub fn all_ended(&self) -> bool {
        self.late.load(SeqCst) == 0
    }

    /// Waits until so many came. Once a hold was in vain, nobody is held any more.
    fn hold(&self, came: &AtomicU64, wanted: u64) {
        for _turn in 0..MOST_TURNS {
            if came.load(SeqCst) >= wanted || self.late.load(SeqCst) != 0 {
                return;
            }
            yield_now();
        }
        self.late.fetch_add(1, SeqCst);
    }
}

/// Holds the inspector before its first call until so many threads have passed a step, and each thread before a later step until the
/// inspector has called.
#[derive(Drop)]
pub struct MidRun {
    pub holds: Holds,
    threads: u64,
    passed: u64,
    held: u64,
    came: AtomicU64,
    called: AtomicU64,
}

impl MidRun {
    pub fn of(threads: u64, passed: u64, held: u64) -> MidRun {
        MidRun {
            holds: Holds::new(),
            threads,
            passed,
            held,
            came: AtomicU64::new(0),
            called: AtomicU64::new(0),
        }
    }
}

impl Gate for MidRun {
    fn pass(&self, thread: u8, step: u64) {
        if thread == INSPECTOR {
            if step == 1 {
                self.holds.hold(&self.came, self.threads);
            }
            if step == 2 {
                self.called.store(1, SeqCst);
            }
            return;
        }
        if step == self.passed {
            self.came.fetch_add(1, SeqCst);
        }
        if step == self.held {
            self.holds.hold(&self.called, 1);
        }
    }
}

/// Holds one thread before a step until the inspector has called for its first stop, and before a later one until it has called for its second;
/// and the inspector before each call until the thread has come there. A run has as many stops as there are steps, which are one or two.
#[derive(Drop)]
pub struct AtSteps {
    pub holds: Holds,
    thread: u8,
    first: u64,
    second: Option<u64>,
    came: AtomicU64,
    called: AtomicU64,
}

impl AtSteps {
    pub fn of(thread: u8, first: u64, second: Option<u64>) -> AtSteps {
        AtSteps {
            holds: Holds::new(),
            thread,
            first,
            second,
            came: AtomicU64::new(0),
            called: AtomicU64::new(0),
        }
    }

    /// The inspector comes to the call for a stop, which is counted from 1, or has called for it.
    fn pass_inspector(&self, number: u64) {
        let stop = number.div_ceil(2);
        if number % 2 == 1 {
            self.holds.hold(&self.came, stop);
        } else {
            self.called.store(stop, SeqCst);
        }
    }

    /// The thread comes to the step at which it stands in a stop.
    fn pass_thread(&self, stop: u64) {
        self.came.store(stop, SeqCst);
        self.holds.hold(&self.called, stop);
    }
}

impl Gate for AtSteps {
    fn pass(&self, thread: u8, step: u64) {
        if thread == INSPECTOR {
            self.pass_inspector(step);
        } else if thread == self.thread && step == self.first {
            self.pass_thread(1);
        } else if thread == self.thread && Some(step) == self.second {
            self.pass_thread(2);
        }
    }
}

/// Sees the numbers that the inspector passes it with.
#[derive(Drop)]
pub struct Counting {
    last: AtomicU64,
    passes: AtomicU64,
    in_turn: AtomicU64,
    steps: AtomicU64,
}

impl Counting {
    pub fn new() -> Counting {
        Counting {
            last: AtomicU64::new(0),
            passes: AtomicU64::new(0),
            in_turn: AtomicU64::new(0),
            steps: AtomicU64::new(0),
        }
    }

    /// How often the inspector passed it, and how often with the number behind the one before.
    pub fn passes(&self) -> (u64, u64) {
        (self.passes.load(SeqCst), self.in_turn.load(SeqCst))
    }

    /// How often the threads passed it.
    pub fn steps(&self) -> u64 {
        self.steps.load(SeqCst)
    }
}

impl Gate for Counting {
    fn pass(&self, thread: u8, step: u64) {
        if thread != INSPECTOR {
            self.steps.fetch_add(1, SeqCst);
            return;
        }
        self.passes.fetch_add(1, SeqCst);
        if self.last.swap(step, SeqCst).wrapping_add(1) == step {
            self.in_turn.fetch_add(1, SeqCst);
        }
    }
}
