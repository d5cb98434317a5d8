//! Gates that hold threads until others come, each for a bounded number of turns.

use omi_outside::Gate;
use omi_seat::StartGate;
use std::sync::atomic::AtomicU64;
use std::sync::atomic::Ordering::SeqCst;
use std::thread::yield_now;

/// So many turns a thread waits at most.
const MOST_TURNS: u64 = 4_000_000;

/// Waits until so many came, and answers whether they did. Once a wait was in vain, nobody waits any more.
fn waits(came: &AtomicU64, wanted: u64, late: &AtomicU64) -> bool {
    for _turn in 0..MOST_TURNS {
        if came.load(SeqCst) == wanted {
            return true;
        }
        if late.load(SeqCst) != 0 {
            return false;
        }
        yield_now();
    }
    late.store(1, SeqCst);
    false
}

/// Holds each thread before its second step, until all threads have come there.
#[derive(Drop)]
pub struct Meeting {
    threads: u64,
    told_threads: AtomicU64,
    told_budget: AtomicU64,
    passes: AtomicU64,
    came: AtomicU64,
    met: AtomicU64,
    late: AtomicU64,
}

impl Meeting {
    pub fn of(threads: u64) -> Meeting {
        Meeting {
            threads,
            told_threads: AtomicU64::new(0),
            told_budget: AtomicU64::new(0),
            passes: AtomicU64::new(0),
            came: AtomicU64::new(0),
            met: AtomicU64::new(0),
            late: AtomicU64::new(0),
        }
    }

    /// How many threads saw all others come.
    pub fn met(&self) -> u64 {
        self.met.load(SeqCst)
    }

    /// The number of threads and the budget that it was told before it was passed.
    pub fn opened(&self) -> (u64, u64) {
        (
            self.told_threads.load(SeqCst),
            self.told_budget.load(SeqCst),
        )
    }

    /// How often it was passed.
    pub fn passes(&self) -> u64 {
        self.passes.load(SeqCst)
    }
}

impl Gate for Meeting {
    fn open(&self, threads: u8, budget: u64) {
        if self.passes.load(SeqCst) == 0 {
            self.told_threads.store(u64::from(threads), SeqCst);
            self.told_budget.store(budget, SeqCst);
        }
    }

    fn pass(&self, _thread: u8, step: u64) {
        self.passes.fetch_add(1, SeqCst);
        if step == 2 {
            self.came.fetch_add(1, SeqCst);
            if waits(&self.came, self.threads, &self.late) {
                self.met.fetch_add(1, SeqCst);
            }
        }
    }
}

/// Lets one thread make its first step alone: it is held before it, and each other thread before a step of its own, until all are held.
/// The others are let go when it comes to its second step, which is behind all that comes of its first.
#[derive(Drop)]
pub struct Leading {
    threads: u64,
    leader: u8,
    step: u64,
    held: AtomicU64,
    led: AtomicU64,
    let_go: AtomicU64,
    late: AtomicU64,
}

impl Leading {
    /// The others are held before this step.
    pub fn by(leader: u8, threads: u64, step: u64) -> Leading {
        Leading {
            threads,
            leader,
            step,
            held: AtomicU64::new(0),
            led: AtomicU64::new(0),
            let_go: AtomicU64::new(0),
            late: AtomicU64::new(0),
        }
    }

    /// How many threads were held until they were to be let go.
    pub fn let_go(&self) -> u64 {
        self.let_go.load(SeqCst)
    }

    /// Holds a thread until so many came.
    fn hold(&self, came: &AtomicU64, wanted: u64) {
        self.held.fetch_add(1, SeqCst);
        if waits(came, wanted, &self.late) {
            self.let_go.fetch_add(1, SeqCst);
        }
    }
}

impl Gate for Leading {
    fn pass(&self, thread: u8, step: u64) {
        if thread != self.leader && step == self.step {
            self.hold(&self.led, 1);
        }
        if thread == self.leader && step == 1 {
            self.hold(&self.held, self.threads);
        }
        if thread == self.leader && step == 2 {
            self.led.store(1, SeqCst);
        }
    }
}

/// The gate at which all wait until each has offered itself, which also sees how many others were there when thread 0 went on.
#[derive(Drop)]
pub struct Starting {
    gate: StartGate,
    came: AtomicU64,
    seen: AtomicU64,
}

impl Starting {
    pub fn new() -> Starting {
        Starting {
            gate: StartGate::of(MOST_TURNS),
            came: AtomicU64::new(0),
            seen: AtomicU64::new(0),
        }
    }

    /// How many threads stood behind their second step when thread 0 made its first one.
    pub fn seen(&self) -> u64 {
        self.seen.load(SeqCst)
    }
}

impl Gate for Starting {
    fn open(&self, threads: u8, budget: u64) {
        self.gate.open(threads, budget);
    }

    fn pass(&self, thread: u8, step: u64) {
        if thread != 0 && step == 3 {
            self.came.fetch_add(1, SeqCst);
        }
        self.gate.pass(thread, step);
        if thread == 0 && step == 1 {
            self.seen.store(self.came.load(SeqCst), SeqCst);
        }
    }
}
