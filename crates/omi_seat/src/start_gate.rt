// A gate at which all threads wait until each can be taken into a team.
ghost use Rattle.std.specs.Prelude.{◌≡◌};
ghost use Rattle.omi_seat.specs.Gates.{turns_of};

use omi_layout::MOST_THREADS;
use omi_outside::Gate;
use std::hint::spin_loop;
use std::sync::atomic::AtomicU64;
use std::sync::atomic::Ordering::SeqCst;
use std::thread::yield_now;

/// A thread other than the initial one has offered itself to teams behind its second step, so before this one.
const OFFERED: u64 = 3;

/// So many turns a thread waits at most. Between two of them it lets another thread run, where there is one that can.
pub const MOST_TURNS: u64 = 4_000;

/// How often a thread looks in one turn.
const LOOKS: u64 = 20_000;

/// Behind so many steps a thread lets another one run. So a thread that waits for others leaves them a processor before its budget ends.
const STEPS_IN_A_ROW: u64 = 100;

/// Holds thread 0 before its first step, and each other thread behind its offer to teams, until all of them have offered themselves. Once
/// a thread has waited all its turns, no thread waits any more. Where the budget has no third step, none waits at all. Now and then a
/// thread lets another one run. Whoever passes with a number behind those of all threads, as an inspector does, waits before its first
/// pass alone: a stop before the offers would hold the threads for which thread 0 waits.
#[derive(Drop)]
pub struct StartGate {
    turns: u64,
    awaited: AtomicU64,
    offered: AtomicU64,
}

impl StartGate {
    /// A gate at which each thread waits for at most so many turns. Whom it holds is counted anew where it is opened.
    pub fn of(turns: u64) -> StartGate
        ensures turns { turns_of result ≡ turns }
    {
        StartGate {
            turns,
            awaited: AtomicU64::new(0),
            offered: AtomicU64::new(0),
        }
    }

    /// Looks for one turn whether all that are awaited have offered themselves.
    fn is_open(&self) -> bool {
        for _look in 0..LOOKS {
            if self.offered.load(SeqCst) >= self.awaited.load(SeqCst) {
                return true;
            }
            spin_loop();
        }
        false
    }

    /// Waits until all that are awaited have offered themselves, or lets everyone pass where the turns are over.
    fn wait(&self) {
        for _turn in 0..self.turns {
            if self.is_open() {
                return;
            }
            yield_now();
        }
        self.awaited.store(0, SeqCst);
    }
}

impl Gate for StartGate {
    fn open(&self, threads: u8, budget: u64) {
        let others = if budget >= OFFERED {
            u64::from(threads.saturating_sub(1))
        } else {
            0
        };
        self.offered.store(0, SeqCst);
        self.awaited.store(others, SeqCst);
    }

    fn pass(&self, thread: u8, step: u64) {
        if u64::from(thread) >= MOST_THREADS {
            if step == 1 {
                self.wait();
            }
            return;
        }
        if step % STEPS_IN_A_ROW == 0 {
            yield_now();
        }
        if thread == 0 && step == 1 {
            self.wait();
        }
        if thread != 0 && step == OFFERED {
            self.offered.fetch_add(1, SeqCst);
            self.wait();
        }
    }
}
