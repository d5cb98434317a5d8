//! A worker: a thread of a program at a seat of its own, and what it keeps of its steps.

ghost use Rattle.std.specs.Prelude.{◌≡◌};
ghost use Rattle.omi_rep.specs.Suits.{Suits};
ghost use Rattle.omi_step_words.specs.Outcomes.{outcome_of};
ghost use Rattle.omi_seat.specs.declared.known.Known.{Known};
ghost use Rattle.omi_seat.specs.StepLog.{IsLogOf};
ghost use Rattle.omi_seat.specs.Worker.{HasStepped, MayStep, TellsSeats};

use crate::operation::apply;
use crate::step_log::StepLog;
use atomic_table::{Play, Seat, Shared, TableRule};
use omi_actor::next;
use omi_layout::Layout;
use omi_list::List;
use omi_script::Program;
use omi_step_words::CompactOutcome;

/// A thread at work. What its seat knows is a list with one part, that of the thread. Its events have the numbers of its own steps.
pub struct Worker<X> {
    pub seat: Seat<(), List<X>>,
    pub log: StepLog,
}

// Written out: docs/DECISIONS.md, "A drop written out".
impl<X> Drop for Worker<X> {
    fn drop(self) {
        let Worker {
            seat: _seat,
            log: _log,
        } = self;
    }
}

impl<X> Worker<X> {
    /// Its seat, and what it keeps of its steps.
    pub fn parts(self) -> (Seat<(), List<X>>, StepLog)
        ensures seat { result.0 ≡ self.seat }
        ensures log { result.1 ≡ self.log }
    {
        let Worker { seat, log } = self;
        (seat, log)
    }

    /// One step of the thread: one operation on one word, of a kind that the rule of the table allows. Takes no memory.
    pub fn step<K, P: TableRule<(), List<X>, K>, M: Play<(), List<X>>>(
        &mut self,
        p: &Program,
        l: &Layout,
        words: &Shared<(), List<X>, K, P>,
    ) -> CompactOutcome
        requires suits { Suits p.now l.now.table }
        requires seated { self.old.seat.table_id ≡ words.now.table_id }
        requires may { (k : Known) × MayStep p.now l.now (P.holds words.now.key) words.now.table_id
            M.then k self.old }
        ensures thread { self.new.log.thread ≡ self.old.log.thread }
        ensures kept { self.new.log.kept ≡ self.old.log.kept }
        ensures seated { self.new.seat.table_id ≡ self.old.seat.table_id }
        ensures stepped { (k : Known) → IsLogOf p.now l.now k self.old.log
            → TellsSeats M.then self.old.seat.me k
            → HasStepped p.now l.now M.then k self.old self.new
            (outcome_of self.old.log.actor result) }
    {
        let op = next(p, l, &self.log.actor);
        let old = apply::<List<X>, K, P, M>(words, &mut self.seat, op);
        self.log.list(p, l, op, old)
    }
}
