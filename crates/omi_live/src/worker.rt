//! The work of a thread: before each step it looks whether it is to stop, and behind an event at which the run is to stop it says so.

ghost use Rattle.std.specs.Prelude.{◌≡◌, ◌+◌, ◌≤◌, true, [], ◌∷◌};
ghost use Rattle.omi_rep.specs.Suits.{Suits};
ghost use Rattle.omi_layout.specs.Place.{image_words};
ghost use Rattle.omi_live.specs.declared.known.Part.{Part};
ghost use Rattle.omi_seat.specs.declared.limits.TheConstants.{MOST_BUDGET};
ghost use Rattle.omi_live.specs.Plays.{first_part, raises};
ghost use Rattle.omi_seat.specs.Known.{steps_known};
ghost use Rattle.omi_seat.specs.Stops.{some_stop};
ghost use Rattle.omi_seat.specs.StepLog.{HasRoom};
ghost use Rattle.omi_live.specs.Work.{HasLooked, HasWorked, IsAtWork, IsSameBut, IsTableFor};

use crate::known::Part;
use crate::rule::{Given, Looks, Raises, Running, Steps};
use atomic_table::Shared;
use omi_core::{Break, Until};
use omi_layout::Layout;
use omi_list::List;
use omi_outside::Gate;
use omi_script::Program;
use omi_seat::{Worker, ends_at, stops_at};

/// The table of words, as its threads see it: the image's words, and the stop word behind them.
pub(crate) type Words = Shared<(), List<Part>, Given, Running>;

/// Looks at the stop word, and answers whether it is raised.
fn is_told(worker: &mut Worker<Part>, l: &Layout, words: &Words) -> bool
    requires layout { words.now.key.layout.value ≡ l.now }
    requires count { words.now.table_id.words ≡ image_words l.now.table + 1 }
    requires seated { worker.old.seat.table_id ≡ words.now.table_id }
    requires alone { (x : Part) × (worker.old.seat.me ≡ (x ∷ [], [])) }
    ensures looked { (x : Part) → worker.old.seat.me ≡ (x ∷ [], []) → HasLooked x result worker.new }
    ensures same { IsSameBut worker.old worker.new }
{
    words.load::<Looks>(&mut worker.seat, l.image_words()) == 1
}

/// Raises the stop word, behind an event at which the run is to stop.
fn tell(worker: &mut Worker<Part>, l: &Layout, words: &Words)
    requires layout { words.now.key.layout.value ≡ l.now }
    requires count { words.now.table_id.words ≡ image_words l.now.table + 1 }
    requires seated { worker.old.seat.table_id ≡ words.now.table_id }
    requires stops { (x : Part) × (worker.old.seat.me ≡ (x ∷ [], []))
        × (some_stop words.now.key.on (steps_known x.known) ≡ true) }
    ensures told { (x : Part) → worker.old.seat.me ≡ (x ∷ [], [])
        → worker.new.seat.me ≡ (raises x ∷ [], []) }
    ensures same { IsSameBut worker.old worker.new }
{
    words.store::<Raises>(&mut worker.seat, l.image_words(), 1);
}

/// Makes at most so many steps, the first one among them. Takes no memory.
pub(crate) fn work<G: Gate>(
    worker: &mut Worker<Part>,
    p: &Program,
    l: &Layout,
    words: &Words,
    budget: u64,
    on: Option<Break>,
    gate: &G,
) -> Until
    requires suits { Suits p.now l.now.table }
    requires table { IsTableFor p.now l.now on words.now.key words.now.table_id }
    requires budget { budget ≤ MOST_BUDGET }
    requires start { IsAtWork p.now l.now words.now.table_id
        (first_part p.now l.now worker.old.log.thread) worker.old }
    requires room { HasRoom budget (first_part p.now l.now worker.old.log.thread).known
        worker.old.log }
    ensures thread { worker.new.log.thread ≡ worker.old.log.thread }
    ensures kept { worker.new.log.kept ≡ worker.old.log.kept }
    ensures worked { (x : Part) × IsAtWork p.now l.now words.now.table_id x worker.new
        × HasWorked budget on x result }
{
    for step in 0..budget {
        gate.pass(worker.log.thread, step + 1);
        if is_told(worker, l, words) {
            return Until::Stopped;
        }
        let came = worker.step::<Given, Running, Steps>(p, l, words);
        if ends_at(came) {
            return Until::Ended;
        }
        if stops_at(on, came) {
            tell(worker, l, words);
        }
    }
    Until::Budget
}
