//! The words of slots for deferred tasks.

ghost use Rattle.std.specs.Prelude.{◌≡◌};
ghost use Rattle.omi_rep.specs.Records.{slot_word};
ghost use Rattle.omi_step_words.specs.Placed.{HasTask};
ghost use Rattle.omi_task.specs.Slots.{coded_place, coded_task};

use omi_layout::Layout;
use omi_model::Tid;
use omi_numbers::CODED_RECORDS;
use omi_pc::Place;
use omi_step_words::{object_in, used_word};

/// The place that stands for a code of no record.
const FIRST_PLACE: Place = Place {
    creator: 0,
    slot: 0,
};

/// The slot of the record that a code names, and the first slot where the layout has no such record.
#[tactic(auto, using(omi_layout::proofs::Arenas::some_tasks))]
fn coded_place(l: &Layout, code: u64) -> Place
    ensures { result ≡ coded_place l.now.table code }
{
    let index = code % CODED_RECORDS;
    let per = u64::from(l.tasks_per_thread());
    let creator = index / per;
    if creator < u64::from(l.threads()) {
        Place {
            creator: creator as u8,
            slot: (index % per) as u16,
        }
    } else {
        FIRST_PLACE
    }
}

/// The task that a code names.
pub fn coded_task(l: &Layout, code: u64) -> Tid
    ensures task { result ≡ coded_task l.now.table code }
    ensures placed { HasTask l.now.table result }
{
    Tid(object_in(coded_place(l, code), code / CODED_RECORDS))
}

/// The code of a deferred task.
pub fn slot_word(l: &Layout, task: Tid) -> u64
    ensures { result ≡ slot_word l.now.table task }
{
    let k = task.0;
    let index = u64::from(k.creator) * u64::from(l.tasks_per_thread()) + u64::from(k.slot);
    used_word(k) * CODED_RECORDS + index
}
