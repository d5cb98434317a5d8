//! The search for a record that is free.

ghost use Rattle.std.specs.Prelude.{◌≡◌};
ghost use Rattle.omi_layout.specs.Field.{regions, tasks};
ghost use Rattle.omi_layout.specs.Memory.{IsRecordWord};
ghost use Rattle.omi_layout.specs.Named.{number};
ghost use Rattle.omi_step_words.specs.Outcomes.{outcome_of};
ghost use Rattle.omi_step_words.specs.Placed.{Searches};
ghost use Rattle.omi_step_words.specs.Searches.{next_slot, own_place, search_outcome};

use crate::{CompactOutcome, is_free, of_place};
use omi_layout::{Field, Layout};
use omi_pc::{Actor, Place};

/// A slot of an actor's thread.
pub fn own_place(a: &Actor, slot: u16) -> Place
    ensures { result ≡ own_place a.now slot }
{
    Place {
        creator: a.thread,
        slot,
    }
}

/// The slot for a region that is looked at behind another.
pub fn next_region_slot(l: &Layout, slot: u16) -> u16
    requires { Searches l.now.table regions slot }
    ensures { result ≡ next_slot l.now.table regions slot }
{
    if slot + 1 < l.regions_per_thread() {
        slot + 1
    } else {
        0
    }
}

/// The slot for a task that is looked at behind another.
pub fn next_task_slot(l: &Layout, slot: u16) -> u16
    requires { Searches l.now.table tasks slot }
    ensures { result ≡ next_slot l.now.table tasks slot }
{
    if slot + 1 < l.tasks_per_thread() {
        slot + 1
    } else {
        0
    }
}

/// What the look at the life word of a slot answers in a search.
pub fn search_outcome(l: &Layout, a: &Actor, slot: u16, life: Field, old: u64) -> CompactOutcome
    requires { IsRecordWord l.now.table a.now.thread slot (number life) 0 }
    ensures { outcome_of a.now result ≡ search_outcome l.now.table a.now life slot old }
{
    if is_free(old) {
        CompactOutcome::Quiet
    } else {
        CompactOutcome::NotReady {
            addr: of_place(l, own_place(a, slot), life),
            word: old,
        }
    }
}
