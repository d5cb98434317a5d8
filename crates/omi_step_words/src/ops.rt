//! The operations of steps, and the words that they are on.

ghost use Rattle.std.specs.Prelude.{◌≡◌, ◌<◌};
ghost use Rattle.omi_layout.specs.Memory.{IsRecordWord};
ghost use Rattle.omi_layout.specs.Named.{number};
ghost use Rattle.omi_layout.specs.Place.{IsSlot};
ghost use Rattle.omi_layout.specs.Field.{IsField, kind_of, slots, tasks};
ghost use Rattle.omi_pc.specs.declared.limits.TheConstants.{VARIABLE_WORDS};
ghost use Rattle.omi_layout.specs.Table.{width};
ghost use Rattle.omi_step_words.specs.Plan.{filling, of_variable};
ghost use Rattle.omi_step_words.specs.Placed.{HasGroupWords, HasTask};
ghost use Rattle.omi_step_words.specs.Words.{of_group_count, of_groups, of_place, of_region, of_runtime, of_task, of_thread};
ghost use Rattle.omi_word.specs.declared.op.Op.TheVariants as op;

use crate::{Planned, task_place, variable_at};
use omi_layout::{COUNT_PLACE, Field, Layout};
use omi_model::{Id, Rid, Tid};
use omi_numbers::OPEN_GROUPS;
use omi_pc::Place;
use omi_word::Op;

/// The address of a word of the runtime record.
pub fn of_runtime(l: &Layout, f: Field) -> u64
    requires { IsRecordWord l.now.table 0 0 (number f) 0 }
    ensures { result ≡ of_runtime l.now.table f }
{
    l.word_at(0, 0, f, 0)
}

/// The address of a word of a thread's record.
pub fn of_thread(l: &Layout, i: u8, f: Field) -> u64
    requires { IsRecordWord l.now.table i 0 (number f) 0 }
    ensures { result ≡ of_thread l.now.table i f }
{
    l.word_at(i, 0, f, 0)
}

/// The address of the first word of a field of the record in a slot.
pub fn of_place(l: &Layout, at: Place, f: Field) -> u64
    requires { IsRecordWord l.now.table at.creator at.slot (number f) 0 }
    ensures { result ≡ of_place l.now.table at f }
{
    l.word_at(at.creator, at.slot, f, 0)
}

/// The address of the first word of a field of a region's record.
pub fn of_region(l: &Layout, n: Rid, f: Field) -> u64
    requires { IsRecordWord l.now.table n.0.creator n.0.slot (number f) 0 }
    ensures { result ≡ of_region l.now.table n f }
{
    l.word_at(n.0.creator, n.0.slot, f, 0)
}

/// The address of the first word of a field of a task's record.
pub fn of_task(l: &Layout, k: Tid, f: Field) -> u64
    requires { IsRecordWord l.now.table k.0.creator k.0.slot (number f) 0 }
    ensures { result ≡ of_task l.now.table k f }
{
    l.word_at(k.0.creator, k.0.slot, f, 0)
}

/// The address of a word of a task for groups, at a place of the last field of its record.
pub fn of_groups(l: &Layout, k: Tid, at: u8) -> u64
    requires slot { HasTask l.now.table k }
    requires within { at < width l.now.table slots }
    ensures { result ≡ of_groups l.now.table k at }
{
    l.word_at(k.0.creator, k.0.slot, Field::TaskSlots, at)
}

/// The address of the count of the group for which a word stands.
pub fn of_group_count(l: &Layout, word: u64) -> u64
    requires { HasGroupWords l.now.table }
    ensures { result ≡ of_group_count l.now.table word }
{
    let index = word % u64::from(OPEN_GROUPS);
    let owner = task_place(l, word - index);
    let at = COUNT_PLACE + index as u8;
    l.word_at(owner.creator, owner.slot, Field::TaskSlots, at)
}

/// The address of a word of a task's data environment.
pub fn of_variable(l: &Layout, task: Id, word: u8) -> u64
    requires word { word < VARIABLE_WORDS }
    requires slot { IsSlot l.now.table tasks task.creator task.slot }
    ensures { result ≡ of_variable l.now.table task word }
{
    let (field, at) = variable_at(l, word);
    l.word_at(task.creator, task.slot, field, at)
}

/// A load.
pub fn load(at: u64) -> Op
    ensures { result ≡ op.Load at }
{
    Op::Load { at }
}

/// A store.
pub fn store(at: u64, new: u64) -> Op
    ensures { result ≡ op.Store at new }
{
    Op::Store { at, new }
}

/// The store of a planned word into the record of an object.
pub fn fill(l: &Layout, n: Id, word: Planned) -> Op
    requires slot { IsSlot l.now.table (kind_of (number word.field)) n.creator n.slot }
    requires field { IsField (number word.field) }
    requires within { word.at < width l.now.table (number word.field) }
    ensures { result ≡ filling l.now.table n word }
{
    store(
        l.word_at(n.creator, n.slot, word.field, word.at),
        word.value,
    )
}
