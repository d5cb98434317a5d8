//! The names of regions and tasks.

ghost use Rattle.std.specs.Prelude.{◌≡◌, ◌++◌, OnOk, string_bytes};
ghost use Rattle.omi_text.specs.Ids.{id_text, region_id, task_id};
ghost use Rattle.omi_text.specs.Lines.{or_none};

use crate::OutOfMemory;
use crate::numbers::push_decimal;
use omi_model::{Id, Rid, Tid};

/// Adds creator, slot and generation.
#[tactic(auto, unfolding(crate::specs::Ids::id_text))]
fn push_id(text: &mut String, id: Id) -> Result<(), OutOfMemory>
    ensures { OnOk result (string_bytes text.new ≡ string_bytes text.old ++ id_text id) }
{
    push_decimal(text, u64::from(id.creator))?;
    text.push_str(".")?;
    push_decimal(text, u64::from(id.slot))?;
    text.push_str(".")?;
    push_decimal(text, u64::from(id.generation))
}

/// Adds the name of a region.
#[tactic(auto, unfolding(crate::specs::Ids::region_id))]
pub fn push_region(text: &mut String, region: Rid) -> Result<(), OutOfMemory>
    ensures { OnOk result (string_bytes text.new ≡ string_bytes text.old ++ region_id region) }
{
    text.push_str("r")?;
    push_id(text, region.0)
}

/// Adds the name of a task.
#[tactic(auto, unfolding(crate::specs::Ids::task_id))]
pub fn push_task(text: &mut String, task: Tid) -> Result<(), OutOfMemory>
    ensures { OnOk result (string_bytes text.new ≡ string_bytes text.old ++ task_id task) }
{
    text.push_str("k")?;
    push_id(text, task.0)
}

/// Adds the name of a region, if there is one.
pub fn push_region_or_none(text: &mut String, region: Option<Rid>) -> Result<(), OutOfMemory>
    ensures { OnOk result (string_bytes text.new
        ≡ string_bytes text.old ++ or_none region_id region) }
{
    match region {
        Some(r) => push_region(text, r),
        None => text.push_str("none"),
    }
}

/// Adds the name of a task, if there is one.
pub fn push_task_or_none(text: &mut String, task: Option<Tid>) -> Result<(), OutOfMemory>
    ensures { OnOk result (string_bytes text.new ≡ string_bytes text.old ++ or_none task_id task) }
{
    match task {
        Some(k) => push_task(text, k),
        None => text.push_str("none"),
    }
}
