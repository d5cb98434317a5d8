//! The text of a report.

ghost use Rattle.std.specs.Prelude.{◌≡◌, IfOk};
ghost use Rattle.omi_text.specs.Report.{report};

use crate::OutOfMemory;
use crate::head::push_head;
use crate::regions::push_regions;
use crate::tasks::push_tasks;
use crate::threads::push_contexts;
use omi_model::View;
use std::alloc::Global;

/// The text of a report, each line ended by a line feed.
pub fn report_text(alloc: Global, v: &View) -> Result<Vec<u8>, OutOfMemory>
    ensures { IfOk result (λ text. text.items ≡ report v.now) }
{
    let mut text = String::new(alloc);
    push_head(&mut text, &v.head)?;
    push_contexts(&mut text, &v.threads)?;
    push_regions(&mut text, &v.regions)?;
    push_tasks(&mut text, &v.tasks)?;
    Ok(text.into_bytes())
}
