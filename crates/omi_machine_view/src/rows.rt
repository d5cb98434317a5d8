//! The rows of a report.

ghost use Rattle.std.specs.Prelude.{◌≡◌, IfOk, map, length};
ghost use Rattle.omi_model.specs.Views.{region_row, task_row};

use omi_model::{MemberRow, MemberRows, Region, RegionRow, Rid, Task, TaskRow, Team, Tid};
use omi_numbers::entry_address;
use omi_word::OutOfMemory;
use std::alloc::Global;

/// The row of a task on the chain of a thread.
pub fn task_row(alloc: Global, i: u8, k: Tid, t: &Task) -> Result<TaskRow, OutOfMemory>
    ensures { IfOk result (λ row. row ≡ task_row i k t.now) }
{
    Ok(TaskRow {
        task: k,
        thread: i,
        implicit: t.implicit as u64,
        region: t.region,
        func: entry_address(t.function),
        generating: t.generating,
        scheduling: t.scheduling,
        exit: t.exit,
        enter: t.enter,
        tool: t.tool,
        dyn_var: t.variables.dynamic as u64,
        nthreads: t.variables.nthreads.same(alloc)?,
        sched: t.variables.schedule.word(),
        device: t.variables.device,
        final_task: t.is_final as u64,
    })
}

/// The members of a team.
fn members(alloc: Global, team: &Team) -> Result<MemberRows, OutOfMemory>
    ensures { IfOk result (λ rows. rows
        ≡ map (λ m. record { thread = m.1; task = m.0 }) team.now) }
{
    let mut rows = MemberRows::new(alloc);
    for at in 0..team.len() {
        let (task, thread) = team.get(at);
        rows.push(MemberRow { thread, task })?;
    }
    Ok(rows)
}

/// The row of a region.
pub fn region_row(alloc: Global, n: Rid, r: &Region) -> Result<RegionRow, OutOfMemory>
    ensures { IfOk result (λ row. row ≡ region_row n r.now) }
{
    Ok(RegionRow {
        region: n,
        func: entry_address(r.function),
        levels: r.levels,
        active: r.active,
        size: r.team.len() as u64,
        enclosing: r.enclosing,
        members: members(alloc, &r.team)?,
    })
}
