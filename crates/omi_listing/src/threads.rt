//! The table of threads.

ghost use Rattle.std.specs.Prelude.{◌≡◌, ◌++◌, ◌∷◌, [], IfOk, OnOk};
ghost use Rattle.std.specs.Option.{option_map};
ghost use Rattle.omi_text.specs.Threads.{shown_state};
ghost use Rattle.omi_listing.specs.Threads.{bare_cells, context_cells, heading, region_of, task_cells, task_of, thread_cells, threads_table, threads_text, waited_for};

use crate::cell::{
    decimal_cell, decimal_or_dash, hexadecimal_or_dash, state_cell, task_or_dash, text_cell,
};
use crate::named::row_named;
use crate::table::table_text;
use crate::{Cell, OutOfMemory, Row, Table};
use omi_model::{RegionRow, TaskRow, ThreadPart, ThreadRow, Tid, View};
use std::alloc::Global;

/// How many columns the table of threads has.
const COLUMNS: usize = 8;

/// Adds a cell with a copy of a text to a row.
fn push_text(alloc: Global, row: &mut Row, text: &str) -> Result<(), OutOfMemory>
    ensures { OnOk result (row.new ≡ row.old ++ text.now ∷ []) }
{
    row.push(text_cell(alloc, text)?)
}

/// The row above all others.
fn heading_row(alloc: Global) -> Result<Row, OutOfMemory>
    ensures { IfOk result (λ row. row ≡ heading) }
{
    let mut row = Row::new(alloc);
    push_text(alloc, &mut row, "ID")?;
    push_text(alloc, &mut row, "STATE")?;
    push_text(alloc, &mut row, "WAIT")?;
    push_text(alloc, &mut row, "NUM")?;
    push_text(alloc, &mut row, "TEAM")?;
    push_text(alloc, &mut row, "LEVEL")?;
    push_text(alloc, &mut row, "TASK")?;
    push_text(alloc, &mut row, "FUNCTION")?;
    Ok(row)
}

/// The row of a task, if there is one.
fn task_of(view: &View, task: Option<Tid>) -> Option<&TaskRow>
    ensures { option_map (λ row. row.now) result ≡ task_of view.now task }
{
    match task {
        Some(task) => row_named(&view.tasks, task.0),
        None => None,
    }
}

/// The row of a task's region, if there is one.
fn region_of<'a>(view: &'a View, task: Option<&TaskRow>) -> Option<&'a RegionRow>
    ensures { option_map (λ row. row.now) result
        ≡ region_of view.now (option_map (λ row. row.now) task.entry) }
{
    match task {
        Some(task) => row_named(&view.regions, task.region.0),
        None => None,
    }
}

/// The cell of a thread's state.
fn shown_state(alloc: Global, state: Option<(u32, u64)>) -> Result<Cell, OutOfMemory>
    ensures { IfOk result (λ cell. cell ≡ shown_state state) }
{
    match state {
        Some((state, _)) => state_cell(alloc, state),
        None => text_cell(alloc, "untracked"),
    }
}

/// What a thread waits for.
fn waited_for(state: Option<(u32, u64)>) -> Option<u64>
    ensures { result ≡ waited_for state }
{
    match state {
        Some((_, wait)) if wait != 0 => Some(wait),
        _ => None,
    }
}

/// The size and the level of a region, if there is one.
fn size_and_level(region: Option<&RegionRow>) -> (Option<u64>, Option<u64>)
    ensures size { result.0 ≡ option_map (λ r. r.now.size) region.entry }
    ensures level { result.1 ≡ option_map (λ r. r.now.levels) region.entry }
{
    match region {
        Some(region) => (Some(region.size), Some(region.levels)),
        None => (None, None),
    }
}

/// The function of a task, if there is one.
fn function_of(task: Option<&TaskRow>) -> Option<u64>
    ensures { result ≡ option_map (λ k. k.now.func) task.entry }
{
    match task {
        Some(task) => Some(task.func),
        None => None,
    }
}

/// Adds what is shown of a thread's current task.
fn push_task(
    alloc: Global,
    row: &mut Row,
    view: &View,
    part: &ThreadPart,
) -> Result<(), OutOfMemory>
    ensures { OnOk result (row.new ≡ row.old ++ task_cells view.now part.now) }
{
    let task = task_of(view, part.current);
    let (size, level) = size_and_level(region_of(view, task));
    row.push(decimal_or_dash(alloc, size)?)?;
    row.push(decimal_or_dash(alloc, level)?)?;
    row.push(task_or_dash(alloc, part.current)?)?;
    row.push(hexadecimal_or_dash(alloc, function_of(task))?)?;
    Ok(())
}

/// The row of a thread that has begun.
fn thread_row(
    alloc: Global,
    view: &View,
    native: u64,
    part: &ThreadPart,
) -> Result<Row, OutOfMemory>
    ensures { IfOk result (λ row. row ≡ thread_cells view.now native part.now) }
{
    let mut row = Row::new(alloc);
    row.push(decimal_cell(alloc, native)?)?;
    row.push(shown_state(alloc, part.state)?)?;
    row.push(hexadecimal_or_dash(alloc, waited_for(part.state))?)?;
    row.push(decimal_or_dash(alloc, part.number)?)?;
    push_task(alloc, &mut row, view, part)?;
    Ok(row)
}

/// The row of a context that is no thread's which has begun.
fn bare_row(alloc: Global, native: u64) -> Result<Row, OutOfMemory>
    ensures { IfOk result (λ row. row ≡ bare_cells native) }
{
    let mut row = Row::new(alloc);
    row.push(decimal_cell(alloc, native)?)?;
    for _ in 0..COLUMNS - 1 {
        push_text(alloc, &mut row, "-")?;
    }
    Ok(row)
}

/// The row of a context.
fn context_row(alloc: Global, view: &View, row: &ThreadRow) -> Result<Row, OutOfMemory>
    ensures { IfOk result (λ cells. cells ≡ context_cells view.now row.now) }
{
    match &row.found {
        Some(part) => thread_row(alloc, view, row.native, part),
        None => bare_row(alloc, row.native),
    }
}

/// All rows.
fn rows(alloc: Global, view: &View) -> Result<Table, OutOfMemory>
    ensures { IfOk result (λ table. table ≡ threads_table view.now) }
{
    let mut table = Table::new(alloc);
    table.push(heading_row(alloc)?)?;
    for at in 0..view.threads.len() {
        table.push(context_row(alloc, view, view.threads.get(at))?)?;
    }
    Ok(table)
}

/// The table of a report's threads, each line ended by a line feed.
pub fn threads_text(alloc: Global, view: &View) -> Result<Vec<u8>, OutOfMemory>
    ensures { IfOk result (λ text. text.items ≡ threads_text view.now) }
{
    let table = rows(alloc, view)?;
    table_text(alloc, &table, COLUMNS)
}
