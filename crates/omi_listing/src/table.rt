//! Tables of text.

ghost use Rattle.std.specs.Prelude.{◌≡◌, ◌<◌, ◌≤◌, ◌++◌, ◌∷◌, [], All, IfOk, OnOk, length, max, replicate, string_bytes};
ghost use Rattle.omi_listing.specs.Table.{filled, length_at, row_line, table_text, width_at};
ghost use Rattle.omi_listing.specs.Widths.{AreWidths, width_in};

use crate::{Cell, OutOfMemory};
use omi_list::List;
use std::alloc::Global;

/// The cells of a line, in order.
pub type Row = List<Cell>;

/// Rows, in order.
pub type Table = List<Row>;

/// The length of a cell, 0 where the row has none at this place.
fn length_at(row: &Row, at: usize) -> usize
    ensures { result ≡ length_at row.now at }
{
    match row.find(at) {
        Some(cell) => cell.len(),
        None => 0,
    }
}

/// The larger of two numbers.
fn larger(a: usize, b: usize) -> usize
    ensures { result ≡ max a b }
{
    if a < b { b } else { a }
}

/// How wide a column is: as its widest cell.
fn width_at(table: &Table, at: usize) -> usize
    ensures { result ≡ width_at table.now at }
{
    let mut width = 0;
    for number in 0..table.len() {
        width = larger(width, length_at(table.get(number), at));
    }
    width
}

/// How wide so many columns are.
fn widths(alloc: Global, table: &Table, columns: usize) -> Result<List<usize>, OutOfMemory>
    ensures { IfOk result (λ widths. AreWidths widths table.now columns) }
{
    let mut widths = List::new(alloc);
    for at in 0..columns {
        widths.push(width_at(table, at))?;
    }
    Ok(widths)
}

/// Adds so many spaces.
fn push_spaces(text: &mut String, count: usize) -> Result<(), OutOfMemory>
    ensures { OnOk result (string_bytes text.new ≡ string_bytes text.old ++ replicate count 32) }
{
    for _ in 0..count {
        text.push_str(" ")?;
    }
    Ok(())
}

/// Adds a cell and what stands between it and the next one.
fn push_filled(text: &mut String, cell: &Cell, width: usize) -> Result<(), OutOfMemory>
    ensures { OnOk result (string_bytes text.new ≡ string_bytes text.old ++ filled width cell.now) }
{
    text.push_str(cell.as_str())?;
    push_spaces(text, width.saturating_sub(cell.len()))?;
    text.push_str("  ")
}

/// Adds the cells of a row but the last, and the last.
fn push_cells(text: &mut String, row: &Row, widths: &List<usize>) -> Result<(), OutOfMemory>
    requires some { 0 < length row.now }
    requires known { length row.now ≤ length widths.now }
    ensures { OnOk result (string_bytes text.new ++ 10 ∷ []
        ≡ string_bytes text.old ++ row_line (width_in widths.now) 0 row.now) }
{
    let last = row.len() - 1;
    for at in 0..last {
        push_filled(text, row.get(at), *widths.get(at))?;
    }
    text.push_str(row.get(last).as_str())?;
    Ok(())
}

/// Adds the line of a row.
fn push_row(text: &mut String, row: &Row, widths: &List<usize>) -> Result<(), OutOfMemory>
    requires { length row.now ≤ length widths.now }
    ensures { OnOk result (string_bytes text.new
        ≡ string_bytes text.old ++ row_line (width_in widths.now) 0 row.now) }
{
    if row.len() > 0 {
        push_cells(text, row, widths)?;
    }
    text.push_str("\n")
}

/// The text of a table of rows that have so many cells at most.
pub fn table_text(alloc: Global, table: &Table, columns: usize) -> Result<Vec<u8>, OutOfMemory>
    requires { All (λ row. length row ≤ columns) table.now }
    ensures { IfOk result (λ text. text.items ≡ table_text table.now) }
{
    let widths = widths(alloc, table, columns)?;
    let mut text = String::new(alloc);
    for number in 0..table.len() {
        push_row(&mut text, table.get(number), &widths)?;
    }
    Ok(text.into_bytes())
}
