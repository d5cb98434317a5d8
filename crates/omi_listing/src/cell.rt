//! The cells of tables.

ghost use Rattle.std.specs.Prelude.{◌≡◌, IfOk, length, string_bytes};
ghost use Rattle.std.specs.Fmt.{decimal};
ghost use Rattle.omi_text.specs.Ids.{task_id};
ghost use Rattle.omi_text.specs.Names.{state_text};
ghost use Rattle.omi_text.specs.Numbers.{hexadecimal};
ghost use Rattle.omi_listing.specs.Cells.{or_dash};

use crate::OutOfMemory;
use omi_model::Tid;
use omi_text::{push_decimal, push_hexadecimal, push_state, push_task};
use std::alloc::Global;
use std::marker::Model;

/// The text of a cell, which contracts see as the list of its bytes.
#[derive(Drop)]
pub struct Cell {
    text: String,
}

impl Model for Cell {
    ghost use Rattle.std.specs.Prelude.{List, ℕ, string_bytes};

    ghost Value = { List ℕ };

    ghost view = { λ a. string_bytes a.text };
}

impl Cell {
    /// A cell with this text.
    pub fn of(text: String) -> Cell
        ensures { result ≡ string_bytes text }
    {
        Cell { text }
    }

    /// How many bytes it has.
    pub fn len(&self) -> usize
        ensures { result ≡ length self.now }
    {
        self.text.len()
    }

    /// The text.
    pub fn as_str(&self) -> &str
        ensures { result.now ≡ self.now }
    {
        self.text.as_str()
    }
}

/// A cell with a copy of a text.
pub fn text_cell(alloc: Global, text: &str) -> Result<Cell, OutOfMemory>
    ensures { IfOk result (λ cell. cell ≡ text.now) }
{
    let mut copy = String::new(alloc);
    copy.push_str(text)?;
    Ok(Cell::of(copy))
}

/// A number in decimal.
pub fn decimal_cell(alloc: Global, number: u64) -> Result<Cell, OutOfMemory>
    ensures { IfOk result (λ cell. cell ≡ decimal number) }
{
    let mut text = String::new(alloc);
    push_decimal(&mut text, number)?;
    Ok(Cell::of(text))
}

/// A number in decimal, or a dash.
pub fn decimal_or_dash(alloc: Global, number: Option<u64>) -> Result<Cell, OutOfMemory>
    ensures { IfOk result (λ cell. cell ≡ or_dash decimal number) }
{
    match number {
        Some(number) => decimal_cell(alloc, number),
        None => text_cell(alloc, "-"),
    }
}

/// An address or a wait id in hexadecimal, or a dash.
pub fn hexadecimal_or_dash(alloc: Global, number: Option<u64>) -> Result<Cell, OutOfMemory>
    ensures { IfOk result (λ cell. cell ≡ or_dash hexadecimal number) }
{
    let mut text = String::new(alloc);
    match number {
        Some(number) => push_hexadecimal(&mut text, number)?,
        None => text.push_str("-")?,
    }
    Ok(Cell::of(text))
}

/// A state by its name, or by its number where it has none.
pub fn state_cell(alloc: Global, state: u32) -> Result<Cell, OutOfMemory>
    ensures { IfOk result (λ cell. cell ≡ state_text state) }
{
    let mut text = String::new(alloc);
    push_state(&mut text, state)?;
    Ok(Cell::of(text))
}

/// The name of a task, or a dash.
pub fn task_or_dash(alloc: Global, task: Option<Tid>) -> Result<Cell, OutOfMemory>
    ensures { IfOk result (λ cell. cell ≡ or_dash task_id task) }
{
    let mut text = String::new(alloc);
    match task {
        Some(task) => push_task(&mut text, task)?,
        None => text.push_str("-")?,
    }
    Ok(Cell::of(text))
}
