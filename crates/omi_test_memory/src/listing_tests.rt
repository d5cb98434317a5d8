//! Worked tables.

ghost use Rattle.std.specs.Prelude.{◌≤◌, All, OnOk, length};

use crate::views::{bare, forked_view, task, with_thread, with_unknown};
use omi_listing::{Cell, Row, Table, table_text, threads_text};
use std::alloc::{AllocError, Global};
use std::process::Abort;
use std::test::Fail;

/// Adds a row with these cells, three at most, to a table.
fn add(rt: &impl Abort, alloc: Global, table: &mut Table, cells: &[&str]) -> Result<(), AllocError>
    requires { All (λ row. length row ≤ 3) table.old }
    ensures { OnOk result (All (λ row. length row ≤ 3) table.new) }
{
    let mut row = Row::new(alloc);
    for cell in cells {
        let mut text = String::new(alloc);
        text.push_str(cell)?;
        row.push(Cell::of(text))?;
    }
    assert!(rt; row.len() <= 3);
    table.push(row)
}

/// The rows differ in their number of cells; the last cell of each isn't filled up, and a row without cells is an empty line.
#[test]
fn columns_are_as_wide_as_their_widest_cell(rt: HostRuntime) -> Result<(), Fail> {
    let alloc = rt.alloc();
    let mut table = Table::new(alloc);
    add(&rt, alloc, &mut table, &["A", "BB", "CCCCC"])?;
    add(&rt, alloc, &mut table, &["four", "", "x"])?;
    add(&rt, alloc, &mut table, &[])?;
    add(&rt, alloc, &mut table, &["z", "a longer one"])?;
    add(&rt, alloc, &mut table, &["", "y", ""])?;
    let text = table_text(alloc, &table, 3)?;
    let wanted = "A     BB            CCCCC
four                x

z     a longer one
      y             
";
    assert_eq!(rt; text.as_slice(), wanted.as_bytes());
    Ok(())
}

/// Thread 0 is a member of a team of two, and thread 1 has no task.
#[test]
fn threads_of_a_fork(rt: HostRuntime) -> Result<(), Fail> {
    let text = threads_text(rt.alloc(), &forked_view(rt.alloc())?)?;
    let wanted = "ID    STATE     WAIT  NUM  TEAM  LEVEL  TASK    FUNCTION
1000  overhead  -     0    2     1      k0.1.0  0x400000
1001  idle      -     -    -     -      -       -
";
    assert_eq!(rt; text.as_slice(), wanted.as_bytes());
    Ok(())
}

/// A state that no table names with a wait id, states that aren't kept, a task that no row tells of, and a context of no thread.
#[test]
fn what_isnt_there_is_a_dash(rt: HostRuntime) -> Result<(), Fail> {
    let alloc = rt.alloc();
    let view = bare(alloc, 3, 1);
    let view = with_thread(view, 0, Some((0x22, 0x7f00)), Some(5), Some(task(0, 9)))?;
    let view = with_thread(view, 1, None, Some(1), None)?;
    let view = with_unknown(view, 18446744073709551615)?;
    let text = threads_text(alloc, &view)?;
    let wanted = "ID                    STATE      WAIT    NUM  TEAM  LEVEL  TASK    FUNCTION
1000                  0x22       0x7f00  5    -     -      k0.9.0  -
1001                  untracked  -       1    -     -      -       -
18446744073709551615  -          -       -    -     -      -       -
";
    assert_eq!(rt; text.as_slice(), wanted.as_bytes());
    Ok(())
}

/// The heading alone.
#[test]
fn no_thread(rt: HostRuntime) -> Result<(), Fail> {
    let text = threads_text(rt.alloc(), &bare(rt.alloc(), 1, 1))?;
    let wanted = "ID  STATE  WAIT  NUM  TEAM  LEVEL  TASK  FUNCTION\n";
    assert_eq!(rt; text.as_slice(), wanted.as_bytes());
    Ok(())
}
