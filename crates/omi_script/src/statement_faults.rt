//! Which fault a statement has in its function, where its line has no lesser one.
ghost use Rattle.std.specs.Prelude.{◌≡◌};
ghost use Rattle.omi_script.specs.LineFaults.{is_task_with_barrier, nests_barrier, is_too_deep, least};
ghost use Rattle.omi_script.specs.SaidFaults.{has_statement_fault};

use crate::limits::{MAX_DEPTH, MAX_STATEMENTS};
use crate::reach::{Reach, reach_at};
use crate::{Stmt, Why};
use omi_numbers::OPEN_GROUPS;

fn is_task_with_barrier(above: &[Reach], statement: &Stmt) -> bool
    ensures { result ≡ is_task_with_barrier above.now statement.now }
{
    match statement {
        Stmt::Task { f, .. } => reach_at(above, *f).barrier,
        _ => false,
    }
}

fn nests_barrier(above: &[Reach], statement: &Stmt) -> bool
    ensures { result ≡ nests_barrier above.now statement.now }
{
    match statement {
        Stmt::Only { f, .. } | Stmt::Critical { f, .. } | Stmt::Taskgroup { f } => reach_at(
            above, *f,
        ).barrier,
        _ => false,
    }
}

fn is_too_deep(above: &[Reach], statement: &Stmt) -> bool
    ensures { result ≡ is_too_deep above.now statement.now }
{
    match statement {
        Stmt::Parallel { f, .. } => reach_at(above, *f).depth >= MAX_DEPTH,
        Stmt::Taskgroup { f } => reach_at(above, *f).groups >= OPEN_GROUPS as usize,
        _ => false,
    }
}

/// The least fault of a statement behind so many others, where the functions above reach this.
pub fn statement_fault(above: &[Reach], statements: usize, statement: &Stmt) -> Option<Why>
    ensures { result ≡ least (has_statement_fault above.now statements statement.now) }
{
    if is_task_with_barrier(above, statement) {
        Some(Why::BarrierInTask)
    } else if nests_barrier(above, statement) {
        Some(Why::BarrierNested)
    } else if statements >= MAX_STATEMENTS || is_too_deep(above, statement) {
        Some(Why::OverLimit)
    } else {
        None
    }
}
