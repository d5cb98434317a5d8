//! What a function reaches: barriers, nested parallel regions and nested taskgroup regions.
ghost use Rattle.std.specs.Prelude.{◌≡◌, ◌+◌, ◌≤◌, ℕ, length, map};
ghost use Rattle.std.specs.List.{list_any};
ghost use Rattle.omi_script.specs.Reach.{reach_at, reaches_barrier, depth_of, greatest, group_depth_of, reach_of};

use crate::Stmt;
use std::marker::Model;

/// What a function reaches: whether a barrier, how deep its parallel regions are nested, and how deep its taskgroup regions.
#[derive(Clone, Copy)]
pub struct Reach {
    pub barrier: bool,
    pub depth: usize,
    pub groups: usize,
}

impl Model for Reach {
    ghost use Rattle.omi_script.specs.Reach.{Reach};

    ghost Value = { Reach };

    ghost view = { λ a. record {
      barrier = a.barrier;
      depth = a.depth;
      groups = a.groups;
    } };

    ghost inverse = { λ r. record {
      barrier = r.barrier;
      depth = r.depth;
      groups = r.groups;
    } };
}

/// What the function with a number reaches, of those that are closed. Nothing where none has it.
pub fn reach_at(above: &[Reach], f: u8) -> Reach
    ensures { result ≡ reach_at above.now f }
{
    match above.get(f as usize) {
        Some(reach) => *reach,
        None => Reach {
            barrier: false,
            depth: 0,
            groups: 0,
        },
    }
}

fn reaches_barrier(above: &[Reach], statement: &Stmt) -> bool
    ensures { result ≡ reaches_barrier above.now statement.now }
{
    match statement {
        Stmt::Barrier => true,
        Stmt::Call { f }
        | Stmt::Only { f, .. }
        | Stmt::Critical { f, .. }
        | Stmt::Repeat { f, .. }
        | Stmt::Taskgroup { f } => reach_at(above, *f).barrier,
        _ => false,
    }
}

/// How deep a statement nests parallel regions.
fn depth_of(above: &[Reach], statement: &Stmt) -> usize
    requires { (f : ℕ) → (reach_at above.now f).depth ≤ length above.now }
    ensures { result ≡ depth_of above.now statement.now }
{
    match statement {
        Stmt::Parallel { f, .. } => reach_at(above, *f).depth + 1,
        Stmt::Task { f, .. }
        | Stmt::Call { f }
        | Stmt::Only { f, .. }
        | Stmt::Critical { f, .. }
        | Stmt::Repeat { f, .. }
        | Stmt::Taskgroup { f } => reach_at(above, *f).depth,
        _ => 0,
    }
}

/// How deep a statement nests taskgroup regions of one task.
fn group_depth_of(above: &[Reach], statement: &Stmt) -> usize
    requires { (f : ℕ) → (reach_at above.now f).groups ≤ length above.now }
    ensures { result ≡ group_depth_of above.now statement.now }
{
    match statement {
        Stmt::Taskgroup { f } => reach_at(above, *f).groups + 1,
        Stmt::Call { f }
        | Stmt::Only { f, .. }
        | Stmt::Critical { f, .. }
        | Stmt::Repeat { f, .. } => reach_at(above, *f).groups,
        _ => 0,
    }
}

/// The greatest depth of the statements.
#[tactic(auto, using(crate::proofs::ReachLemmas::greatest_more))]
fn greatest_depth(above: &[Reach], body: &[Stmt]) -> usize
    requires { (f : ℕ) → (reach_at above.now f).depth ≤ length above.now }
    ensures { result ≡ greatest (map (depth_of above.now) body.now) }
{
    let mut greatest = 0;
    for statement in body {
        let depth = depth_of(above, statement);
        if greatest < depth {
            greatest = depth;
        }
    }
    greatest
}

/// The greatest group depth of the statements.
#[tactic(auto, using(crate::proofs::ReachLemmas::greatest_more))]
fn greatest_group_depth(above: &[Reach], body: &[Stmt]) -> usize
    requires { (f : ℕ) → (reach_at above.now f).groups ≤ length above.now }
    ensures { result ≡ greatest (map (group_depth_of above.now) body.now) }
{
    let mut greatest = 0;
    for statement in body {
        let depth = group_depth_of(above, statement);
        if greatest < depth {
            greatest = depth;
        }
    }
    greatest
}

fn any_barrier(above: &[Reach], body: &[Stmt]) -> bool
    ensures { result ≡ list_any (reaches_barrier above.now) body.now }
{
    body.iter().any(|s| reaches_barrier(above, s))
}

/// What a function with these statements reaches, from what those above it reach. None is deeper
/// than there are functions, so that each depth fits.
pub fn reach_of(above: &[Reach], body: &[Stmt]) -> Reach
    requires depth { (f : ℕ) → (reach_at above.now f).depth ≤ length above.now }
    requires groups { (f : ℕ) → (reach_at above.now f).groups ≤ length above.now }
    ensures { result ≡ reach_of above.now body.now }
{
    Reach {
        barrier: any_barrier(above, body),
        depth: greatest_depth(above, body),
        groups: greatest_group_depth(above, body),
    }
}
