//! The regions that are reported: those of the threads' current tasks, and those that enclose one.

ghost use Rattle.std.specs.Prelude.{◌≡◌, ◌<◌, List, ℕ, [], ◌∷◌, ◌++◌, Contains, IfOk};
ghost use Rattle.std.specs.Option.{option_map};
ghost use Rattle.std.specs.List.{filter_map};
ghost use Rattle.omi_model.specs.Views.{AreRegions};
ghost use Rattle.omi_model.specs.WellFormed.{IsWellFormed};
ghost use Rattle.omi_machine.specs.Kept.{state_of};
ghost use Rattle.omi_machine_view.specs.Marks.{HavePlaces};
ghost use Rattle.omi_machine_view.specs.Reported.{AreMet, root_of, row_met};

use crate::marking::next_live;
use crate::marks::Marks;
use crate::rows::region_row;
use omi_machine::State;
use omi_model::{Id, RegionRow, RegionRows, Rid, Rows};
use omi_word::OutOfMemory;
use std::alloc::Global;

/// What a region's name is.
fn id_of(n: Option<Rid>) -> Option<Id>
    ensures { result ≡ option_map (λ k. k.0) n }
{
    match n {
        Some(n) => Some(n.0),
        None => None,
    }
}

/// The region of a thread's current task.
fn root(s: &State, i: usize) -> Option<Rid>
    requires { i < (state_of s.now).count }
    ensures { result ≡ root_of (state_of s.now) i }
{
    match s.current_task(i) {
        Some(t) => Some(t.region),
        None => None,
    }
}

/// Meets the region of one more thread's current task, and those that enclose it.
pub fn meet_regions(s: &State, i: usize, marks: &mut Marks)
    requires known { i < (state_of s.now).count }
    requires places { HavePlaces marks.old.creators marks.old.width (state_of s.now).regions }
    ensures places { HavePlaces marks.new.creators marks.new.width (state_of s.now).regions }
    ensures met { (threads : List ℕ) → AreMet (state_of s.now) threads marks.old.met.items
        → AreMet (state_of s.now) (threads ++ i ∷ []) marks.new.met.items }
{
    let mut at = root(s, i);
    while let Some((_, r)) = next_live(s.regions(), marks, id_of(at)) {
        at = r.enclosing;
    }
}

/// The row of the region that was met at a place, where it is live.
fn row_at(alloc: Global, s: &State, met: Option<Id>) -> Result<Option<RegionRow>, OutOfMemory>
    ensures { IfOk result (λ row. row ≡ row_met (state_of s.now) met) }
{
    let Some(n) = met else {
        return Ok(None);
    };
    match s.region_of(Rid(n)) {
        Some(r) => Ok(Some(region_row(alloc, Rid(n), r)?)),
        None => Ok(None),
    }
}

/// The rows of the regions that were met, in the order of their names.
pub fn rows_met(alloc: Global, s: &State, marks: &Marks) -> Result<RegionRows, OutOfMemory>
    ensures { IfOk result (λ rows. rows
        ≡ filter_map (row_met (state_of s.now)) marks.now.met.items) }
{
    let mut rows = RegionRows::new(alloc);
    for met in &marks.met {
        if let Some(row) = row_at(alloc, s, *met)? {
            rows.push(row)?;
        }
    }
    Ok(rows)
}

/// The rows of the regions that are reported of these threads.
pub fn region_rows(alloc: Global, s: &State, threads: &Rows<u8>) -> Result<RegionRows, OutOfMemory>
    requires { (i : ℕ) → Contains threads.now i → i < (state_of s.now).count }
    ensures { IfOk result (λ rows. IsWellFormed (state_of s.now)
        → AreRegions (state_of s.now) threads.now rows) }
{
    let mut marks = Marks::none(alloc, s.regions())?;
    for at in 0..threads.len() {
        meet_regions(s, *threads.get(at) as usize, &mut marks);
    }
    let rows = rows_met(alloc, s, &marks)?;
    Ok(rows)
}
