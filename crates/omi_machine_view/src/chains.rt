//! The chains of tasks, each from the current task of a thread on by scheduling task.

ghost use Rattle.std.specs.Prelude.{◌≡◌, ◌<◌, ℕ, Contains, IfOk, OnOk};
ghost use Rattle.std.specs.Option.{option_map};
ghost use Rattle.omi_model.specs.Views.{AreChains};
ghost use Rattle.omi_model.specs.WellFormed.{IsWellFormed};
ghost use Rattle.omi_machine.specs.Kept.{state_of};
ghost use Rattle.omi_machine_view.specs.Chains.{IsChainAdded};

use crate::marking::next_live;
use crate::marks::Marks;
use crate::rows::task_row;
use omi_machine::State;
use omi_model::{Id, Rows, TaskRows, Tid};
use omi_word::OutOfMemory;
use std::alloc::Global;

/// What a task's name is.
fn id_of(k: Option<Tid>) -> Option<Id>
    ensures { result ≡ option_map (λ n. n.0) k }
{
    match k {
        Some(k) => Some(k.0),
        None => None,
    }
}

/// Adds the chain of a thread. Of a state that is not well formed this is the part up to a task that is not live, or that
/// stands on the chain already.
pub fn push_chain(alloc: Global, s: &State, i: u8, rows: &mut TaskRows) -> Result<(), OutOfMemory>
    requires { i < (state_of s.now).count }
    ensures { OnOk result (IsWellFormed (state_of s.now)
        → IsChainAdded (state_of s.now) i rows.old rows.new) }
{
    let mut marks = Marks::none(alloc, s.tasks())?;
    let mut at = s.thread(i as usize).current;
    while let Some((n, t)) = next_live(s.tasks(), &mut marks, id_of(at)) {
        rows.push(task_row(alloc, i, Tid(n), t)?)?;
        at = t.scheduling;
    }
    Ok(())
}

/// The chains of threads, one after the other.
pub fn chain_rows(alloc: Global, s: &State, threads: &Rows<u8>) -> Result<TaskRows, OutOfMemory>
    requires { (i : ℕ) → Contains threads.now i → i < (state_of s.now).count }
    ensures { IfOk result (λ rows. IsWellFormed (state_of s.now)
        → AreChains (state_of s.now) threads.now rows) }
{
    let mut rows = TaskRows::new(alloc);
    for at in 0..threads.len() {
        push_chain(alloc, s, *threads.get(at), &mut rows)?;
    }
    Ok(rows)
}
