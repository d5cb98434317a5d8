//! The view of a state.

ghost use Rattle.std.specs.Prelude.{IfOk};
ghost use Rattle.omi_model.specs.Views.{IsViewOf};
ghost use Rattle.omi_model.specs.WellFormed.{IsWellFormed};
ghost use Rattle.omi_machine.specs.Kept.{state_of};

use crate::chains::chain_rows;
use crate::contexts::{head_row, thread_rows, threads_with};
use crate::reported::region_rows;
use omi_machine::State;
use omi_model::View;
use omi_word::{Natives, OutOfMemory};
use std::alloc::Global;

/// What a report says of a state, for contexts in their order (native ids). Of a well-formed state, as each is that a
/// program reaches, this is its view; of any other it is what a walk meets that goes to no object twice.
pub fn view_of(alloc: Global, s: &State, contexts: &Natives) -> Result<View, OutOfMemory>
    ensures { IfOk result (λ view. IsWellFormed (state_of s.now)
        → IsViewOf (state_of s.now) contexts.now view) }
{
    let threads = threads_with(alloc, s, contexts)?;
    Ok(View {
        head: head_row(s)?,
        threads: thread_rows(alloc, s, contexts)?,
        regions: region_rows(alloc, s, &threads)?,
        tasks: chain_rows(alloc, s, &threads)?,
    })
}
