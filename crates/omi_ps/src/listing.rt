//! What is listed of a process.

ghost use Rattle.std.specs.Prelude.{◌≡◌, ◌<◌, Err};
ghost use Rattle.omi_outside.specs.Outside.{HasCause};
ghost use Rattle.omi_process.specs.declared.listed.Listed.TheVariants as ids;
ghost use Rattle.omi_session.specs.declared.limits.TheConstants.{HANDLES_BEFORE};
ghost use Rattle.omi_ps.specs.Listing.{AreFew, Lists};

use crate::recorded::recorded_ids;
use omi_calls::{Callbacks, ToHost};
use omi_model::View;
use omi_process::{Listed, contexts_among};
use omi_session::Session;
use omi_walk::{WalkFault, walk};
use omi_word::Natives;
use std::alloc::Global;

/// What is listed of a process: the report of its threads of OpenMP, and how many others it has, where the core lists all its threads.
#[derive(Drop)]
pub struct Listing {
    pub view: View,
    pub others: Option<u64>,
}

/// What is listed of a process whose threads have these native ids.
fn listing_of_threads<C: Callbacks, F: ToHost>(
    s: &mut Session<C, F>,
    alloc: Global,
    threads: Natives,
) -> Result<Listing, WalkFault>
    requires { s.old.handles.made < HANDLES_BEFORE }
    ensures look { Lists C.told s.old result (ids.Threads threads) }
    ensures cause { HasCause (C.faults s.old.table.calls) (C.faults s.new.table.calls)
        (result ≡ Err WalkFault.Callback) }
{
    let recorded = recorded_ids(s, alloc)?;
    let found = contexts_among(alloc, Listed::Threads(threads), recorded.as_slice())?;
    let view = walk(s, alloc, &found.contexts)?;
    Ok(Listing {
        view,
        others: Some(found.others as u64),
    })
}

/// What is listed of a process whose core lists these native ids: those of at most 64 threads of OpenMP, or of any number of threads.
pub fn listing_of<C: Callbacks, F: ToHost>(
    s: &mut Session<C, F>,
    alloc: Global,
    listed: Listed,
) -> Result<Listing, WalkFault>
    requires many { s.old.handles.made < HANDLES_BEFORE }
    requires few { AreFew listed }
    ensures look { Lists C.told s.old result listed }
    ensures cause { HasCause (C.faults s.old.table.calls) (C.faults s.new.table.calls)
        (result ≡ Err WalkFault.Callback) }
{
    match listed {
        Listed::Contexts(contexts) => {
            let view = walk(s, alloc, &contexts)?;
            Ok(Listing { view, others: None })
        }
        Listed::Threads(threads) => listing_of_threads(s, alloc, threads),
    }
}
