//! The header of a report.

ghost use Rattle.std.specs.Prelude.{◌≡◌, Err};
ghost use Rattle.omi_outside.specs.Outside.{HasCause};
ghost use Rattle.omi_walk.specs.Leaves.{Leaves};
ghost use Rattle.omi_walk.specs.Walks.{Walks};
ghost use Rattle.omi_walk.specs.AskWords.{ask_version, ask_head};

use crate::WalkFault;
use crate::fault::walked_from;
use crate::words::space_variable;
use omi_calls::{Callbacks, ToHost};
use omi_layout::Field;
use omi_model::HeadRow;
use omi_numbers::{DEBUG_VAR, MAX_ACTIVE_LEVELS_VAR, NUM_PROCS_VAR};
use omi_session::Session;

/// The version of OpenMP that the target's runtime has.
fn version_of<C: Callbacks, F: ToHost>(s: &mut Session<C, F>) -> Result<u64, WalkFault>
    ensures reads { Walks C.told C.asked s.old s.new result (ask_version s.old.layout) }
    ensures leaves { Leaves C.told 0 s.old s.new }
    ensures cause { HasCause (C.faults s.old.table.calls) (C.faults s.new.table.calls)
        (result ≡ Err WalkFault.Callback) }
{
    let answer = s.get_omp_version();
    walked_from(None, answer)
}

/// What the header of a report says: the version of OpenMP, the number of threads of the layout, and the control variables of the
/// address space.
pub fn head<C: Callbacks, F: ToHost>(s: &mut Session<C, F>) -> Result<HeadRow, WalkFault>
    ensures reads { Walks C.told C.asked s.old s.new result (ask_head s.old.layout) }
    ensures leaves { Leaves C.told 0 s.old s.new }
    ensures cause { HasCause (C.faults s.old.table.calls) (C.faults s.new.table.calls)
        (result ≡ Err WalkFault.Callback) }
{
    let version = version_of(s)?;
    let debug = space_variable(s, DEBUG_VAR)?;
    let procs = space_variable(s, NUM_PROCS_VAR)?;
    let max_active = space_variable(s, MAX_ACTIVE_LEVELS_VAR)?;
    Ok(HeadRow {
        version,
        threads: s.layout().threads(),
        debug,
        procs,
        max_active,
    })
}
