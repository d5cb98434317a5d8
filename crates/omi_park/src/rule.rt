//! The rule of the table of words, and what an operation on it tells.

use crate::known::Part;
use atomic_table::{Play, TableRule};
use omi_layout::Layout;
use omi_list::List;
use omi_script::Program;
use std::snapshot::Snapshot;

/// What the table is told when it is made: the program and its layout.
#[derive(Drop)]
pub struct Given {
    pub program: Snapshot<Program>,
    pub layout: Snapshot<Layout>,
}

/// The words are those of a run, the epoch word and the acknowledgement words, and each seat knows what its threads made.
pub struct Running;

impl TableRule<(), List<Part>, Given> for Running {
    ghost use Rattle.omi_park.specs.Running.{Keeps};
    ghost use Rattle.omi_park.specs.Plays.{first_parts};

    ghost holds = { λ key. Keeps key.program.value key.layout.value };

    ghost first = { λ key. first_parts key.program.value key.layout.value };
}

/// A worker loads the epoch, while it runs or is parked.
pub struct Loads;

impl Play<(), List<Part>> for Loads {
    ghost use Rattle.omi_park.specs.Plays.{loaded};

    ghost then = { loaded };
}

/// A worker makes a step of its thread.
pub struct Steps;

impl Play<(), List<Part>> for Steps {
    ghost use Rattle.omi_park.specs.Plays.{stepped};

    ghost then = { stepped };
}

/// A worker stores its own acknowledgement.
pub struct Says;

impl Play<(), List<Part>> for Says {
    ghost use Rattle.omi_park.specs.Plays.{said};

    ghost then = { said };
}

/// The inspector stores an odd epoch, by which it calls the workers to stop.
pub struct Calls;

impl Play<(), List<Part>> for Calls {
    ghost use Rattle.omi_park.specs.Plays.{called};

    ghost then = { called };
}

/// The inspector loads the acknowledgement of the next worker.
pub struct Sees;

impl Play<(), List<Part>> for Sees {
    ghost use Rattle.omi_park.specs.Plays.{seen};

    ghost then = { seen };
}

/// The inspector loads the next word of the image.
pub struct Copies;

impl Play<(), List<Part>> for Copies {
    ghost use Rattle.omi_park.specs.Plays.{copied};

    ghost then = { copied };
}

/// The inspector stores an even epoch, by which it lets the workers go.
pub struct LetsGo;

impl Play<(), List<Part>> for LetsGo {
    ghost use Rattle.omi_park.specs.Plays.{let_go};

    ghost then = { let_go };
}
