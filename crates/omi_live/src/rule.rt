//! The rule of the table of words, and what an operation on it tells.

use crate::known::Part;
use atomic_table::{Play, TableRule};
use omi_core::Break;
use omi_layout::Layout;
use omi_list::List;
use omi_script::Program;
use std::snapshot::Snapshot;

/// What the table is told when it is made: the program, its layout, and the kind of event at which its threads stop.
#[derive(Drop)]
pub struct Given {
    pub program: Snapshot<Program>,
    pub layout: Snapshot<Layout>,
    pub on: Option<Break>,
}

/// The words are those of a run and the stop word, and each seat knows what its threads made.
pub struct Running;

impl TableRule<(), List<Part>, Given> for Running {
    ghost use Rattle.omi_live.specs.Running.{Keeps};
    ghost use Rattle.omi_live.specs.Plays.{first_parts};

    ghost holds = { λ key. Keeps key.program.value key.layout.value key.on };

    ghost first = { λ key. first_parts key.program.value key.layout.value };
}

/// A look at the stop word.
pub struct Looks;

impl Play<(), List<Part>> for Looks {
    ghost use Rattle.omi_live.specs.Plays.{looked};

    ghost then = { looked };
}

/// A step of the thread.
pub struct Steps;

impl Play<(), List<Part>> for Steps {
    ghost use Rattle.omi_live.specs.Plays.{stepped};

    ghost then = { stepped };
}

/// Raises the stop word.
pub struct Raises;

impl Play<(), List<Part>> for Raises {
    ghost use Rattle.omi_live.specs.Plays.{raised};

    ghost then = { raised };
}
