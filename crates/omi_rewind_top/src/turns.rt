//! A rewind as the commands make it.

ghost use Rattle.std.specs.Prelude.{◌≡◌, IfOk, IsTrue, length};
ghost use Rattle.omi_layout.specs.Family.{IsFamily};
ghost use Rattle.omi_layout.specs.Place.{fits};
ghost use Rattle.omi_rewind.specs.Rewound.{image_of};
ghost use Rattle.omi_rewind_top.specs.Turns.{IsTurned};

use omi_core::Schedule;
use omi_layout::Layout;
use omi_rep::families_suit;
use omi_rewind::Rewind;
use omi_script::Program;
use omi_word::OutOfMemory;
use std::alloc::Global;

/// A rewind of a program in a layout of family 0, whose threads step in turn.
pub fn rewind_of(alloc: Global, p: Program, layout: Layout) -> Result<Rewind, OutOfMemory>
    requires { IsFamily 0 p.threads layout.table }
    ensures turned { IfOk result (λ rewind. IsTurned p rewind) }
    ensures table { IfOk result (λ rewind. rewind.run.table ≡ layout.table) }
    ensures fits { IfOk result
        (λ rewind. IsTrue (fits layout.table (length (image_of rewind)))) }
{
    families_suit();
    Rewind::opening(alloc, p, layout, Schedule::RoundRobin)
}
