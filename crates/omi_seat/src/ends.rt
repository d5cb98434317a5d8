//! The steps behind which a thread makes no further one.

ghost use Rattle.std.specs.Prelude.{◌≡◌, ℕ, false, List};
ghost use Rattle.omi_model.specs.declared.id.Tid.{Tid};
ghost use Rattle.omi_step_words.specs.Outcomes.{outcome_with};
ghost use Rattle.omi_seat.specs.Stops.{ends_at, stops_at};

use omi_core::{Break, compact_end_at};
use omi_step_words::CompactOutcome;

/// Whether a step commits `done`, whatever team is forked.
pub fn ends_at(outcome: CompactOutcome) -> bool
    ensures { (team : List (Tid × ℕ)) → result ≡ ends_at (outcome_with team outcome) }
{
    compact_end_at(None, 0, outcome).is_some()
}

/// Whether a step that does not commit `done` commits an event of the kind at which the run is to stop, whatever team is forked.
pub fn stops_at(on: Option<Break>, outcome: CompactOutcome) -> bool
    requires { (team : List (Tid × ℕ)) → ends_at (outcome_with team outcome) ≡ false }
    ensures { (team : List (Tid × ℕ)) → result ≡ stops_at on (outcome_with team outcome) }
{
    match on {
        Some(kind) => compact_end_at(Some((kind, 1)), 0, outcome).is_some(),
        None => false,
    }
}
