//! What a step answers, without the members of a team.

ghost use Rattle.std.specs.Prelude.{◌≡◌};
ghost use Rattle.omi_step_words.specs.Outcomes.{outcome_with};

use omi_model::Team;
use omi_rep::Outcome;
use omi_run_lists::CompactEvent;

/// What came of one atomic step, but for the members of the team that is forked, which stand in the thread's registers. It has 24
/// bytes, where an `Outcome` has room for the members of the largest team.
#[derive(Clone, Copy, Debug, PartialEq, Eq)]
pub enum CompactOutcome {
    /// No event was committed.
    Quiet,
    /// This event was committed.
    Event(CompactEvent),
    /// The step found this word at this byte address, and the thread can't go on because of it.
    NotReady { addr: u64, word: u64 },
    /// The thread committed `done` in an earlier step.
    Ended,
}

impl CompactOutcome {
    /// The outcome with the members of a team, which a fork takes.
    pub fn with_team(self, team: &Team) -> Outcome
        ensures { result ≡ outcome_with team.now self }
    {
        match self {
            CompactOutcome::Quiet => Outcome::Quiet,
            CompactOutcome::Event(event) => Outcome::Event(event.with_team(team)),
            CompactOutcome::NotReady { addr, word } => Outcome::NotReady { addr, word },
            CompactOutcome::Ended => Outcome::Ended,
        }
    }
}
