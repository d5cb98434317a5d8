//! What takes the events of a run.

ghost use Rattle.std.specs.Prelude.{◌≡◌, ◌++◌, ◌∷◌, [], ℕ, List, OnErr, OnOk};
ghost use Rattle.omi_core.specs.RunSteps.{event_of};
ghost use Rattle.omi_model.specs.declared.event.Event.{Event};
ghost use Rattle.omi_run_lists.specs.Compact.{with_team};
ghost use Rattle.omi_step_words.specs.Outcomes.{outcome_with};

use crate::OutOfMemory;
use omi_model::Team;
use omi_run_lists::CompactEvent;
use omi_step_words::CompactOutcome;

/// What takes the events of a run, in order, and keeps of them what it is asked for later.
pub trait Recorder {
    /// What is kept tells of these events, each with its step and its thread.
    ghost tells: { Self → List (ℕ × ℕ × Event) → Type 0 };

    /// Takes the next event, with the number of its step and its thread. A fork has this team. Where memory runs out, what is kept
    /// tells of the events before.
    fn record_event(
        &mut self,
        step: u64,
        thread: u8,
        event: CompactEvent,
        team: &Team,
    ) -> Result<(), OutOfMemory>
        ensures told { OnOk result ((items : List (ℕ × ℕ × Event)) → tells self.old items
            → tells self.new (items ++ (step, thread, with_team team.now event) ∷ [])) }
        ensures kept { OnErr result ((items : List (ℕ × ℕ × Event))
            → tells self.old items → tells self.new items) };
}

/// Records the event of an outcome, if it has one.
pub fn record_outcome<R: Recorder>(
    recorder: &mut R,
    step: u64,
    thread: u8,
    outcome: CompactOutcome,
    team: &Team,
) -> Result<(), OutOfMemory>
    ensures told { OnOk result ((items : List (ℕ × ℕ × Event)) → R.tells recorder.old items
        → R.tells recorder.new (items ++ event_of step thread (outcome_with team.now outcome))) }
    ensures kept { OnErr result ((items : List (ℕ × ℕ × Event))
        → R.tells recorder.old items → R.tells recorder.new items) }
{
    match outcome {
        CompactOutcome::Event(event) => recorder.record_event(step, thread, event, team),
        CompactOutcome::Quiet | CompactOutcome::NotReady { .. } | CompactOutcome::Ended => Ok(()),
    }
}
