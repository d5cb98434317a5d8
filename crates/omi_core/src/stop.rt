//! Where a run ends.

ghost use Rattle.std.specs.Prelude.{◌≡◌, ℕ, List};
ghost use Rattle.omi_core.specs.Ends.{IsBelow, end_at, end_of_kind, is_done, is_of_kind, met_at};
ghost use Rattle.omi_model.specs.declared.id.Tid.{Tid};
ghost use Rattle.omi_run_lists.specs.Compact.{with_team};
ghost use Rattle.omi_step_words.specs.Outcomes.{outcome_with};

use omi_model::Event;
use omi_rep::Outcome;
use omi_run_lists::CompactEvent;
use omi_step_words::CompactOutcome;

/// A kind of event at which a run may stop: those that a debugger's breakpoints stand for.
#[derive(Clone, Copy, Debug, PartialEq, Eq)]
pub enum Break {
    /// A team is forked.
    ParallelBegin,
    /// A team is joined.
    ParallelEnd,
    /// An explicit task starts.
    TaskBegin,
    /// An explicit task finishes.
    TaskEnd,
    /// A thread begins.
    ThreadBegin,
}

/// Where a run stops: after so many steps, or before at the event of a kind that has this number among those of the run,
/// counted from 1.
#[derive(Clone, Copy)]
pub struct Stop {
    pub steps: u64,
    pub on: Option<(Break, u32)>,
}

/// Why a run ended.
#[derive(Clone, Copy, Debug, PartialEq, Eq)]
pub enum End {
    /// The number of steps was made.
    Steps,
    /// The event at which it was to stop was committed.
    Break,
    /// The program is done.
    Done,
}

/// Whether an event is of a kind.
fn is_of_kind(kind: Break, event: &Event) -> bool
    ensures { result ≡ is_of_kind kind event.now }
{
    match kind {
        Break::ParallelBegin => matches!(event, Event::Fork { .. }),
        Break::ParallelEnd => matches!(event, Event::Join { .. }),
        Break::TaskBegin => matches!(event, Event::Start { .. } | Event::StartNow { .. }),
        Break::TaskEnd => matches!(event, Event::Finish { .. }),
        Break::ThreadBegin => matches!(event, Event::Begin),
    }
}

/// Whether an event is `done`.
fn is_done(event: &Event) -> bool
    ensures { result ≡ is_done event.now }
{
    matches!(event, Event::Done)
}

/// Whether an event of the kind at which a run stops ends it, where so many of the kind came before.
fn end_of_kind(on: Option<(Break, u32)>, met: u32, event: &Event) -> Option<End>
    requires { IsBelow on met }
    ensures { result ≡ end_of_kind on met event.now }
{
    let (kind, count) = on?;
    if is_of_kind(kind, event) && met + 1 == count {
        Some(End::Break)
    } else {
        None
    }
}

/// Why a run ends at what came of a step, where so many events of the kind at which it stops came before. None where it goes on.
pub fn end_at(on: Option<(Break, u32)>, met: u32, outcome: &Outcome) -> Option<End>
    requires { IsBelow on met }
    ensures { result ≡ end_at on met outcome.now }
{
    let Outcome::Event(event) = outcome else {
        return None;
    };
    if is_done(event) {
        return Some(End::Done);
    }
    end_of_kind(on, met, event)
}

/// How many events of the kind at which a run stops there are behind a step.
pub fn met_at(on: Option<(Break, u32)>, met: u32, outcome: &Outcome) -> u32
    requires { IsBelow on met }
    ensures { result ≡ met_at on met outcome.now }
{
    let Outcome::Event(event) = outcome else {
        return met;
    };
    match on {
        Some((kind, _)) if is_of_kind(kind, event) => met + 1,
        _ => met,
    }
}

/// `is_of_kind` of an event without its team.
fn is_compact_of_kind(kind: Break, event: CompactEvent) -> bool
    ensures { (team : List (Tid × ℕ)) → result ≡ is_of_kind kind (with_team team event) }
{
    match kind {
        Break::ParallelBegin => matches!(event, CompactEvent::Fork { .. }),
        Break::ParallelEnd => matches!(event, CompactEvent::Join { .. }),
        Break::TaskBegin => matches!(
            event,
            CompactEvent::Start { .. } | CompactEvent::StartNow { .. }
        ),
        Break::TaskEnd => matches!(event, CompactEvent::Finish { .. }),
        Break::ThreadBegin => matches!(event, CompactEvent::Begin),
    }
}

/// `end_of_kind` of an event without its team.
fn compact_end_of_kind(on: Option<(Break, u32)>, met: u32, event: CompactEvent) -> Option<End>
    requires { IsBelow on met }
    ensures { (team : List (Tid × ℕ)) → result ≡ end_of_kind on met (with_team team event) }
{
    let (kind, count) = on?;
    if is_compact_of_kind(kind, event) && met + 1 == count {
        Some(End::Break)
    } else {
        None
    }
}

/// `end_at` of an outcome without its team.
pub fn compact_end_at(on: Option<(Break, u32)>, met: u32, outcome: CompactOutcome) -> Option<End>
    requires { IsBelow on met }
    ensures { (team : List (Tid × ℕ)) → result ≡ end_at on met (outcome_with team outcome) }
{
    let CompactOutcome::Event(event) = outcome else {
        return None;
    };
    if is_compact_done(event) {
        return Some(End::Done);
    }
    compact_end_of_kind(on, met, event)
}

/// `is_done` of an event without its team.
fn is_compact_done(event: CompactEvent) -> bool
    ensures { (team : List (Tid × ℕ)) → result ≡ is_done (with_team team event) }
{
    matches!(event, CompactEvent::Done)
}

/// `met_at` of an outcome without its team.
pub fn compact_met_at(on: Option<(Break, u32)>, met: u32, outcome: CompactOutcome) -> u32
    requires { IsBelow on met }
    ensures { (team : List (Tid × ℕ)) → result ≡ met_at on met (outcome_with team outcome) }
{
    let CompactOutcome::Event(event) = outcome else {
        return met;
    };
    match on {
        Some((kind, _)) if is_compact_of_kind(kind, event) => met + 1,
        _ => met,
    }
}
