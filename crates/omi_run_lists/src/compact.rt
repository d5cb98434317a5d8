//! An event without the members of its team.

ghost use Rattle.std.specs.Prelude.{◌≡◌};
ghost use Rattle.omi_run_lists.specs.Compact.{with_team};
ghost use Rattle.omi_run_lists.specs.Events.{team_in};

use omi_model::{Event, Rid, Team, Tid};

/// An event but for the members of the team that is forked, in 16 bytes. An `Event` has room for the members of the largest team, so
/// that it is dear to make and to move.
#[derive(Clone, Copy, Debug, PartialEq, Eq)]
pub enum CompactEvent {
    Begin,
    Offer,
    Want { n: u8 },
    Ask { w: u8, got: bool },
    Fork { region: Rid },
    ImplicitBegin { task: Tid },
    State { state: u32, wait: u64 },
    Enter,
    Leave,
    Arrive,
    Release,
    Pass,
    ImplicitEnd { task: Tid },
    Join { region: Rid },
    FreeTask { task: Tid },
    FreeRegion { region: Rid },
    Seen { j: u8 },
    Defer { task: Tid },
    StartNow { task: Tid },
    Start { task: Tid },
    Finish { task: Tid },
    WaitDone,
    GroupBegin,
    GroupEnd,
    Yield,
    Set { icv: u32, value: u64 },
    SetTool { x: u64 },
    Lock { k: u8 },
    Unlock { k: u8 },
    Work,
    Call { f: u8 },
    Skip,
    Ret,
    Done,
}

impl CompactEvent {
    /// An event without the members of its team.
    pub fn of(event: &Event) -> CompactEvent
        ensures { with_team (team_in event.now) result ≡ event.now }
    {
        match *event {
            Event::Begin => CompactEvent::Begin,
            Event::Offer => CompactEvent::Offer,
            Event::Want { n } => CompactEvent::Want { n },
            Event::Ask { w, got } => CompactEvent::Ask { w, got },
            Event::Fork { region, team: _ } => CompactEvent::Fork { region },
            Event::ImplicitBegin { task } => CompactEvent::ImplicitBegin { task },
            Event::State { state, wait } => CompactEvent::State { state, wait },
            Event::Enter => CompactEvent::Enter,
            Event::Leave => CompactEvent::Leave,
            Event::Arrive => CompactEvent::Arrive,
            Event::Release => CompactEvent::Release,
            Event::Pass => CompactEvent::Pass,
            Event::ImplicitEnd { task } => CompactEvent::ImplicitEnd { task },
            Event::Join { region } => CompactEvent::Join { region },
            Event::FreeTask { task } => CompactEvent::FreeTask { task },
            Event::FreeRegion { region } => CompactEvent::FreeRegion { region },
            Event::Seen { j } => CompactEvent::Seen { j },
            Event::Defer { task } => CompactEvent::Defer { task },
            Event::StartNow { task } => CompactEvent::StartNow { task },
            Event::Start { task } => CompactEvent::Start { task },
            Event::Finish { task } => CompactEvent::Finish { task },
            Event::WaitDone => CompactEvent::WaitDone,
            Event::GroupBegin => CompactEvent::GroupBegin,
            Event::GroupEnd => CompactEvent::GroupEnd,
            Event::Yield => CompactEvent::Yield,
            Event::Set { icv, value } => CompactEvent::Set { icv, value },
            Event::SetTool { x } => CompactEvent::SetTool { x },
            Event::Lock { k } => CompactEvent::Lock { k },
            Event::Unlock { k } => CompactEvent::Unlock { k },
            Event::Work => CompactEvent::Work,
            Event::Call { f } => CompactEvent::Call { f },
            Event::Skip => CompactEvent::Skip,
            Event::Ret => CompactEvent::Ret,
            Event::Done => CompactEvent::Done,
        }
    }

    /// The event with the members of a team, which a fork takes and every other event leaves.
    pub fn with_team(self, team: &Team) -> Event
        ensures { result ≡ with_team team.now self }
    {
        match self {
            CompactEvent::Begin => Event::Begin,
            CompactEvent::Offer => Event::Offer,
            CompactEvent::Want { n } => Event::Want { n },
            CompactEvent::Ask { w, got } => Event::Ask { w, got },
            CompactEvent::Fork { region } => Event::Fork {
                region,
                team: *team,
            },
            CompactEvent::ImplicitBegin { task } => Event::ImplicitBegin { task },
            CompactEvent::State { state, wait } => Event::State { state, wait },
            CompactEvent::Enter => Event::Enter,
            CompactEvent::Leave => Event::Leave,
            CompactEvent::Arrive => Event::Arrive,
            CompactEvent::Release => Event::Release,
            CompactEvent::Pass => Event::Pass,
            CompactEvent::ImplicitEnd { task } => Event::ImplicitEnd { task },
            CompactEvent::Join { region } => Event::Join { region },
            CompactEvent::FreeTask { task } => Event::FreeTask { task },
            CompactEvent::FreeRegion { region } => Event::FreeRegion { region },
            CompactEvent::Seen { j } => Event::Seen { j },
            CompactEvent::Defer { task } => Event::Defer { task },
            CompactEvent::StartNow { task } => Event::StartNow { task },
            CompactEvent::Start { task } => Event::Start { task },
            CompactEvent::Finish { task } => Event::Finish { task },
            CompactEvent::WaitDone => Event::WaitDone,
            CompactEvent::GroupBegin => Event::GroupBegin,
            CompactEvent::GroupEnd => Event::GroupEnd,
            CompactEvent::Yield => Event::Yield,
            CompactEvent::Set { icv, value } => Event::Set { icv, value },
            CompactEvent::SetTool { x } => Event::SetTool { x },
            CompactEvent::Lock { k } => Event::Lock { k },
            CompactEvent::Unlock { k } => Event::Unlock { k },
            CompactEvent::Work => Event::Work,
            CompactEvent::Call { f } => Event::Call { f },
            CompactEvent::Skip => Event::Skip,
            CompactEvent::Ret => Event::Ret,
            CompactEvent::Done => Event::Done,
        }
    }
}
