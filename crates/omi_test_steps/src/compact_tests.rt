//! Events without the members of their teams.

use omi_model::{Event, Id, Rid, Team, Tid};
use omi_run_lists::CompactEvent;
use std::mem::size_of;
use std::test::Fail;

/// The name of an object of thread 1.
const NAME: Id = Id {
    creator: 1,
    slot: 4,
    generation: 7,
};

#[test]
fn a_fork_takes_the_team_and_others_leave_it(rt: HostRuntime) -> Result<(), Fail> {
    let mut team = Team::new();
    team.push(Tid(NAME), 1);
    team.push(Tid(NAME), 63);
    let region = Rid(NAME);
    assert_eq!(rt;
        CompactEvent::Fork { region }.with_team(&team),
        Event::Fork { region, team }
    );
    assert_eq!(rt;
        CompactEvent::Join { region }.with_team(&team),
        Event::Join { region }
    );
    let state = CompactEvent::State { state: 3, wait: 9 };
    assert_eq!(rt; state.with_team(&team), Event::State { state: 3, wait: 9 });
    assert_eq!(rt; CompactEvent::Work.with_team(&team), Event::Work);
    assert_eq!(rt; size_of::<CompactEvent>(), 16);
    Ok(())
}

#[test]
fn an_event_leaves_its_team(rt: HostRuntime) -> Result<(), Fail> {
    let mut team = Team::new();
    team.push(Tid(NAME), 1);
    let region = Rid(NAME);
    let fork = Event::Fork { region, team };
    assert_eq!(rt; CompactEvent::of(&fork), CompactEvent::Fork { region });
    let task = Tid(NAME);
    assert_eq!(rt;
        CompactEvent::of(&Event::Start { task }),
        CompactEvent::Start { task }
    );
    assert_eq!(rt; CompactEvent::of(&Event::Done), CompactEvent::Done);
    Ok(())
}
