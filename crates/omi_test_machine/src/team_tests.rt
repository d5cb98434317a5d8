//! Teams at their limits.

use omi_model::{Event, Id, Team, Tid};
use std::mem::size_of;

/// A task of thread 1.
fn task(slot: u16) -> Tid {
    Tid(Id {
        creator: 1,
        slot,
        generation: 7,
    })
}

#[test]
fn a_team_in_place(rt: HostRuntime) {
    let mut team = Team::new();
    assert_eq!(rt; team.len(), 0);
    team.push(task(3), 0);
    team.push(task(5), 9);
    assert_eq!(rt; team.len(), 2);
    assert_eq!(rt; team.get(0), (task(3), 0));
    assert_eq!(rt; team.get(1), (task(5), 9));
    team.set_task(1, task(6));
    assert_eq!(rt; team.get(1), (task(6), 9));
    team.set_task(1, task(5));
    let mut other = Team::new();
    other.push(task(3), 0);
    assert!(rt; team != other);
    other.push(task(5), 9);
    assert!(rt; team == other);
}

#[test]
fn an_event_has_at_most_640_bytes(rt: HostRuntime) {
    assert!(rt; size_of::<Event>() <= 640);
}
