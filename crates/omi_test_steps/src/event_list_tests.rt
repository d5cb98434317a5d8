//! Each call of the two lists of a run once with memory at hand, and teams read back.

ghost use Rattle.std.specs.Prelude.{◌<◌};

use omi_model::{Event, Id, MOST_MEMBERS, Rid, Team, Tid};
use omi_run_lists::{CompactEvent, EventList, Made, MadeList, Turn};
use omi_word::Op;
use std::test::Fail;

/// The name of the object of thread 1 in this slot.
fn id(slot: u16) -> Id {
    Id {
        creator: 1,
        slot,
        generation: 7,
    }
}

/// A fork with so many members, or with 64, of tasks from this slot on.
fn fork(slot: u16, size: u8) -> Event
    requires { slot < 1000 }
{
    let mut team = Team::new();
    for at in 0..size {
        if team.len() < MOST_MEMBERS {
            team.push(Tid(id(slot + u16::from(at))), at);
        }
    }
    let region = Rid(id(slot));
    Event::Fork { region, team }
}

#[test]
fn teams_are_read_back(rt: HostRuntime) -> Result<(), Fail> {
    let mut events = EventList::new(rt.alloc());
    events.push((u64::MAX, 255, fork(3, 2)))?;
    let task = Tid(id(5));
    events.push((8, 1, Event::Start { task }))?;
    events.push((9, 0, fork(9, 64)))?;
    let copy = events.same(rt.alloc())?;
    events.push((10, 2, fork(7, 1)))?;
    assert_eq!(rt; copy.len(), 3);
    assert_eq!(rt; copy.get(0), (u64::MAX, 255, fork(3, 2)));
    assert_eq!(rt; copy.get(2), (9, 0, fork(9, 64)));
    assert_eq!(rt; events.get(1), (8, 1, Event::Start { task }));
    assert_eq!(rt; events.get(3), (10, 2, fork(7, 1)));
    Ok(())
}

#[test]
fn events_in_room_that_is_there(rt: HostRuntime) -> Result<(), Fail> {
    let mut events = EventList::new(rt.alloc());
    assert_eq!(rt; (events.spare(), events.seats()), (0, 0));
    events.reserve(2, 64)?;
    assert!(rt; events.spare() >= 2);
    assert!(rt; events.seats() >= 64);
    events.push_reserved((1, 0, fork(0, 64)));
    events.push_reserved((2, 0, Event::SetTool { x: 7 }));
    assert_eq!(rt; events.len(), 2);
    assert_eq!(rt; events.get(0), (1, 0, fork(0, 64)));
    assert_eq!(rt; events.get(1), (2, 0, Event::SetTool { x: 7 }));
    Ok(())
}

#[test]
fn events_without_their_teams(rt: HostRuntime) -> Result<(), Fail> {
    let mut events = EventList::new(rt.alloc());
    events.reserve(3, 2)?;
    let mut team = Team::new();
    team.push(Tid(id(3)), 0);
    team.push(Tid(id(4)), 1);
    let region = Rid(id(3));
    events.push_compact(5, 1, CompactEvent::Enter, &team);
    events.push_compact(6, 1, CompactEvent::Fork { region }, &team);
    events.push_compact(7, 0, CompactEvent::Join { region }, &team);
    assert_eq!(rt; events.len(), 3);
    assert_eq!(rt; events.get(0), (5, 1, Event::Enter));
    assert_eq!(rt; events.get(1), (6, 1, fork(3, 2)));
    assert_eq!(rt; events.get(2), (7, 0, Event::Join { region }));
    let mut told = Team::new();
    let fork = (6, 1, CompactEvent::Fork { region });
    assert_eq!(rt; events.get_compact(1, &mut told), fork);
    assert_eq!(rt; told, team);
    Ok(())
}

#[test]
fn made_steps(rt: HostRuntime) -> Result<(), Fail> {
    let mut made = MadeList::new(rt.alloc());
    assert_eq!(rt; made.spare(), 0);
    made.reserve(1)?;
    assert!(rt; made.spare() >= 1);
    let quiet = Made {
        op: Op::Cas {
            at: 0x10008,
            old: 4,
            new: 9,
        },
        old: u64::MAX,
        thread: 255,
        turn: Turn::Quiet,
    };
    made.push_reserved(quiet);
    let ended = Made {
        op: Op::Load { at: 0x10000 },
        old: 1,
        thread: 0,
        turn: Turn::Ended,
    };
    made.push(ended)?;
    let copy = made.same(rt.alloc())?;
    assert_eq!(rt; copy.len(), 2);
    assert_eq!(rt; copy.get(0), quiet);
    assert_eq!(rt; made.get(1), ended);
    Ok(())
}

/// Takes only what may be handed to another thread.
fn hand_over<T: Send + Drop>(_value: T) {}

#[test]
fn lists_move_between_threads(rt: HostRuntime) {
    hand_over(EventList::new(rt.alloc()));
    hand_over(MadeList::new(rt.alloc()));
}
