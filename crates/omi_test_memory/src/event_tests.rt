//! The text of each event.

use omi_model::{Event, Id, Rid, Team, Tid};
use omi_run_lists::CompactEvent;
use omi_text::{event_text, push_compact_line};
use std::alloc::{AllocError, Global};
use std::process::Abort;
use std::test::*;

/// Each event has its text.
fn expect_texts(rt: &impl Abort, alloc: Global, rows: &[(Event, &str)]) -> Result<(), AllocError> {
    for (event, text) in rows {
        let line = event_text(alloc, 1_000_000, 15, event)?;
        let wanted = format!(in alloc; "1000000 t15 {text}\n")?;
        assert_eq!(rt; line.as_slice(), wanted.as_bytes());
    }
    Ok(())
}

/// A task and a region of thread 1, of the generation 2.
const TASK: Tid = Tid(Id {
    creator: 1,
    slot: 30,
    generation: 2,
});

const REGION: Rid = Rid(Id {
    creator: 1,
    slot: 4,
    generation: 2,
});

/// The name of another task.
fn task(slot: u16) -> Tid {
    Tid(Id {
        creator: 1,
        slot,
        generation: 2,
    })
}

#[test]
fn a_fork(rt: HostRuntime) -> Result<(), Fail> {
    let mut team = Team::new();
    team.push(task(5), 1);
    team.push(task(6), 63);
    let event = Event::Fork {
        region: REGION,
        team,
    };
    let text = "fork r1.4.2 size 2 team k1.5.2@1 k1.6.2@63";
    expect_texts(&rt, rt.alloc(), &[(event, text)])?;
    Ok(())
}

#[test]
fn lines_of_events_without_their_teams(rt: HostRuntime) -> Result<(), Fail> {
    let mut team = Team::new();
    team.push(task(5), 1);
    team.push(task(6), 63);
    let mut text = String::new(rt.alloc());
    let mut room = String::new(rt.alloc());
    push_compact_line(&mut text, &mut room, 1, 0, CompactEvent::Begin, &team)?;
    push_compact_line(
        &mut text,
        &mut room,
        20,
        15,
        CompactEvent::Fork { region: REGION },
        &team,
    )?;
    push_compact_line(
        &mut text,
        &mut room,
        300,
        63,
        CompactEvent::Ask { w: 3, got: false },
        &team,
    )?;
    push_compact_line(
        &mut text,
        &mut room,
        u64::MAX,
        7,
        CompactEvent::SetTool { x: u64::MAX },
        &team,
    )?;
    push_compact_line(
        &mut text,
        &mut room,
        5,
        1,
        CompactEvent::Start { task: TASK },
        &team,
    )?;
    let wanted = "1 t0 begin
20 t15 fork r1.4.2 size 2 team k1.5.2@1 k1.6.2@63
300 t63 ask 3 busy
18446744073709551615 t7 tool 18446744073709551615
5 t1 start k1.30.2
";
    assert_eq!(rt; text.as_str(), wanted);
    Ok(())
}

/// Each other event.
const EVENTS: [(Event, &str); 38] = [
    (Event::Begin, "begin"),
    (Event::Offer, "offer"),
    (Event::Want { n: 64 }, "want 64"),
    (Event::Ask { w: 3, got: true }, "ask 3 got"),
    (Event::Ask { w: 3, got: false }, "ask 3 busy"),
    (
        Event::ImplicitBegin { task: TASK },
        "implicit_begin k1.30.2",
    ),
    (
        Event::State {
            state: 0x42,
            wait: 8,
        },
        "state wait_critical 8",
    ),
    (Event::Enter, "enter"),
    (Event::Leave, "leave"),
    (Event::Arrive, "arrive"),
    (Event::Release, "release"),
    (Event::Pass, "pass"),
    (Event::ImplicitEnd { task: TASK }, "implicit_end k1.30.2"),
    (Event::Join { region: REGION }, "join r1.4.2"),
    (Event::FreeTask { task: TASK }, "free k1.30.2"),
    (Event::FreeRegion { region: REGION }, "free r1.4.2"),
    (Event::Seen { j: 3 }, "seen 3"),
    (Event::Defer { task: TASK }, "defer k1.30.2"),
    (Event::StartNow { task: TASK }, "start_now k1.30.2"),
    (Event::Start { task: TASK }, "start k1.30.2"),
    (Event::Finish { task: TASK }, "finish k1.30.2"),
    (Event::WaitDone, "wait_done"),
    (Event::GroupBegin, "group_begin"),
    (Event::GroupEnd, "group_end"),
    (Event::Yield, "yield"),
    (Event::Set { icv: 1, value: 1 }, "set dyn-var 1"),
    (Event::Set { icv: 2, value: 64 }, "set nthreads-var 64"),
    (
        Event::Set { icv: 3, value: 59 },
        "set run-sched-var guided,7",
    ),
    (Event::Set { icv: 4, value: 9 }, "set default-device-var 9"),
    (
        Event::Set { icv: 7, value: 0 },
        "set max-active-levels-var 0",
    ),
    (Event::SetTool { x: u64::MAX }, "tool 18446744073709551615"),
    (Event::Lock { k: 7 }, "lock 7"),
    (Event::Unlock { k: 7 }, "unlock 7"),
    (Event::Work, "work"),
    (Event::Call { f: 63 }, "call 63"),
    (Event::Skip, "skip"),
    (Event::Ret, "ret"),
    (Event::Done, "done"),
];

#[test]
fn each_event(rt: HostRuntime) -> Result<(), Fail> {
    expect_texts(&rt, rt.alloc(), &EVENTS)?;
    Ok(())
}
