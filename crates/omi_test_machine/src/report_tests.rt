//! The whole report of a half-made fork, and that of the fork.
use crate::read_events::event;
use omi_fixture_rows::{A_TEAM_OF_TWO, FORKED, HALF_MADE};
use omi_machine::{State, after, opening};
use omi_machine_legal::legal;
use omi_machine_view::view_of;
use omi_script::parse;
use omi_text::report_text;
use omi_word::Natives;
use std::test::Fail;

/// The events before the fork.
const BEFORE: &str = "t1 begin; t1 offer; t0 enter; t0 state overhead 0; t0 want 2; t0 ask 1 got";

/// The fork.
const FORK: &str = "t0 fork r0.1.0 size 2 team k0.1.0@0 k0.2.0@1";

/// The state behind these events, each of them legal.
fn state_behind(rt: &HostRuntime, events: &str) -> Result<State, Fail> {
    let p = parse(rt.alloc(), A_TEAM_OF_TWO.as_bytes())?;
    let mut s = opening(rt.alloc(), &p)?;
    for line in events.split(';') {
        let (thread, e) = event(line).ok_or("no event")?;
        if !legal(&p, &s, thread, &e) {
            return Err(Fail::from("not legal"));
        }
        after(rt.alloc(), &p, &mut s, thread, &e)?;
    }
    Ok(s)
}

/// The report of a state for the contexts of both threads.
fn report(rt: &HostRuntime, s: &State) -> Result<Vec<u8>, Fail> {
    let mut contexts = Natives::new(rt.alloc());
    contexts.push(1000)?;
    contexts.push(1001)?;
    let view = view_of(rt.alloc(), s, &contexts)?;
    Ok(report_text(rt.alloc(), &view)?)
}

#[test]
fn half_made_update(rt: HostRuntime) -> Result<(), Fail> {
    let text = report(&rt, &state_behind(&rt, BEFORE)?)?;
    assert!(rt; text.as_slice() == HALF_MADE.as_bytes());
    Ok(())
}

#[test]
fn the_commit(rt: HostRuntime) -> Result<(), Fail> {
    let events = format!(in rt.alloc(); "{BEFORE}; {FORK}")?;
    let text = report(&rt, &state_behind(&rt, &events)?)?;
    assert!(rt; text.as_slice() == FORKED.as_bytes());
    Ok(())
}
