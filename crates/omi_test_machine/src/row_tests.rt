//! The lists of events of worked rows, and versions of them: some that a rule forbids, and some that stay lawful.

use crate::read_events::event;
use crate::worked_rows::{
    A_CONTESTED_WORKER, A_FREED_REGION, A_FULL_ROW_OF_SLOTS, A_GROUP_IN_A_GROUP,
    A_GROUPS_DESCENDANTS, A_LIST_WITH_A_CHANGED_HEAD, A_REGION_IN_ANOTHER, A_TASK_THAT_IS_LEFT,
    ALL, AN_ENDED_ANCESTOR, LIMIT_OF_ACTIVE_LEVELS, NESTED_CHAIN, Row, TOO_FEW_THREADS, Version,
    WAITS_AND_A_LOCK,
};
use omi_machine::{State, after, opening};
use omi_machine_legal::legal;
use omi_machine_view::view_of;
use omi_model::Event;
use omi_script::{Program, parse};
use omi_text::report_text;
use omi_word::{Natives, OutOfMemory};
use std::alloc::Global;
use std::process::Abort;
use std::test::Fail;

/// An event of a thread where it is legal. False where it isn't.
fn step(
    alloc: Global,
    p: &Program,
    s: &mut State,
    thread: u8,
    e: &Event,
) -> Result<bool, OutOfMemory> {
    if !legal(p, s, thread, e) {
        return Ok(false);
    }
    after(alloc, p, s, thread, e)?;
    Ok(true)
}

/// Feeds events from one place on up to another. The number of those that are legal.
fn feed(
    alloc: Global,
    p: &Program,
    s: &mut State,
    events: &str,
    from: usize,
    to: usize,
) -> Result<usize, OutOfMemory> {
    let mut fed = 0usize;
    for line in events.split(';').skip(from).take(to.saturating_sub(from)) {
        let Some((thread, e)) = event(line) else {
            return Ok(fed);
        };
        if !step(alloc, p, s, thread, &e)? {
            return Ok(fed);
        }
        fed = fed.saturating_add(1);
    }
    Ok(fed)
}

/// The state behind so many events of a row, where all of them are legal.
fn state_behind(
    alloc: Global,
    row: &Row,
    p: &Program,
    at: usize,
) -> Result<Option<State>, OutOfMemory> {
    let mut s = opening(alloc, p)?;
    let fed = feed(alloc, p, &mut s, row.events, 0, at)?;
    Ok(if fed == at { Some(s) } else { None })
}

/// Whether the one event of this line is refused behind so many events of a row.
fn is_forbidden(
    alloc: Global,
    row: &Row,
    p: &Program,
    at: usize,
    line: &str,
) -> Result<bool, OutOfMemory> {
    let (Some(s), Some((thread, e))) = (state_behind(alloc, row, p, at)?, event(line)) else {
        return Ok(false);
    };
    Ok(!legal(p, &s, thread, &e))
}

/// Whether a version's lines are legal, and the events of the row behind them.
fn is_lawful(alloc: Global, row: &Row, p: &Program, v: &Version) -> Result<bool, OutOfMemory> {
    let Some(mut s) = state_behind(alloc, row, p, v.at)? else {
        return Ok(false);
    };
    let lines = feed(alloc, p, &mut s, v.lines, 0, ALL)?;
    let replaced = v.at.saturating_add(v.instead);
    let behind = feed(alloc, p, &mut s, row.events, replaced, ALL)?;
    let rest = row.events.split(';').count().saturating_sub(replaced);
    Ok(lines == v.lines.split(';').count() && behind == rest)
}

/// Whether the report of a state, for the contexts of two threads, has a line.
fn reports(alloc: Global, s: &State, line: &str) -> Result<bool, OutOfMemory> {
    let mut contexts = Natives::new(alloc);
    contexts.push(1000)?;
    contexts.push(1001)?;
    let text = report_text(alloc, &view_of(alloc, s, &contexts)?)?;
    let mut found = false;
    for row in text.as_slice().split(|b| *b == b'\n') {
        found = found || row == line.as_bytes();
    }
    Ok(found)
}

/// Whether the report behind so many events of a row has a line.
fn is_reported(
    alloc: Global,
    row: &Row,
    p: &Program,
    at: usize,
    line: &str,
) -> Result<bool, OutOfMemory> {
    match state_behind(alloc, row, p, at)? {
        Some(s) => reports(alloc, &s, line),
        None => Ok(false),
    }
}

/// The events of a row are legal to their end, what is forbidden is refused, its versions are legal, and its lines are
/// reported.
fn expect(rt: &impl Abort, alloc: Global, row: &Row) -> Result<(), Fail> {
    let p = parse(alloc, row.script.as_bytes())?;
    let count = row.events.split(';').count();
    assert!(rt; state_behind(alloc, row, &p, count)?.is_some());
    for (at, line) in row.forbidden {
        assert!(rt; is_forbidden(alloc, row, &p, *at, line)?, "{at} {line}");
    }
    for v in row.lawful {
        assert!(rt; is_lawful(alloc, row, &p, v)?, "{}", v.lines);
    }
    for (at, line) in row.reported {
        assert!(rt; is_reported(alloc, row, &p, *at, line)?, "{line}");
    }
    Ok(())
}

#[test]
fn each_row(rt: HostRuntime) -> Result<(), Fail> {
    for row in [
        &A_LIST_WITH_A_CHANGED_HEAD,
        &TOO_FEW_THREADS,
        &A_CONTESTED_WORKER,
        &LIMIT_OF_ACTIVE_LEVELS,
        &AN_ENDED_ANCESTOR,
        &A_FULL_ROW_OF_SLOTS,
        &NESTED_CHAIN,
        &WAITS_AND_A_LOCK,
        &A_FREED_REGION,
        &A_TASK_THAT_IS_LEFT,
        &A_REGION_IN_ANOTHER,
        &A_GROUPS_DESCENDANTS,
        &A_GROUP_IN_A_GROUP,
    ] {
        expect(&rt, rt.alloc(), row)?;
    }
    Ok(())
}
