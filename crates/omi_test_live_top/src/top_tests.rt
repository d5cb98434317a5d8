//! Runs of threads through the top call, and each of its refusals.

use omi_fixture_done::Done;
use omi_fixture_gates::{Leading, Meeting, call, call_past, inspect};
use omi_fixture_rows::{A_FULL_ROW, A_TEAM_OF_TWO};
use omi_outside::{Call, Status};
use std::alloc::Global;
use std::process::Abort;
use std::test::Fail;

/// The report of a team's opening.
const OPENING: &str = "ompd 201811 threads 2 debug enabled
icv num-procs-var=4 max-active-levels-var=8
thread 0 native 1000 state work_serial wait 0 thread-num-var=0 current k0.0.0
native 1001 none
region r0.0.0 function 0x400010 levels-var=0 active-levels-var=0 team-size-var=1 enclosing none
member 0 thread 0 task k0.0.0
task k0.0.0 thread 0 kind implicit region r0.0.0 function 0x400010 generating none scheduling none exit 0x7f00000fffc0 enter 0x0 tool 0
icv dyn-var=0 nthreads-var=2 run-sched-var=static,0 default-device-var=0 final-task-var=0 implicit-task-var=1
";

/// Without steps the core is that of the opening.
#[test]
fn no_budget_is_the_opening(rt: HostRuntime) -> Result<(), Fail> {
    let alloc = rt.alloc();
    let mut done = call(&rt, alloc, "0 s c", A_TEAM_OF_TWO, None, Vec::new(alloc))?;
    assert_eq!(&rt; done.status, Status::Success);
    let printed = done.printed(alloc)?;
    assert_eq!(&rt;
        printed.as_str(),
        "thread 0 steps 0\nthread 1 steps 0\nend budget 0\n"
    );
    assert!(&rt; done.holds("other", b"stays"));
    assert!(&rt; done.holds("s", A_TEAM_OF_TWO.as_bytes()));
    let shown = inspect(alloc, "show c", &mut done.files)?;
    let report = shown.printed(alloc)?;
    assert_eq!(&rt; report.as_str(), OPENING);
    Ok(())
}

/// A program of one thread leaves the core that `stop` leaves, and has its events.
#[test]
fn one_thread_runs_as_stopped(rt: HostRuntime) -> Result<(), Fail> {
    let alloc = rt.alloc();
    for option in ["", " --layout 7"] {
        let line = format!(in alloc; "5000 s c{option}")?;
        let mut done = call(&rt, alloc, &line, A_FULL_ROW, None, Vec::new(alloc))?;
        assert_eq!(&rt; done.status, Status::Success);
        let stop = format!(in alloc; "stop 5000 s c{option}")?;
        let stopped = inspect(alloc, &stop, &mut done.files)?;
        assert_eq!(&rt; stopped.status, Status::Success);
        assert_eq!(&rt; done.core(), stopped.core());
        let live = done.printed(alloc)?;
        let (first, live) = live.split_once('\n').ok_or("no line")?;
        let live = live.strip_suffix("end budget 5000\n").ok_or("no end line")?;
        let stopped = stopped.printed(alloc)?;
        let (events, steps) = stopped.split_once("end steps ").ok_or("no end line")?;
        assert_eq!(&rt; live, events);
        let (steps, _) = steps.split_once(' ').ok_or("no steps")?;
        let wanted = format!(in alloc; "thread 0 steps {steps}")?;
        assert_eq!(&rt; first, wanted.as_str());
    }
    Ok(())
}

/// The lines of one thread among those that are printed.
fn lines_of<'a>(printed: &'a str, thread: &str) -> Option<&'a str> {
    let (_, rest) = printed.split_once(thread)?;
    Some(match rest.split_once("thread ") {
        Some((lines, _)) => lines,
        None => rest,
    })
}

/// A break stops the threads: the event is the last of its thread, and the core is shown.
#[test]
fn a_break_is_printed_last(rt: HostRuntime) -> Result<(), Fail> {
    let alloc = rt.alloc();
    let line = "50000 s c --break parallel_begin";
    let mut done = call(&rt, alloc, line, A_TEAM_OF_TWO, None, Vec::new(alloc))?;
    assert_eq!(&rt; done.status, Status::Success);
    let printed = done.printed(alloc)?;
    let first = lines_of(&printed, "thread 0 steps ").ok_or("no thread")?;
    let last = first.trim_end().split_once(" t0 fork ");
    assert!(&rt; last.is_some());
    let (_, team) = last.unwrap();
    assert!(&rt; !team.contains('\n'));
    let shown = inspect(alloc, "show c", &mut done.files)?;
    assert_eq!(&rt; shown.status, Status::Success);
    Ok(())
}

/// Two threads stand before their second steps at once. A worker begins with its first step, and is free with its second; a team comes
/// no sooner than behind the fifth step of the other thread.
#[test]
fn threads_run_beside_each_other(rt: HostRuntime) -> Result<(), Fail> {
    let alloc = rt.alloc();
    let gate = Meeting::of(2);
    let puts = Vec::new(alloc);
    let done = call_past(&rt, alloc, "5 s c", A_TEAM_OF_TWO, None, puts, &gate)?;
    assert_eq!(&rt; done.status, Status::Success);
    assert_eq!(&rt; gate.opened(), (2, 5));
    assert_eq!(&rt; gate.met(), 2);
    assert_eq!(&rt; gate.passes(), 10);
    let printed = done.printed(alloc)?;
    assert!(&rt; printed.starts_with("thread 0 steps 5\n"));
    let last = "thread 1 steps 5\n1 t1 begin\n2 t1 offer\nend budget 5\n";
    assert!(&rt; printed.ends_with(last));
    Ok(())
}

/// Thread 0 is held before its first step until thread 1 has begun, and makes none.
#[test]
fn a_break_is_seen_by_others(rt: HostRuntime) -> Result<(), Fail> {
    let alloc = rt.alloc();
    let gate = Leading::by(1, 2, 1);
    let line = "5 s c --break thread_begin";
    let puts = Vec::new(alloc);
    let done = call_past(&rt, alloc, line, A_TEAM_OF_TWO, None, puts, &gate)?;
    assert_eq!(&rt; done.status, Status::Success);
    assert_eq!(&rt; gate.let_go(), 2);
    let printed = done.printed(alloc)?;
    assert_eq!(&rt;
        printed.as_str(),
        "thread 0 steps 0\nthread 1 steps 1\n1 t1 begin\nend budget 5\n"
    );
    Ok(())
}

/// A call ends with this status, prints this line, and leaves the core.
fn expect(
    rt: &impl Abort,
    alloc: Global,
    done: &Done,
    status: Status,
    line: &str,
) -> Result<(), Fail> {
    assert_eq!(rt; done.status, status, "{line}");
    let printed = done.printed(alloc)?;
    assert_eq!(rt; printed.as_str(), line);
    assert!(rt; done.holds("c", b"before"));
    Ok(())
}

#[test]
fn refused_words(rt: HostRuntime) -> Result<(), Fail> {
    let alloc = rt.alloc();
    for line in [
        "5 s",
        "5 s c d",
        "50001 s c",
        "05 s c",
        "x s c",
        "5 s c --seed 1",
        "5 s c --break fork",
        "5 s c --break parallel_begin --count 1",
        "5 s c --layout 16",
        "5 s c --budget 1",
    ] {
        let done = call(&rt, alloc, line, A_TEAM_OF_TWO, None, Vec::new(alloc))?;
        expect(&rt, alloc, &done, Status::Usage, "usage\n")?;
    }
    Ok(())
}

#[test]
fn refused_scripts(rt: HostRuntime) -> Result<(), Fail> {
    let alloc = rt.alloc();
    let done = call(&rt, alloc, "5 t c", A_TEAM_OF_TWO, None, Vec::new(alloc))?;
    expect(&rt, alloc, &done, Status::NoFile, "no file t\n")?;
    let done = call(
        &rt,
        alloc,
        "5 s c",
        "func main\nwalk\nend\n",
        None,
        Vec::new(alloc),
    )?;
    expect(
        &rt,
        alloc,
        &done,
        Status::Script,
        "script 2 2 UnknownWord\n",
    )?;
    Ok(())
}

#[test]
fn failing_calls(rt: HostRuntime) -> Result<(), Fail> {
    let alloc = rt.alloc();
    for kind in [Call::Size, Call::ReadAt] {
        let done = call(
            &rt,
            alloc,
            "5 s c",
            A_TEAM_OF_TWO,
            Some(kind),
            Vec::new(alloc),
        )?;
        expect(&rt, alloc, &done, Status::ReadFault, "read fault s\n")?;
    }
    let done = call(
        &rt,
        alloc,
        "5 s c",
        A_TEAM_OF_TWO,
        Some(Call::Create),
        Vec::new(alloc),
    )?;
    expect(&rt, alloc, &done, Status::WriteFault, "")?;
    let done = call(
        &rt,
        alloc,
        "5 s c",
        A_TEAM_OF_TWO,
        Some(Call::Append),
        Vec::new(alloc),
    )?;
    assert_eq!(&rt; done.status, Status::WriteFault);
    assert!(&rt; done.holds("c", b""));
    let mut puts = Vec::new(alloc);
    puts.push(1)?;
    let done = call(&rt, alloc, "0 s c", A_TEAM_OF_TWO, None, puts)?;
    assert_eq!(&rt; done.status, Status::WriteFault);
    assert!(&rt; !done.holds("c", b"before"));
    Ok(())
}
