//! Runs of threads with stops through the top call, and each of its refusals.

use crate::gates::{AtSteps, MidRun};
use omi_fixture_done::{Done, split};
use omi_fixture_rows::{A_TEAM_OF_TWO, AN_EMPTY_RUN};
use omi_outside::{Call, FreeGate, Gate, MemFiles, MemSink, Status};
use omi_park::park_top;
use std::alloc::{AllocError, Global};
use std::sync::Wait;
use std::test::Fail;
use std::thread::Threads;

/// The report of the opening of a program of one thread without statements.
const OPENING: &str = "ompd 201811 threads 1 debug enabled
icv num-procs-var=4 max-active-levels-var=8
thread 0 native 1000 state work_serial wait 0 thread-num-var=0 current k0.0.0
region r0.0.0 function 0x400000 levels-var=0 active-levels-var=0 team-size-var=1 enclosing none
member 0 thread 0 task k0.0.0
task k0.0.0 thread 0 kind implicit region r0.0.0 function 0x400000 generating none scheduling none exit 0x7f00000fffc0 enter 0x0 tool 0
icv dyn-var=0 nthreads-var=1 run-sched-var=static,0 default-device-var=0 final-task-var=0 implicit-task-var=1
";

/// Four threads that wait for each other, and for a lock.
const A_LOCK: &str =
    "threads 4\nfunc c\nwork\nend\nfunc b\ncritical 1 c\nbarrier\nend\nfunc main\nparallel b num 4\nend\n";

/// Whether just this was printed.
fn says(done: &Done, text: &str) -> bool {
    done.out.bytes() == text.as_bytes()
}

/// Whether the files are as they were.
fn is_untouched(done: &Done, script: &str) -> bool {
    done.holds("s", script.as_bytes()) && done.holds("other", b"stays")
}

/// What a line over a script leaves, where these calls of files fail, and these puts.
fn call_failing<R: Threads + Wait + Sync, G: Gate>(
    rt: &R,
    alloc: Global,
    line: &str,
    script: &str,
    failing: &[(Call, u64)],
    puts: &[u64],
    gate: &G,
) -> Result<Done, AllocError> {
    let mut files = MemFiles::new(alloc, failing.to_vec(alloc)?);
    files.put("s", script.as_bytes())?;
    files.put("other", b"stays")?;
    let mut out = MemSink::new(alloc, puts.to_vec(alloc)?);
    let words = split(alloc, line)?;
    let status = park_top(rt, alloc, &words, &mut files, &mut out, gate);
    Ok(Done { status, files, out })
}

/// What a line over a script leaves.
fn call<R: Threads + Wait + Sync, G: Gate>(
    rt: &R,
    alloc: Global,
    line: &str,
    script: &str,
    gate: &G,
) -> Result<Done, AllocError> {
    call_failing(rt, alloc, line, script, &[], &[], gate)
}

/// The number that a text begins with, up to the end of its line, and the lines behind.
fn number_line(text: &str) -> Option<(u64, &str)> {
    let (number, rest) = text.split_once('\n')?;
    Some((number.parse::<u64>().ok()?, rest))
}

/// Without steps each stop has the opening's report, and from the second on the initial task is current.
#[test]
fn no_budget_is_the_opening(rt: HostRuntime) -> Result<(), Fail> {
    let alloc = rt.alloc();
    for stops in [0u64, 1, 2, 8] {
        let line = format!(in alloc; "0 {stops} s")?;
        let done = call(&rt, alloc, &line, AN_EMPTY_RUN, &FreeGate)?;
        assert_eq!(rt; done.status, Status::Success);
        assert!(rt; is_untouched(&done, AN_EMPTY_RUN));
        let mut wanted = String::new(alloc);
        for stop in 0..stops {
            let number = stop.wrapping_add(1);
            let head = format!(in alloc; "stop {number}\nthread 0 steps 0\n")?;
            wanted.push_str(&head)?;
            wanted.push_str(OPENING)?;
            if stop > 0 {
                wanted.push_str("task k0.0.0 current\n")?;
            }
        }
        wanted.push_str("thread 0 steps 0\nend budget 0\n")?;
        let printed = done.printed(alloc)?;
        assert_eq!(rt; printed.as_str(), wanted.as_str());
    }
    Ok(())
}

/// Both threads stop between their second and their tenth step, and go on. A body that makes its stop before the run or behind it doesn't.
#[test]
fn in_mid_run(rt: HostRuntime) -> Result<(), Fail> {
    let alloc = rt.alloc();
    let gate = MidRun::of(2, 2, 10);
    let done = call(&rt, alloc, "5000 1 s", A_TEAM_OF_TWO, &gate)?;
    assert_eq!(rt; done.status, Status::Success);
    assert!(rt; gate.holds.all_ended());
    let printed = done.printed(alloc)?;
    let first = printed
        .strip_prefix("stop 1\nthread 0 steps ")
        .ok_or("no stop")?;
    let (n, second) = number_line(first).ok_or("no number")?;
    let second = second.strip_prefix("thread 1 steps ").ok_or("no thread 1")?;
    let (m, report) = number_line(second).ok_or("no number")?;
    assert!(rt; 1 <= n && n <= 10 && 1 <= m && m <= 10, "{n} and {m}");
    assert!(rt; report.starts_with("ompd 201811 threads 2 debug enabled\n"));
    let (_, end) = report.split_once("\nthread 0 steps ").ok_or("no end")?;
    let (last, end) = number_line(end).ok_or("no number")?;
    assert!(rt; last >= n);
    let (_, end) = end.split_once("\nthread 1 steps ").ok_or("no thread 1")?;
    let (last, end) = number_line(end).ok_or("no number")?;
    assert!(rt; last >= m);
    assert!(rt; end.ends_with("end budget 5000\n"));
    Ok(())
}

/// A thread that is held before a step is printed with the steps before it, and the report of that moment: in the middle of a fork, at a
/// barrier, in a critical section.
#[test]
fn in_the_middle_of_an_update(rt: HostRuntime) -> Result<(), Fail> {
    let alloc = rt.alloc();
    for (script, threads) in [(A_TEAM_OF_TWO, 2), (A_LOCK, 4)] {
        for step in [1u64, 7, 23, 41, 59] {
            let gate = AtSteps::of(0, step, None);
            let done = call(&rt, alloc, "300 1 s", script, &gate)?;
            assert_eq!(rt; done.status, Status::Success);
            assert!(rt; gate.holds.all_ended());
            let made = step.wrapping_sub(1);
            let printed = done.printed(alloc)?;
            let head = format!(in alloc; "stop 1\nthread 0 steps {made}\n")?;
            assert!(rt; printed.as_str().starts_with(head.as_str()));
            let report = format!(in alloc; "\nompd 201811 threads {threads} debug enabled\n")?;
            assert!(rt; printed.as_str().split_once(report.as_str()).is_some());
        }
    }
    Ok(())
}

/// A task that is there at the first stop has ended before the second one, so its handle is stale; that of the initial task is current.
#[test]
fn a_task_that_has_ended(rt: HostRuntime) -> Result<(), Fail> {
    let alloc = rt.alloc();
    let script = "func t\nwork\nend\nfunc main\ntask t\ntaskwait\nend\n";
    let gate = AtSteps::of(0, 67, Some(90));
    let done = call(&rt, alloc, "200 2 s", script, &gate)?;
    assert_eq!(rt; done.status, Status::Success);
    assert!(rt; gate.holds.all_ended());
    let printed = done.printed(alloc)?;
    let (first, second) = printed
        .as_str()
        .split_once("\nstop 2\nthread 0 steps 89\n")
        .ok_or("no second stop")?;
    assert!(rt; first.starts_with("stop 1\nthread 0 steps 66\n"));
    assert!(rt;
        first
            .split_once("\ntask k0.1.0 thread 0 kind explicit ")
            .is_some()
    );
    assert!(rt;
        second
            .split_once("\ntask k0.1.0 stale\ntask k0.0.0 current\n")
            .is_some()
    );
    Ok(())
}

/// A thread that has come to its last step or ended stays there in both stops, and its events are printed behind them.
#[test]
fn behind_its_end(rt: HostRuntime) -> Result<(), Fail> {
    let alloc = rt.alloc();
    let gate = MidRun::of(1, 12, 13);
    let done = call(&rt, alloc, "50000 2 s", AN_EMPTY_RUN, &gate)?;
    assert_eq!(rt; done.status, Status::Success);
    assert!(rt; gate.holds.all_ended());
    let printed = done.printed(alloc)?;
    assert!(rt;
        printed.as_str().ends_with(
            "thread 0 steps 12
1 t0 state wait_barrier_implicit_parallel 0
2 t0 arrive
10 t0 release
11 t0 pass
12 t0 done
end budget 50000
"
        )
    );
    let (_, second) = printed
        .as_str()
        .split_once("\nstop 2\nthread 0 steps ")
        .ok_or("no stop")?;
    let (made, _) = number_line(second).ok_or("no number")?;
    assert!(rt; made == 11 || made == 12);
    Ok(())
}

/// Words that ask for nothing print `usage`.
#[test]
fn refused_words(rt: HostRuntime) -> Result<(), Fail> {
    let alloc = rt.alloc();
    for line in [
        "0 9 s",
        "50001 0 s",
        "0 0",
        "0 0 s c",
        "00 0 s",
        "0 01 s",
        "0 x s",
        "0 0 s --layout 0",
        "0 0 s --break task_end",
        "0 0 s --seed 1",
        "0 0 s --count 1",
    ] {
        let done = call(&rt, alloc, line, AN_EMPTY_RUN, &FreeGate)?;
        assert_eq!(rt; done.status, Status::Usage);
        assert!(rt; says(&done, "usage\n"));
        assert!(rt; is_untouched(&done, AN_EMPTY_RUN));
    }
    Ok(())
}

/// A file that is not there, one that can't be read, and a script that the grammar refuses.
#[test]
fn refused_scripts(rt: HostRuntime) -> Result<(), Fail> {
    let alloc = rt.alloc();
    let done = call(&rt, alloc, "0 1 none", AN_EMPTY_RUN, &FreeGate)?;
    assert_eq!(rt; done.status, Status::NoFile);
    assert!(rt; says(&done, "no file none\n"));
    let unknown = "func main\ntask g\nend\n";
    let done = call(&rt, alloc, "0 1 s", unknown, &FreeGate)?;
    assert_eq!(rt; done.status, Status::Script);
    assert!(rt; says(&done, "script 2 4 UnknownName\n"));
    assert!(rt; is_untouched(&done, unknown));
    for kind in [Call::Size, Call::ReadAt] {
        let done = call_failing(
            &rt,
            alloc,
            "0 1 s",
            AN_EMPTY_RUN,
            &[(kind, 1)],
            &[],
            &FreeGate,
        )?;
        assert_eq!(rt; done.status, Status::ReadFault);
        assert!(rt; says(&done, "read fault s\n"));
        assert!(rt; is_untouched(&done, AN_EMPTY_RUN));
    }
    Ok(())
}

/// A text that can't be put is a fault of writing: the pieces before it stay.
#[test]
fn a_put_that_fails(rt: HostRuntime) -> Result<(), Fail> {
    let alloc = rt.alloc();
    let whole = call(&rt, alloc, "0 8 s", AN_EMPTY_RUN, &FreeGate)?;
    assert_eq!(rt; whole.status, Status::Success);
    let text = whole.out.bytes();
    let piece = text.get(..4096).ok_or("one piece")?;
    for (put, left) in [(1u64, b"" as &[u8]), (2, piece)] {
        let done = call_failing(&rt, alloc, "0 8 s", AN_EMPTY_RUN, &[], &[put], &FreeGate)?;
        assert_eq!(rt; done.status, Status::WriteFault);
        assert_eq!(rt; done.out.bytes(), left);
    }
    Ok(())
}
