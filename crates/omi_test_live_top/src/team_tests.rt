//! Runs of threads that form teams, cut anywhere and at each kind of break.

use omi_fixture_gates::{call_past, inspect};
use omi_fixture_rows::A_TEAM_OF_TWO;
use omi_outside::Status;
use omi_seat::StartGate;
use std::alloc::Global;
use std::process::Abort;
use std::test::Fail;
use std::thread::Threads;

/// A team of as many threads as a program can have.
const A_TEAM_OF_SIXTY_FOUR: &str =
    "threads 64\nfunc f\nwork\nend\nfunc main\nparallel f num 64\nend\n";

/// Two threads that come to one lock, and then to a barrier.
const A_LOCK_AND_A_BARRIER: &str = "threads 2
func add
  work
end
func member
  critical 0 add
  barrier
  critical 0 add
end
func main
  parallel member num 2
end
";

/// Four threads that make tasks and wait for them.
const TASKS: &str = "threads 4
func leaf
  work
end
func member
  task leaf
  task leaf
  taskwait
end
func main
  parallel member num 4
end
";

/// Four threads that make tasks in groups, one of which makes a task.
const GROUPS: &str = "threads 4
func leaf
  work
end
func node
  task leaf
end
func both
  task node
  task leaf
end
func member
  taskgroup both
end
func main
  parallel member num 4
end
";

/// A thread that makes a team of itself alone and a task, beside three that wait to be asked: it waits for none of them, so it comes to
/// each of its events.
const A_TEAM_OF_ONE: &str = "threads 4
func leaf
  work
end
func member
  task leaf
  taskwait
end
func main
  parallel member num 1
end
";

/// So many turns a thread waits at most until all others have offered themselves.
const TURNS: u64 = 4_000_000;

/// Once all have offered themselves, a team of all threads is forked.
#[test]
fn all_threads_form_a_team(rt: HostRuntime) -> Result<(), Fail> {
    let alloc = rt.alloc();
    let line = "5000 s c --break parallel_begin";
    for (script, fork) in [
        (A_TEAM_OF_TWO, " t0 fork r0.1.0 size 2 team k0.1.0@0 "),
        (TASKS, " t0 fork r0.1.0 size 4 team k0.1.0@0 "),
        (
            A_TEAM_OF_SIXTY_FOUR,
            " t0 fork r0.1.0 size 64 team k0.1.0@0 ",
        ),
    ] {
        let gate = StartGate::of(TURNS);
        let mut done = call_past(&rt, alloc, line, script, None, Vec::new(alloc), &gate)?;
        assert_eq!(&rt; done.status, Status::Success);
        let printed = done.printed(alloc)?;
        assert!(&rt; printed.contains(fork), "{fork}");
        let shown = inspect(alloc, "show c", &mut done.files)?;
        assert_eq!(&rt; shown.status, Status::Success);
    }
    Ok(())
}

/// Cut by the budget, in the middle of a fork, at a lock, at a barrier or in a task group, a run leaves a core that is shown.
#[test]
fn cut_runs_are_shown(rt: HostRuntime) -> Result<(), Fail> {
    let alloc = rt.alloc();
    for script in [A_LOCK_AND_A_BARRIER, TASKS, GROUPS] {
        for budget in [0, 3, 40, 80, 120, 160, 200, 240, 280, 320, 360, 400] {
            let line = format!(in alloc; "{budget} s c")?;
            let gate = StartGate::of(TURNS);
            let mut done = call_past(&rt, alloc, &line, script, None, Vec::new(alloc), &gate)?;
            assert_eq!(&rt; done.status, Status::Success, "{budget} steps");
            let end = format!(in alloc; "end budget {budget}\n")?;
            let printed = done.printed(alloc)?;
            assert!(&rt; printed.ends_with(end.as_str()), "{budget} steps");
            let shown = inspect(alloc, "show c", &mut done.files)?;
            assert_eq!(&rt; shown.status, Status::Success, "{budget} steps");
        }
    }
    Ok(())
}

/// Each kind of break, and how the lines of its events go on behind their threads.
const BREAKS: [(&str, &str); 5] = [
    ("thread_begin", " begin"),
    ("parallel_begin", " fork "),
    ("task_begin", " start"),
    ("task_end", " finish "),
    ("parallel_end", " join "),
];

/// How many threads come to an event of a kind. It is the last one of each of them, and the core is shown.
fn stopped_by<R: Threads + Sync + Abort>(
    rt: &R,
    alloc: Global,
    script: &str,
    name: &str,
    kind: &str,
) -> Result<usize, Fail> {
    let line = format!(in alloc; "5000 s c --break {name}")?;
    let gate = StartGate::of(100);
    let mut done = call_past(rt, alloc, &line, script, None, Vec::new(alloc), &gate)?;
    assert_eq!(rt; done.status, Status::Success, "{name}");
    let printed = done.printed(alloc)?;
    let events = printed
        .strip_suffix("end budget 5000\n")
        .ok_or("no end line")?;
    let mut count = 0usize;
    for lines in events.split("thread ") {
        let Some((_, rest)) = lines.split_once(kind) else {
            continue;
        };
        assert!(rt; !rest.trim_end().contains('\n'), "{name}");
        count = count.wrapping_add(1);
    }
    let shown = inspect(alloc, "show c", &mut done.files)?;
    assert_eq!(rt; shown.status, Status::Success, "{name}");
    Ok(count)
}

/// At each kind of break its event comes. Where a thread that begins is a break, others may not offer themselves, and who waits for them
/// does so in vain.
#[test]
fn each_kind_of_break_stops(rt: HostRuntime) -> Result<(), Fail> {
    for (name, kind) in BREAKS {
        let count = stopped_by(&rt, rt.alloc(), A_TEAM_OF_ONE, name, kind)?;
        assert!(&rt; count > 0, "{name}");
    }
    Ok(())
}

/// In a team whose threads wait for each other a budget may end before the event comes.
#[test]
fn a_break_is_the_last_event_of_a_member(rt: HostRuntime) -> Result<(), Fail> {
    for (name, kind) in BREAKS {
        let count = stopped_by(&rt, rt.alloc(), TASKS, name, kind)?;
        let is_late = matches!(name, "task_end" | "parallel_end");
        let is_right = is_late || count > 0;
        assert!(&rt; is_right, "{name}");
    }
    Ok(())
}
