//! Tests of what `at` and `when` print.

use crate::calls::{call, expect, fork_of};
use omi_fixture_rows::{A_TEAM_OF_TWO, AN_EMPTY_RUN, FORKED, HALF_MADE};
use omi_outside::Status;
use std::test::Fail;

/// The report of no statement and one thread at its first step.
const OPENED: &str = "ompd 201811 threads 1 debug enabled
icv num-procs-var=4 max-active-levels-var=8
thread 0 native 1000 state work_serial wait 0 thread-num-var=0 current k0.0.0
region r0.0.0 function 0x400000 levels-var=0 active-levels-var=0 team-size-var=1 enclosing none
member 0 thread 0 task k0.0.0
task k0.0.0 thread 0 kind implicit region r0.0.0 function 0x400000 generating none scheduling none exit 0x7f00000fffc0 enter 0x0 tool 0
icv dyn-var=0 nthreads-var=1 run-sched-var=static,0 default-device-var=0 final-task-var=0 implicit-task-var=1
";

#[test]
fn back_over_a_fork(rt: HostRuntime) -> Result<(), Fail> {
    let alloc = rt.alloc();
    let n = fork_of(alloc)?;
    assert!(rt; n > 0);
    let before = n - 1;
    let steps = format!(in alloc; "{n},{before}")?;
    let text = format!(in alloc; "step {n}\n{FORKED}step {before}\n{HALF_MADE}")?;
    expect(
        &rt,
        alloc,
        &["at", &steps, "s"],
        A_TEAM_OF_TWO,
        Status::Success,
        &text,
    )?;
    let steps = format!(in alloc; "{before},{n},{before}")?;
    let text = format!(in alloc;
        "step {before}\n{HALF_MADE}step {n}\n{FORKED}step {before}\n{HALF_MADE}"
    )?;
    expect(
        &rt,
        alloc,
        &["at", &steps, "s"],
        A_TEAM_OF_TWO,
        Status::Success,
        &text,
    )?;
    Ok(())
}

#[test]
fn before_the_first_step(rt: HostRuntime) -> Result<(), Fail> {
    let alloc = rt.alloc();
    let text = format!(in alloc; "step 0\n{OPENED}")?;
    expect(
        &rt,
        alloc,
        &["at", "0", "s"],
        AN_EMPTY_RUN,
        Status::Success,
        &text,
    )?;
    Ok(())
}

#[test]
fn first_states(rt: HostRuntime) -> Result<(), Fail> {
    let alloc = rt.alloc();
    for (words, text) in [
        (["when", "1", "idle", "1000", "s"], "first 0\n"),
        (["when", "0", "wait_taskwait", "1000", "s"], "none\n"),
        // the step of the first event line of `stop` with `t0 state overhead 0`
        (["when", "0", "overhead", "1000", "s"], "first 3\n"),
        (["when", "0", "overhead", "3", "s"], "first 3\n"),
        (["when", "0", "overhead", "2", "s"], "none\n"),
        (["when", "0", "work_serial", "0", "s"], "first 0\n"),
    ] {
        expect(&rt, alloc, &words, A_TEAM_OF_TWO, Status::Success, text)?;
    }
    Ok(())
}

/// As many steps as a command line may name, and the same as a word.
const SIXTEEN_STEPS: [&str; 16] = [
    "0", "1", "2", "3", "4", "5", "6", "7", "8", "9", "10", "11", "12", "13", "14", "1000000",
];

const SIXTEEN_WORD: &str = "0,1,2,3,4,5,6,7,8,9,10,11,12,13,14,1000000";

/// A line stands for a step that is wanted: `step N`, or `step N done D`.
fn is_of_step(line: &str, wanted: &str) -> bool {
    match line.strip_prefix("step ") {
        Some(place) => match place.strip_prefix(wanted) {
            Some(rest) => rest.is_empty() || rest.starts_with(" done "),
            None => false,
        },
        None => false,
    }
}

#[test]
fn sixteen_steps(rt: HostRuntime) -> Result<(), Fail> {
    let alloc = rt.alloc();
    let words = ["at", SIXTEEN_WORD, "s"];
    let done = call(alloc, &words, Some(AN_EMPTY_RUN), &[], &[])?;
    assert_eq!(rt; done.status, Status::Success);
    let text = str::from_utf8(done.out.bytes())?;
    let mut number = 0usize;
    for line in text.lines() {
        if line.starts_with("step ") {
            let wanted = *SIXTEEN_STEPS.get(number).ok_or("a step too many")?;
            assert!(rt; is_of_step(line, wanted), "{line}");
            number = number.wrapping_add(1);
        }
    }
    assert_eq!(rt; number, SIXTEEN_STEPS.len());
    assert!(rt; text.contains("\nstep 1000000 done 12\n"));
    Ok(())
}
