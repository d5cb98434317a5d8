//! Worked reports, and the texts of events.

use crate::views::{
    Plain, bare, forked_view, initial_region, initial_task, region, task, with_region, with_task,
    with_thread, with_unknown,
};
use omi_fixture_rows::FORKED;
use omi_model::{Id, Rid, TaskRow, Tid, View};
use omi_numbers::{kind_name, state_name};
use omi_script::NumList;
use omi_text::report_text;
use std::alloc::{AllocError, Global};
use std::process::Abort;
use std::test::*;

/// The report of a program of one thread at its initial task.
fn alone(
    alloc: Global,
    debug: u64,
    state: Option<(u32, u64)>,
    dyn_var: u64,
    nthreads: &[u64],
) -> Result<Vec<u8>, AllocError> {
    let view = bare(alloc, 1, debug);
    let view = with_thread(view, 0, state, Some(0), Some(task(0, 0)))?;
    let view = with_region(alloc, view, initial_region(0x400000), &[(0, 0)])?;
    let mut row = initial_task(alloc, 0x400000);
    row.dyn_var = dyn_var;
    let view = with_task(view, row, nthreads)?;
    report_text(alloc, &view)
}

const EMPTY_RUN: &str = "ompd 201811 threads 1 debug enabled
icv num-procs-var=4 max-active-levels-var=8
thread 0 native 1000 state work_serial wait 0 thread-num-var=0 current k0.0.0
region r0.0.0 function 0x400000 levels-var=0 active-levels-var=0 team-size-var=1 enclosing none
member 0 thread 0 task k0.0.0
task k0.0.0 thread 0 kind implicit region r0.0.0 function 0x400000 generating none scheduling none exit 0x7f00000fffc0 enter 0x0 tool 0
icv dyn-var=0 nthreads-var=1 run-sched-var=static,0 default-device-var=0 final-task-var=0 implicit-task-var=1
";

#[test]
fn an_empty_run(rt: HostRuntime) -> Result<(), Fail> {
    let text = alone(rt.alloc(), 1, Some((0, 0)), 0, &[1])?;
    assert_eq!(rt; text.as_slice(), EMPTY_RUN.as_bytes());
    Ok(())
}

const CHANGED_HEAD: &str = "ompd 201811 threads 1 debug enabled
icv num-procs-var=4 max-active-levels-var=8
thread 0 native 1000 state wait_barrier_implicit_parallel wait 0 thread-num-var=0 current k0.0.0
region r0.0.0 function 0x400000 levels-var=0 active-levels-var=0 team-size-var=1 enclosing none
member 0 thread 0 task k0.0.0
task k0.0.0 thread 0 kind implicit region r0.0.0 function 0x400000 generating none scheduling none exit 0x7f00000fffc0 enter 0x0 tool 0
icv dyn-var=1 nthreads-var=3,2 run-sched-var=static,0 default-device-var=0 final-task-var=0 implicit-task-var=1
";

#[test]
fn a_list_with_a_changed_head(rt: HostRuntime) -> Result<(), Fail> {
    let text = alone(rt.alloc(), 1, Some((0x11, 0)), 1, &[3, 2])?;
    assert_eq!(rt; text.as_slice(), CHANGED_HEAD.as_bytes());
    Ok(())
}

const UNTRACKED: &str = "ompd 201811 threads 1 debug disabled
icv num-procs-var=4 max-active-levels-var=8
thread 0 native 1000 state untracked wait 0 thread-num-var=0 current k0.0.0
region r0.0.0 function 0x400000 levels-var=0 active-levels-var=0 team-size-var=1 enclosing none
member 0 thread 0 task k0.0.0
task k0.0.0 thread 0 kind implicit region r0.0.0 function 0x400000 generating none scheduling none exit 0x7f00000fffc0 enter 0x0 tool 0
icv dyn-var=0 nthreads-var=1 run-sched-var=static,0 default-device-var=0 final-task-var=0 implicit-task-var=1
";

#[test]
fn states_are_not_kept(rt: HostRuntime) -> Result<(), Fail> {
    let text = alone(rt.alloc(), 0, None, 0, &[1])?;
    assert_eq!(rt; text.as_slice(), UNTRACKED.as_bytes());
    Ok(())
}

#[test]
fn the_commit(rt: HostRuntime) -> Result<(), Fail> {
    let text = report_text(rt.alloc(), &forked_view(rt.alloc())?)?;
    assert_eq!(rt; text.as_slice(), FORKED.as_bytes());
    Ok(())
}

/// A task of thread 1, made by a task and run on top of another. Its nthreads-var has no values yet.
fn chained(
    alloc: Global,
    name: Tid,
    implicit: u64,
    part_of: Rid,
    generating: Tid,
    scheduling: Option<Tid>,
) -> TaskRow {
    TaskRow {
        task: name,
        thread: 1,
        implicit,
        region: part_of,
        func: 0x400000,
        generating: Some(generating),
        scheduling,
        exit: 0x7f00001fff40,
        enter: 0,
        tool: 0,
        dyn_var: 0,
        nthreads: NumList::new(alloc),
        sched: 1,
        device: 0,
        final_task: 0,
    }
}

const CHAIN: &str = "ompd 201811 threads 2 debug enabled
icv num-procs-var=4 max-active-levels-var=8
task k1.0.0 thread 1 kind implicit region r1.0.0 function 0x400000 generating k0.3.0 scheduling k0.3.0 exit 0x7f00001fff40 enter 0x0 tool 0
icv dyn-var=0 nthreads-var=2 run-sched-var=static,0 default-device-var=0 final-task-var=0 implicit-task-var=1
task k0.3.0 thread 1 kind explicit region r0.1.0 function 0x400010 generating k0.1.0 scheduling k0.2.0 exit 0x7f00001fff80 enter 0x7f00001fff60 tool 0
icv dyn-var=0 nthreads-var=2 run-sched-var=static,0 default-device-var=0 final-task-var=0 implicit-task-var=0
task k0.2.0 thread 1 kind implicit region r0.1.0 function 0x400030 generating k0.0.0 scheduling none exit 0x7f00001fffc0 enter 0x0 tool 0
icv dyn-var=0 nthreads-var=2 run-sched-var=static,0 default-device-var=0 final-task-var=0 implicit-task-var=1
";

/// The three tasks of the chain, the current one first.
fn with_chain(alloc: Global, view: View) -> Result<View, AllocError> {
    let above = task(0, 3);
    let row = chained(alloc, task(1, 0), 1, region(1, 0), above, Some(above));
    let view = with_task(view, row, &[2])?;
    let mut row = chained(alloc, above, 0, region(0, 1), task(0, 1), Some(task(0, 2)));
    row.func = 0x400010;
    row.exit = 0x7f00001fff80;
    row.enter = 0x7f00001fff60;
    let view = with_task(view, row, &[2])?;
    let mut row = chained(alloc, task(0, 2), 1, region(0, 1), task(0, 0), None);
    row.func = 0x400030;
    row.exit = 0x7f00001fffc0;
    with_task(view, row, &[2])
}

#[test]
fn a_nested_chain(rt: HostRuntime) -> Result<(), Fail> {
    let view = with_chain(rt.alloc(), bare(rt.alloc(), 2, 1))?;
    let text = report_text(rt.alloc(), &view)?;
    assert_eq!(rt; text.as_slice(), CHAIN.as_bytes());
    Ok(())
}

const STRANGE: &str = "ompd 18446744073709551615 threads 3 debug enabled
icv num-procs-var=4 max-active-levels-var=8
native 7 none
thread 2 native 1002 state 0x22 wait 9 thread-num-var=5 current k255.65535.4294967295
region r0.2.0 function 0x400000 levels-var=2 active-levels-var=1 team-size-var=1 enclosing r0.1.0
member 0 thread 0 task k0.3.0
task k0.0.0 thread 0 kind implicit region r0.0.0 function 0xffffffffffffffff generating none scheduling none exit 0x7f00000fffc0 enter 0xabcdef tool 18446744073709551615
icv dyn-var=2 nthreads-var=1,64,3,2 run-sched-var=5,7 default-device-var=4 final-task-var=3 implicit-task-var=1
";

/// Values that a damaged core may hold: a state and a schedule kind that no table lists, and a context of no thread. The
/// region is one at the limit of active levels.
#[test]
fn strange_values(rt: HostRuntime) -> Result<(), Fail> {
    let alloc = rt.alloc();
    let mut view = bare(alloc, 3, 2);
    view.head.version = u64::MAX;
    let view = with_unknown(view, 7)?;
    let greatest = Tid(Id {
        creator: 255,
        slot: 65535,
        generation: 4294967295,
    });
    let view = with_thread(view, 2, Some((0x22, 9)), Some(5), Some(greatest))?;
    let inner = Plain {
        slot: 2,
        func: 0x400000,
        levels: (2, 1),
        enclosing: Some(region(0, 1)),
    };
    let view = with_region(alloc, view, inner, &[(0, 3)])?;
    let mut row = initial_task(alloc, u64::MAX);
    row.enter = 0xabcdef;
    row.dyn_var = 2;
    row.tool = u64::MAX;
    row.sched = 7 * 8 + 5;
    row.device = 4;
    row.final_task = 3;
    let view = with_task(view, row, &[1, 64, 3, 2])?;
    let text = report_text(alloc, &view)?;
    assert_eq!(rt; text.as_slice(), STRANGE.as_bytes());
    Ok(())
}

const STATES: [(u32, &str); 9] = [
    (0x000, "work_serial"),
    (0x001, "work_parallel"),
    (0x011, "wait_barrier_implicit_parallel"),
    (0x014, "wait_barrier_explicit"),
    (0x020, "wait_taskwait"),
    (0x021, "wait_taskgroup"),
    (0x042, "wait_critical"),
    (0x100, "idle"),
    (0x101, "overhead"),
];

const KINDS: [(u64, &str); 4] = [(1, "static"), (2, "dynamic"), (3, "guided"), (4, "auto")];

/// The states and the schedule kinds of these numbers have these names.
fn expect_names(rt: &impl Abort, states: &[(u32, &str)], kinds: &[(u64, &str)]) {
    for (state, name) in states {
        assert!(rt; state_name(*state) == Some(*name), "state {state}");
    }
    for (kind, name) in kinds {
        assert!(rt; kind_name(*kind) == Some(*name), "kind {kind}");
    }
}

#[test]
fn names(rt: HostRuntime) {
    expect_names(&rt, &STATES, &KINDS);
    assert!(rt; state_name(0x102).is_none());
    assert!(rt; kind_name(0).is_none());
    assert!(rt; kind_name(5).is_none());
}
