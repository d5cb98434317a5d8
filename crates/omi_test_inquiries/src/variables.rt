//! What inquiries answer about control variables, states and tool words over the words of runs, and the enumerations.

ghost use Rattle.std.specs.Prelude.{◌≡◌, IfOk};
ghost use Rattle.std.specs.Int.{from_le_bytes, w64};
ghost use Rattle.omi_calls.specs.Kept.{GivesNumbers, TakesAll};

use omi_ask::{get_curr_parallel_handle, get_thread_handle};
use omi_asktask::get_curr_task_handle;
use omi_calls::ToHost;
use omi_corefile::CoreImage;
use omi_fixture_rows::{A_TEAM_OF_TWO, AN_EMPTY_RUN};
use omi_fixture_targets::{Asked, LITTLE, Opened, Stopped, Wrong, after, at_fork, core_at, open};
use omi_icv::{
    Scoped, enumerate_icvs, enumerate_states, get_display_control_vars, get_icv_from_scope,
    get_icv_string_from_scope, get_state, get_tool_data,
};
use omi_session::Rc;
use std::alloc::Global;
use std::test::Fail;

/// A list whose first element is changed.
const A_CHANGED_HEAD: &str = "threads 1
env num_threads 4,2
func main
set_num_threads 3
set_dynamic 1
work
end
";

/// An empty run that keeps no states.
const UNTRACKED: &str = "env debug disabled
func main
end
";

/// The thread with a native id.
fn thread<F: ToHost>(s: &mut Stopped<'_, F>, native: u64) -> Result<Scoped, Rc> {
    s.may_make()?;
    Ok(Scoped::Thread(get_thread_handle(s, 0, native)?))
}

/// The region and the current task of thread 0.
fn current<F: ToHost>(s: &mut Stopped<'_, F>) -> Result<[Scoped; 2], Rc> {
    s.may_make()?;
    let thread = get_thread_handle(s, 0, 1000)?;
    s.may_make()?;
    let region = get_curr_parallel_handle(s, thread)?;
    s.may_make()?;
    let task = get_curr_task_handle(s, thread)?;
    Ok([Scoped::Parallel(region), Scoped::Task(task)])
}

/// The state of the thread with a native id.
fn state<F: ToHost>(s: &mut Stopped<'_, F>, native: u64) -> Result<(u32, u64), Rc> {
    s.may_make()?;
    let thread = get_thread_handle(s, 0, native)?;
    get_state(s, thread)
}

/// Whether a variable has this text.
fn has_text<F: ToHost>(
    s: &mut Stopped<'_, F>,
    alloc: Global,
    of: Scoped,
    icv: u32,
    text: &str,
) -> Result<bool, Rc> {
    let found = get_icv_string_from_scope(s, alloc, of, icv)?;
    Ok(found.as_str() == text)
}

/// Whether each variable before the first step of an empty run is the one that the report of the run prints, and no other is there.
fn has_first_variables<F: ToHost>(s: &mut Stopped<'_, F>, alloc: Global) -> Result<bool, Rc> {
    let [region, task] = current(s)?;
    let thread = thread(s, 1000)?;
    let mut all = true;
    for (of, icv, number, text) in [
        (task, 1, 0, "0"),
        (task, 2, 1, "1"),
        (task, 3, 1, "static,0"),
        (task, 4, 0, "0"),
        (task, 5, 0, "0"),
        (task, 6, 1, "1"),
        (Scoped::Space, 7, 8, "8"),
        (Scoped::Space, 8, 1, "enabled"),
        (Scoped::Space, 9, 4, "4"),
        (region, 10, 0, "0"),
        (region, 11, 0, "0"),
        (region, 12, 1, "1"),
        (thread, 13, 0, "0"),
    ] {
        all &= get_icv_from_scope(s, of, icv) == Ok(number);
        all &= has_text(s, alloc, of, icv, text) == Ok(true);
    }
    for (of, icv) in [
        (Scoped::Space, 1),
        (task, 7),
        (thread, 10),
        (region, 13),
        (task, 0),
        (task, 14),
    ] {
        all &= get_icv_from_scope(s, of, icv) == Err(Rc::Unsupported);
        all &= has_text(s, alloc, of, icv, "") == Err(Rc::Unsupported);
    }
    Ok(all)
}

/// The enumerations begin, go on and end as their tables do.
fn enumerates<F: ToHost>(s: &mut Stopped<'_, F>) -> bool {
    enumerate_states(s, 0x102) == Ok((0, "work_serial", 1))
        && enumerate_states(s, 0x100) == Ok((0x101, "overhead", 0))
        && enumerate_states(s, 0x101) == Err(Rc::BadInput)
        && enumerate_icvs(s, 0) == Ok((1, "dyn-var", 6, 1))
        && enumerate_icvs(s, 12) == Ok((13, "thread-num-var", 3, 0))
        && enumerate_icvs(s, 13) == Err(Rc::BadInput)
}

/// The variables of the address space for display.
fn displays<F: ToHost>(s: &mut Stopped<'_, F>, alloc: Global, debug: &str) -> Result<bool, Rc> {
    let texts = get_display_control_vars(s, alloc)?;
    let [first, second, third] = texts.as_slice() else {
        return Ok(false);
    };
    Ok(
        first.as_str() == debug
            && second.as_str() == "num-procs-var=4"
            && third.as_str() == "max-active-levels-var=8",
    )
}

/// The tool word of a task; nothing else has one.
fn has_tool_words<F: ToHost>(s: &mut Stopped<'_, F>) -> Result<bool, Rc> {
    let [region, task] = current(s)?;
    let thread = thread(s, 1000)?;
    let mut none = true;
    for of in [Scoped::Space, thread, region] {
        none &= get_tool_data(s, of) == Err(Rc::Unsupported);
    }
    Ok(none && get_tool_data(s, task) == Ok(0))
}

/// What is answered before the first step of an empty run.
fn is_an_empty_run<F: ToHost>(s: &mut Stopped<'_, F>, alloc: Global) -> Result<bool, Rc> {
    let has_variables = has_first_variables(s, alloc)?;
    let has_tools = has_tool_words(s)?;
    let is_displayed = displays(s, alloc, "debug-var=enabled")?;
    let works = state(s, 1000) == Ok((0, 0));
    Ok(has_variables && has_tools && is_displayed && works && enumerates(s))
}

/// nthreads-var has two elements at the end, the first of which was changed.
fn has_a_changed_head<F: ToHost>(s: &mut Stopped<'_, F>, alloc: Global) -> Result<bool, Rc> {
    let [_, task] = current(s)?;
    let is_listed = has_text(s, alloc, task, 2, "3,2")?;
    let is_dynamic = get_icv_from_scope(s, task, 1) == Ok(1);
    Ok(is_listed && is_dynamic && get_icv_from_scope(s, task, 2) == Err(Rc::Incomplete(3)))
}

/// No state is kept, and debug-var says so.
fn is_untracked<F: ToHost>(s: &mut Stopped<'_, F>, alloc: Global) -> Result<bool, Rc> {
    let is_off = has_text(s, alloc, Scoped::Space, 8, "disabled")?;
    let is_displayed = displays(s, alloc, "debug-var=disabled")?;
    Ok(is_off && is_displayed && state(s, 1000) == Err(Rc::NeedsStateTracking))
}

/// At the fork of a team the master has its place in it, and the other thread has no task yet.
fn is_at_a_fork<F: ToHost>(s: &mut Stopped<'_, F>, alloc: Global) -> Result<bool, Rc> {
    let [region, task] = current(s)?;
    let (master, worker) = (thread(s, 1000)?, thread(s, 1001)?);
    let none = Err(Rc::Unavailable);
    let is_team = get_icv_from_scope(s, region, 12) == Ok(2)
        && get_icv_from_scope(s, region, 10) == Ok(1)
        && get_icv_from_scope(s, task, 2) == Ok(2);
    let are_members = get_icv_from_scope(s, master, 13) == Ok(0)
        && get_icv_from_scope(s, worker, 13) == none
        && has_text(s, alloc, worker, 13, "") == Err(Rc::Unavailable);
    let are_shown = state(s, 1000) == Ok((0x101, 0)) && state(s, 1001) == Ok((0x100, 0));
    Ok(is_team && are_members && are_shown)
}

/// A stopped run, and what is asked over its words.
#[derive(Clone, Copy, Debug, PartialEq, Eq)]
enum Row {
    EmptyRun,
    ChangedHead,
    TrackingOff,
    Fork,
}

/// Whether the words of a row's run answer as the row says.
fn holds<F: ToHost>(s: &mut Stopped<'_, F>, alloc: Global, row: Row) -> Result<bool, Rc> {
    match row {
        Row::EmptyRun => is_an_empty_run(s, alloc),
        Row::ChangedHead => has_a_changed_head(s, alloc),
        Row::TrackingOff => is_untracked(s, alloc),
        Row::Fork => is_at_a_fork(s, alloc),
    }
}

/// The core of a row's run.
fn core_of_row(alloc: Global, row: Row, family: u8) -> Result<CoreImage, Wrong>
    ensures { IfOk result (λ core. core.order ≡ 0) }
{
    match row {
        Row::EmptyRun => core_at(alloc, AN_EMPTY_RUN, family, after(0)),
        Row::ChangedHead => core_at(alloc, A_CHANGED_HEAD, family, after(1000)),
        Row::TrackingOff => core_at(alloc, UNTRACKED, family, after(0)),
        Row::Fork => core_at(alloc, A_TEAM_OF_TWO, family, at_fork()),
    }
}

/// Whether a row holds in the layout of a family.
fn holds_in<F: ToHost>(alloc: Global, row: Row, family: u8, to_host: F) -> Result<bool, Wrong>
    requires takes { TakesAll (F.takes to_host) }
    requires gives { GivesNumbers (F.gives to_host) 0 }
{
    let asked = Asked::never();
    let core = core_of_row(alloc, row, family)?;
    let session = open(alloc, core, LITTLE, to_host, &asked)?;
    let mut s = Opened { session };
    let is = holds(&mut s.session, alloc, row)?;
    Ok(is)
}

#[test]
fn variables_states_and_tool_words(rt: HostRuntime) -> Result<(), Fail> {
    for (row, family) in [
        (Row::EmptyRun, 0),
        (Row::EmptyRun, 7),
        (Row::ChangedHead, 0),
        (Row::TrackingOff, 0),
        (Row::Fork, 0),
    ] {
        let is = holds_in(
            rt.alloc(),
            row,
            family,
            |bytes: [u8; 8]| -> u64
                ensures { result ≡ from_le_bytes w64 bytes }
            { u64::from_le_bytes(bytes) },
        )?;
        assert!(rt; is, "{row:?}");
    }
    Ok(())
}
