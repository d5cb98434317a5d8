//! Inquiries by what is held: they answer the object for which the inquiry by a handle makes a handle, and the same values and texts.

ghost use Rattle.std.specs.Prelude.{◌≡◌};
ghost use Rattle.std.specs.Int.{from_le_bytes, w64};
ghost use Rattle.omi_calls.specs.Kept.{GivesNumbers, TakesAll};

use omi_ask::{
    current_region_of, enclosing_region_of, get_curr_parallel_handle,
    get_enclosing_parallel_handle, get_thread_handle, native_id_of, region_of_task_of,
    thread_of_member_of, thread_with,
};
use omi_asktask::{
    frames_of, function_of, generating_task_of, get_curr_task_handle, get_generating_task_handle,
    get_scheduling_task_handle, get_task_frame, scheduling_task_of,
};
use omi_calls::ToHost;
use omi_fixture_rows::A_TEAM_OF_TWO;
use omi_fixture_targets::{Asked, LITTLE, Opened, Stopped, Wrong, at_fork, core_at, open};
use omi_handle::{Held, RegionHandle, TaskHandle, ThreadHandle};
use omi_icv::{
    Scope, Scoped, display_text, get_icv_string_from_scope, get_state, icv_number_of, icv_text_of,
    icv_value_of, space_words, state_of_thread, tool_data_of,
};
use omi_session::{Rc, current_task_of, member_of};
use std::alloc::Global;
use std::test::Fail;

/// Handles of thread 0, of the region of its current task, and of this task.
fn current<F: ToHost>(
    s: &mut Stopped<'_, F>,
) -> Result<(ThreadHandle, RegionHandle, TaskHandle), Rc> {
    s.may_make()?;
    let thread = get_thread_handle(s, 0, 1000)?;
    s.may_make()?;
    let region = get_curr_parallel_handle(s, thread)?;
    s.may_make()?;
    let task = get_curr_task_handle(s, thread)?;
    Ok((thread, region, task))
}

/// Whether an object was found that is held under a pair.
fn is_held<F: ToHost>(s: &Stopped<'_, F>, pair: (u64, u64), found: Result<Held, Rc>) -> bool {
    s.find(pair.0, pair.1) == found.ok()
}

/// Whether the inquiries for a thread, and those about it, find the same objects.
fn finds_of_a_thread<F: ToHost>(s: &mut Stopped<'_, F>) -> Result<bool, Rc> {
    let (thread, region, task) = current(s)?;
    let pair = (thread.key, thread.serial);
    let found = thread_with(s, 0, 1000);
    let is_thread = is_held(s, pair, found);
    let held = s.find(thread.key, thread.serial);
    let found = current_region_of(s, held);
    let is_region = is_held(s, (region.key, region.serial), found);
    let held = s.find(thread.key, thread.serial);
    let found = current_task_of(s, held);
    let is_task = is_held(s, (task.key, task.serial), found);
    let held = s.find(thread.key, thread.serial);
    let native = native_id_of(s, 0, held);
    Ok(is_thread && is_region && is_task && native == Ok(1000))
}

/// Whether those about a region do.
fn finds_of_a_region<F: ToHost>(s: &mut Stopped<'_, F>) -> Result<bool, Rc> {
    let (thread, region, task) = current(s)?;
    s.may_make()?;
    let enclosing = get_enclosing_parallel_handle(s, region)?;
    let held = s.find(region.key, region.serial);
    let found = enclosing_region_of(s, held);
    let is_enclosing = is_held(s, (enclosing.key, enclosing.serial), found);
    let held = s.find(region.key, region.serial);
    let found = member_of(s, held, 0);
    let is_member = is_held(s, (task.key, task.serial), found);
    let held = s.find(region.key, region.serial);
    let found = thread_of_member_of(s, held, 0);
    let is_its_thread = is_held(s, (thread.key, thread.serial), found);
    let held = s.find(region.key, region.serial);
    let none = member_of(s, held, 2);
    Ok(is_enclosing && is_member && is_its_thread && none == Err(Rc::BadInput))
}

/// Whether those about a task do.
fn finds_of_a_task<F: ToHost>(s: &mut Stopped<'_, F>) -> Result<bool, Rc> {
    let (_, region, task) = current(s)?;
    s.may_make()?;
    let generating = get_generating_task_handle(s, task)?;
    s.may_make()?;
    let scheduling = get_scheduling_task_handle(s, task)?;
    let held = s.find(task.key, task.serial);
    let found = region_of_task_of(s, held);
    let is_region = is_held(s, (region.key, region.serial), found);
    let held = s.find(task.key, task.serial);
    let found = generating_task_of(s, held);
    let is_generating = is_held(s, (generating.key, generating.serial), found);
    let held = s.find(task.key, task.serial);
    let found = scheduling_task_of(s, held);
    let is_scheduling = is_held(s, (scheduling.key, scheduling.serial), found);
    Ok(is_region && is_generating && is_scheduling)
}

/// Whether the values of a thread and of a task are the same.
fn has_values<F: ToHost>(s: &mut Stopped<'_, F>) -> Result<bool, Rc> {
    let (thread, _, task) = current(s)?;
    let state = get_state(s, thread);
    let frames = get_task_frame(s, task);
    let held = s.find(thread.key, thread.serial);
    let has_state = state_of_thread(s, held) == state;
    let held = s.find(task.key, task.serial);
    let has_frames = frames_of(s, held) == frames;
    let held = s.find(task.key, task.serial);
    let has_function = function_of(s, held) == Ok(0x40_0000);
    let held = s.find(task.key, task.serial);
    let has_tool = tool_data_of(s, Scope::Task, held) == Ok(0);
    let no_tool = tool_data_of(s, Scope::AddressSpace, None) == Err(Rc::Unsupported);
    Ok(has_state && has_frames && has_function && has_tool && no_tool)
}

/// Whether a variable of a task has this number, these numbers and this text, which it has by a handle too.
fn has_variable<F: ToHost>(
    s: &mut Stopped<'_, F>,
    alloc: Global,
    task: TaskHandle,
    row: (u32, u64, &str),
) -> Result<bool, Rc> {
    let (icv, number, text) = row;
    let by_handle = get_icv_string_from_scope(s, alloc, Scoped::Task(task), icv)?;
    let held = s.find(task.key, task.serial);
    let has_number = icv_number_of(s, Scope::Task, held, icv) == Ok(number);
    let held = s.find(task.key, task.serial);
    let value = icv_value_of(s, Scope::Task, held, icv)?;
    let held = s.find(task.key, task.serial);
    let found = icv_text_of(s, Scope::Task, held, icv)?;
    let has_text = found.as_str() == text && by_handle.as_str() == text;
    Ok(has_number && value.numbers.as_slice() == [number].as_slice() && has_text)
}

/// Whether variables of a task, and those of the address space for display, have their texts.
fn has_texts<F: ToHost>(s: &mut Stopped<'_, F>, alloc: Global) -> Result<bool, Rc> {
    let (_, _, task) = current(s)?;
    let has_schedule = has_variable(s, alloc, task, (3, 1, "static,0"))?;
    let has_flag = has_variable(s, alloc, task, (6, 1, "1"))?;
    let words = space_words(s)?;
    let mut are_displayed = display_text(words, 3).is_none();
    for (at, text) in [
        (0, "debug-var=enabled"),
        (1, "num-procs-var=4"),
        (2, "max-active-levels-var=8"),
    ] {
        are_displayed &= match display_text(words, at) {
            Some(found) => found.as_str() == text,
            None => false,
        };
    }
    Ok(has_schedule && has_flag && are_displayed)
}

/// All of it at the fork of a team of two.
fn are_the_same<F: ToHost>(alloc: Global, to_host: F) -> Result<bool, Wrong>
    requires takes { TakesAll (F.takes to_host) }
    requires gives { GivesNumbers (F.gives to_host) 0 }
{
    let asked = Asked::never();
    let core = core_at(alloc, A_TEAM_OF_TWO, 0, at_fork())?;
    let session = open(alloc, core, LITTLE, to_host, &asked)?;
    let mut s = Opened { session };
    let of_a_thread = finds_of_a_thread(&mut s.session)?;
    let of_a_region = finds_of_a_region(&mut s.session)?;
    let of_a_task = finds_of_a_task(&mut s.session)?;
    let has_values = has_values(&mut s.session)?;
    let has_texts = has_texts(&mut s.session, alloc)?;
    Ok(of_a_thread && of_a_region && of_a_task && has_values && has_texts)
}

#[test]
fn what_is_held_answers_as_its_handle(rt: HostRuntime) -> Result<(), Fail> {
    let is = are_the_same(
        rt.alloc(),
        |bytes: [u8; 8]| -> u64
            ensures { result ≡ from_le_bytes w64 bytes }
        { u64::from_le_bytes(bytes) },
    )?;
    assert!(rt; is);
    Ok(())
}
