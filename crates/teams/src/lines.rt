//! The lines of the threads: the state, the current task and nthreads-var of each, and its regions from the inside out.

ghost use Rattle.std.specs.Prelude.{◌≡◌, OnOk};
ghost use Rattle.std.specs.FinMap.{remove};

use crate::failure::Failure;
use omi::{
    Callbacks, Chain, Id, NTHREADS_VAR, Natives, Rc, RegionHandle, Scoped, Session, TEAM_SIZE_VAR,
    TaskHandle, ThreadHandle, ToHost, Tool, get_curr_task_handle, get_icv_from_scope,
    get_icv_string_from_scope, get_state, get_task_parallel_handle, get_thread_handle, region_id,
    rel_parallel_handle, rel_task_handle, rel_thread_handle, state_name, task_id,
};
use std::alloc::{AllocError, Global};
use std::fmt::Write;

/// No layout has records of more regions. A chain that were longer would have told a cycle before.
const MOST_REGIONS: u32 = 4096;

/// Adds creator, slot and generation.
fn push_id(text: &mut String, id: Id) -> Result<(), AllocError> {
    write!(text, "{}.{}.{}", id.creator, id.slot, id.generation)
}

/// Adds a line for a region, with the size of its team.
fn push_region<C: Callbacks, H: ToHost>(
    s: &mut Session<C, H>,
    region: RegionHandle,
    text: &mut String,
) -> Result<(), Failure>
    ensures { s.new.handles ≡ s.old.handles }
{
    let name = region_id(s, region)?;
    let size = get_icv_from_scope(s, Scoped::Parallel(region), TEAM_SIZE_VAR)?;
    text.push_str("  region r")?;
    push_id(text, name.0)?;
    write!(text, " size {size}\n")?;
    Ok(())
}

/// Adds a line for each region from one outwards. The handle of this one is given back too.
fn push_regions<C: Callbacks, H: ToHost>(
    alloc: Global,
    s: &mut Session<C, H>,
    innermost: RegionHandle,
    text: &mut String,
) -> Result<(), Failure>
    ensures { OnOk result (s.new.handles.held
        ≡ remove s.old.handles.held (innermost.key, innermost.serial)) }
{
    let mut chain = Chain::new(alloc);
    let mut region = innermost;
    for _ in 0..MOST_REGIONS {
        push_region(s, region, text)?;
        s.may_make()?;
        let outer = chain.enclosing(s, region)?;
        rel_parallel_handle(s, region)?;
        let Some(next) = outer else {
            return Ok(());
        };
        region = next;
    }
    rel_parallel_handle(s, region)?;
    Ok(())
}

/// Adds the state of a thread by its name.
fn push_state<C: Callbacks, H: ToHost>(
    s: &mut Session<C, H>,
    thread: ThreadHandle,
    text: &mut String,
) -> Result<(), Failure>
    ensures { s.new.handles ≡ s.old.handles }
{
    let state = match get_state(s, thread) {
        Ok((state, _wait)) => state,
        Err(Rc::NeedsStateTracking) => {
            text.push_str("no state")?;
            return Ok(());
        }
        Err(rc) => return Err(rc.into()),
    };
    match state_name(state) {
        Some(name) => text.push_str(name)?,
        None => write!(text, "state {state}")?,
    }
    Ok(())
}

/// Adds the name of a task and its nthreads-var, and a line for each of its regions. Each handle that it makes is given back.
fn push_current<C: Callbacks, H: ToHost>(
    alloc: Global,
    s: &mut Session<C, H>,
    task: TaskHandle,
    text: &mut String,
) -> Result<(), Failure>
    ensures { OnOk result (s.new.handles.held ≡ s.old.handles.held) }
{
    let sizes = get_icv_string_from_scope(s, alloc, Scoped::Task(task), NTHREADS_VAR)?;
    let name = task_id(s, task)?;
    text.push_str(" task k")?;
    push_id(text, name.0)?;
    write!(text, " nthreads-var {sizes}\n")?;
    s.may_make()?;
    let region = get_task_parallel_handle(s, task)?;
    push_regions(alloc, s, region, text)?;
    Ok(())
}

/// Adds the current task of a thread with its regions, or that there is none. Each handle that it makes is given back.
fn push_task<C: Callbacks, H: ToHost>(
    alloc: Global,
    s: &mut Session<C, H>,
    thread: ThreadHandle,
    text: &mut String,
) -> Result<(), Failure>
    ensures { OnOk result (s.new.handles.held ≡ s.old.handles.held) }
{
    s.may_make()?;
    let task = match get_curr_task_handle(s, thread) {
        Ok(task) => task,
        Err(Rc::Unavailable) => {
            text.push_str(" no task\n")?;
            return Ok(());
        }
        Err(rc) => return Err(rc.into()),
    };
    push_current(alloc, s, task, text)?;
    rel_task_handle(s, task)?;
    Ok(())
}

/// Adds the lines of a thread, by its native id. A thread that has not begun has none. Each handle that it makes is given back.
fn push_thread<C: Callbacks, H: ToHost>(
    alloc: Global,
    s: &mut Session<C, H>,
    native: u64,
    text: &mut String,
) -> Result<(), Failure>
    ensures { OnOk result (s.new.handles.held ≡ s.old.handles.held) }
{
    s.may_make()?;
    let thread = match get_thread_handle(s, 0, native) {
        Ok(thread) => thread,
        Err(Rc::Unavailable) => return Ok(()),
        Err(rc) => return Err(rc.into()),
    };
    write!(text, "thread {native} ")?;
    push_state(s, thread, text)?;
    push_task(alloc, s, thread, text)?;
    rel_thread_handle(s, thread)?;
    Ok(())
}

/// Adds the lines of all threads that the core names. Each handle that it makes is given back.
fn push_lines<C: Callbacks, H: ToHost>(
    alloc: Global,
    s: &mut Session<C, H>,
    threads: &Natives,
    text: &mut String,
) -> Result<(), Failure>
    ensures { OnOk result (s.new.handles.held ≡ s.old.handles.held) }
{
    for at in 0..threads.len() {
        push_thread(alloc, s, *threads.get(at), text)?;
    }
    Ok(())
}

/// The lines, as far as they were made, and why there are no more.
#[derive(Drop)]
pub struct Lines {
    pub alloc: Global,
    pub text: String,
    pub end: Result<(), Failure>,
}

impl Tool for Lines {
    fn look<C: Callbacks + Drop, H: ToHost>(
        &mut self,
        session: &mut Session<C, H>,
        threads: &Natives,
    ) {
        self.end = push_lines(self.alloc, session, threads, &mut self.text);
    }
}
