//! The stops whose words are audited, and their records by address.

ghost use Rattle.std.specs.Prelude.{◌≡◌, ◌≤◌, IfOk};

use omi_core::Core;
use omi_corefile::{CoreImage, core_of};
use omi_fixture_rows::{A_TEAM_OF_TWO, AN_EMPTY_RUN};
use omi_fixture_targets::{Words, Wrong, after, at_fork, core_at};
use omi_layout::Layout;
use omi_model::Event;
use omi_rep::{Outcome, suits};
use omi_script::{Program, parse};
use omi_word::Natives;
use std::alloc::Global;

/// A team in a task of a team.
const A_NESTED_CHAIN: &str =
    "threads 2\nfunc leaf\nwork\nend\nfunc h\nparallel leaf num 1\nend\nfunc g\ntask h\nend\nfunc f\nonly 0 g\nend\nfunc main\nparallel f num 2\nend\n";

/// A team of two, around which nthreads-var has four elements.
const A_LIST: &str =
    "threads 2\nenv num_threads 4,2,3,5\nfunc f\nwork\nend\nfunc main\nparallel f num 2\nend\n";

/// The words of an empty run, before its first step.
pub fn opened(alloc: Global) -> Result<Words, Wrong> {
    let core = core_at(alloc, AN_EMPTY_RUN, 0, after(0))?;
    Words::of(alloc, &core, Layout::family(0, 1))
}

/// The words of a team of two at its fork, in the layout of a family.
pub fn forked(alloc: Global, family: u8) -> Result<Words, Wrong> {
    Words::of_two(alloc, A_TEAM_OF_TWO, family, at_fork())
}

/// The words of a team of two at its fork, where nthreads-var of the initial task has four elements.
pub fn listed(alloc: Global) -> Result<Words, Wrong> {
    Words::of_two(alloc, A_LIST, 0, at_fork())
}

/// Where a thread's steps end: at a step that waits, at the generation of a task, or at a fork.
#[derive(Clone, Copy, Debug, PartialEq, Eq)]
enum End {
    Wait,
    Defer,
    Fork,
}

/// The end that an outcome is, if it is one.
fn end_of(outcome: &Outcome) -> Option<End> {
    match outcome {
        Outcome::NotReady { .. } => Some(End::Wait),
        Outcome::Event(Event::Defer { .. }) => Some(End::Defer),
        Outcome::Event(Event::Fork { .. }) => Some(End::Fork),
        _ => None,
    }
}

/// More steps than a thread makes to an end.
const MANY: usize = 1_000;

/// Steps of one thread to an end.
fn step_to(core: &mut Core, thread: u8, end: End) -> Result<(), Wrong> {
    for _ in 0..MANY {
        if core.steps() > 100_000 || thread >= core.threads() {
            return Err(Wrong::NoProgram);
        }
        core.reserve(1)?;
        if end_of(&core.step(thread).outcome) == Some(end) {
            return Ok(());
        }
    }
    Err(Wrong::NoProgram)
}

/// The program of a script of two threads.
fn program_of_two(alloc: Global, script: &str) -> Result<Program, Wrong> {
    match parse(alloc, script.as_bytes()) {
        Ok(program) if program.threads == 2 => Ok(program),
        _ => Err(Wrong::NoProgram),
    }
}

/// The core of a team that a thread makes in a task which another one generated.
fn nested_core(alloc: Global, layout: Layout) -> Result<CoreImage, Wrong> {
    let program = program_of_two(alloc, A_NESTED_CHAIN)?;
    if !suits(&program, &layout) {
        return Err(Wrong::NoProgram);
    }
    let mut core = Core::opening(alloc, program, layout)?;
    step_to(&mut core, 1, End::Wait)?;
    step_to(&mut core, 0, End::Defer)?;
    step_to(&mut core, 1, End::Fork)?;
    Ok(core_of(alloc, core.image(), &Natives::new(alloc), 0)?)
}

/// The words of that stop, in the layout of a family.
pub fn nested(alloc: Global, family: u8) -> Result<Words, Wrong> {
    let layout = Layout::family(family % 16, 2);
    let core = nested_core(alloc, layout)?;
    Words::of(alloc, &core, layout)
}

/// The records of these stops by their addresses: of the runtime and of both threads, the region around the initial task, that of its team, and the
/// one of the team that thread 1 makes; the initial task, the members of the team, the task that the first of them generates, and the
/// member of the team of thread 1.
#[derive(Clone, Copy)]
pub struct Records {
    pub runtime: u64,
    pub threads: [u64; 2],
    pub outer: u64,
    pub inner: u64,
    pub innermost: u64,
    pub initial: u64,
    pub master: u64,
    pub worker: u64,
    pub generated: u64,
    pub alone: u64,
}

/// The records of a layout, where it has them.
pub fn records_of(words: &Words) -> Result<Records, Wrong> {
    let layout = &words.layout;
    if layout.threads() < 2 || layout.regions_per_thread() < 2 || layout.tasks_per_thread() < 4 {
        return Err(Wrong::NoProgram);
    }
    Ok(Records {
        runtime: layout.runtime_place(),
        threads: [layout.thread_at(0), layout.thread_at(1)],
        outer: layout.region_at(0, 0),
        inner: layout.region_at(0, 1),
        innermost: layout.region_at(1, 0),
        initial: layout.task_at(0, 0),
        master: layout.task_at(0, 1),
        worker: layout.task_at(0, 2),
        generated: layout.task_at(0, 3),
        alone: layout.task_at(1, 0),
    })
}
