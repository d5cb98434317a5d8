//! Stopped runs: the core of a script's run, its threads in turn, and a session over it.

ghost use Rattle.std.specs.Prelude.{◌≡◌, ◌≤◌, IfOk, IfSome, if◌then◌else◌};
ghost use Rattle.omi_calls.specs.Kept.{GivesNumbers, TakesAll};

use crate::{Asked, ByteOrder, Target};
use omi_calls::{MemCalls, Table, ToHost};
use omi_core::{Break, Core, Schedule, Stop};
use omi_corefile::{CoreImage, core_of};
use omi_layout::{Layout, MOST_THREADS};
use omi_rep::suits;
use omi_script::{Program, parse};
use omi_session::{Library, Rc, Session, initialize};
use omi_word::{Natives, OutOfMemory};
use std::alloc::{AllocFailed, Global};

/// Why there is no session over a stopped run.
#[derive(Clone, Copy, Debug, PartialEq, Eq)]
pub enum Wrong {
    /// The script has no program that is run.
    NoProgram,
    /// The bytes are no core.
    NoCore,
    NoMemory,
    Refused(Rc),
}

impl From<OutOfMemory> for Wrong {
    fn from(_e: OutOfMemory) -> Wrong {
        Wrong::NoMemory
    }
}

impl<T: Drop> From<AllocFailed<T>> for Wrong {
    fn from(_e: AllocFailed<T>) -> Wrong {
        Wrong::NoMemory
    }
}

impl From<Rc> for Wrong {
    fn from(rc: Rc) -> Wrong {
        Wrong::Refused(rc)
    }
}

/// A run that stops after so many steps.
pub fn after(steps: u64) -> Stop
    ensures { IfSome result.on (λ on. 1 ≤ on.1) }
{
    Stop { steps, on: None }
}

/// A run that stops at its first fork.
pub fn at_fork() -> Stop
    ensures { IfSome result.on (λ on. 1 ≤ on.1) }
{
    Stop {
        steps: 10_000,
        on: Some((Break::ParallelBegin, 1)),
    }
}

/// A run. Its drop is written out, so that what lets a run go owes one call, and not the drops of all its parts at each exit.
pub(crate) struct Run {
    pub(crate) core: Core,
}

impl Drop for Run {
    fn drop(self) {
        let Run { core: _core } = self;
    }
}

/// The program of a script.
pub(crate) fn program_of(alloc: Global, script: &str) -> Result<Program, Wrong> {
    match parse(alloc, script.as_bytes()) {
        Ok(program) => Ok(program),
        Err(_) => Err(Wrong::NoProgram),
    }
}

/// The layout of a family for so many threads.
pub(crate) fn layout_for(threads: u8, family: u8) -> Result<Layout, Wrong> {
    if family > 15 || threads < 1 || u64::from(threads) > MOST_THREADS {
        return Err(Wrong::NoProgram);
    }
    Ok(Layout::family(family, threads))
}

/// The run of a program in a layout, where this suits it, before its first step.
pub(crate) fn run_of(alloc: Global, program: Program, layout: Layout) -> Result<Run, Wrong> {
    if !suits(&program, &layout) {
        return Err(Wrong::NoProgram);
    }
    let core = Core::opening(alloc, program, layout)?;
    Ok(Run { core })
}

/// A run of a script in the layout of a family, before its first step.
fn run_in(alloc: Global, script: &str, family: u8) -> Result<Run, Wrong> {
    let program = program_of(alloc, script)?;
    let layout = layout_for(program.threads, family)?;
    run_of(alloc, program, layout)
}

/// The core of a run.
fn core_now(alloc: Global, run: &Run) -> Result<CoreImage, Wrong>
    ensures { IfOk result (λ core. core.order ≡ 0) }
{
    Ok(core_of(alloc, run.core.image(), &Natives::new(alloc), 0)?)
}

/// The core of a script's run in the layout of a family, its threads in turn.
pub fn core_at(alloc: Global, script: &str, family: u8, stop: Stop) -> Result<CoreImage, Wrong>
    requires { IfSome stop.on (λ on. 1 ≤ on.1) }
    ensures { IfOk result (λ core. core.order ≡ 0) }
{
    let mut run = run_in(alloc, script, family)?;
    run.core.run(&Schedule::RoundRobin, stop)?;
    core_now(alloc, &run)
}

/// The cores of a script's run in the layout of family 0: after so many steps, its threads in turn, and after so many more.
pub fn two_stops(
    alloc: Global,
    script: &str,
    steps: [u64; 2],
) -> Result<(CoreImage, CoreImage), Wrong>
    ensures { IfOk result (λ cores. cores.0.order ≡ 0 × cores.1.order ≡ 0) }
{
    let mut run = run_in(alloc, script, 0)?;
    run.core.run(&Schedule::RoundRobin, after(steps[0]))?;
    let first = core_now(alloc, &run)?;
    run.core.run(&Schedule::RoundRobin, after(steps[1]))?;
    let second = core_now(alloc, &run)?;
    Ok((first, second))
}

/// A session with a target.
pub type Stopped<'a, F> = Session<Target<'a>, F>;

/// A session that a test holds. Its drop is written out, so that a test owes one call at each of its exits.
pub struct Opened<'a, F: ToHost> {
    pub session: Stopped<'a, F>,
}

impl<F: ToHost> Drop for Opened<'_, F> {
    fn drop(self) {
        let Opened { session: _session } = self;
    }
}

impl<'a, F: ToHost> Opened<'a, F> {
    /// The session alone.
    pub fn alone(self) -> Stopped<'a, F> {
        let Opened { session } = self;
        session
    }

    /// Goes on over other callbacks with all handles.
    pub fn over(self, table: Table<Target<'a>, F>) -> Result<Opened<'a, F>, Wrong> {
        let (parted, _) = self.alone().part();
        match parted.over(table) {
            Ok(session) => Ok(Opened { session }),
            Err((rc, _, _)) => Err(Wrong::Refused(rc)),
        }
    }
}

/// A library over a core, with the bytes of its words in an order. The calls of these numbers fail.
pub fn library<'a, F: ToHost>(
    alloc: Global,
    core: CoreImage,
    order: ByteOrder,
    to_host: F,
    failing: &[u64],
    asked: &'a Asked,
) -> Result<Library<Target<'a>, F>, Wrong>
    requires takes { TakesAll (F.takes to_host) }
    requires gives { GivesNumbers (F.gives to_host) (if order.highest_first then 1 else 0) }
{
    let core = core.with_order(order.number());
    let calls = MemCalls::over(core, failing.to_vec(alloc)?);
    let target = Target { calls, asked };
    match initialize(201811, Table::new(target, order.number(), to_host)) {
        Ok(library) => Ok(library),
        Err((rc, _)) => Err(Wrong::Refused(rc)),
    }
}

/// A session over a core, with the bytes of its words in an order.
pub fn open<'a, F: ToHost>(
    alloc: Global,
    core: CoreImage,
    order: ByteOrder,
    to_host: F,
    asked: &'a Asked,
) -> Result<Stopped<'a, F>, Wrong>
    requires takes { TakesAll (F.takes to_host) }
    requires gives { GivesNumbers (F.gives to_host) (if order.highest_first then 1 else 0) }
{
    let library = library(alloc, core, order, to_host, &[], asked)?;
    match library.process_initialize(alloc) {
        Ok(session) => Ok(session),
        Err((rc, _)) => Err(Wrong::Refused(rc)),
    }
}
