//! Rewinds of scripts whose threads step in turn, and the words of a run from the opening on.

ghost use Rattle.std.specs.Prelude.{◌≡◌, ◌≤◌, IfOk, IfSome};

use omi_core::{Break, Core, End, Schedule, Stop};
use omi_layout::{Layout, MOST_THREADS};
use omi_rep::suits;
use omi_rewind::{At, LAST_STEP, Rewind};
use omi_script::{Program, parse};
use omi_word::{FIRST_ADDRESS, Image, OutOfMemory};
use std::alloc::Global;

/// Why there is no run.
#[derive(Clone, Copy, Debug, PartialEq, Eq)]
pub enum Wrong {
    NoProgram,
    NoFork,
    NoMemory,
}

impl From<OutOfMemory> for Wrong {
    fn from(_e: OutOfMemory) -> Wrong {
        Wrong::NoMemory
    }
}

/// The program of a script.
fn program_of(alloc: Global, script: &str) -> Result<Program, Wrong> {
    match parse(alloc, script.as_bytes()) {
        Ok(program) => Ok(program),
        Err(_) => Err(Wrong::NoProgram),
    }
}

/// The layout of family 0 for so many threads.
fn layout_for(threads: u8) -> Result<Layout, Wrong> {
    if threads < 1 || u64::from(threads) > MOST_THREADS {
        return Err(Wrong::NoProgram);
    }
    Ok(Layout::family(0, threads))
}

/// The layout of a script.
pub fn layout_of(alloc: Global, script: &str) -> Result<Layout, Wrong> {
    layout_for(program_of(alloc, script)?.threads)
}

/// A rewind of a script, whose threads step in turn.
pub fn rewind_of(alloc: Global, script: &str) -> Result<Rewind, Wrong>
    ensures { IfOk result (λ rewind. rewind.how ≡ Schedule.RoundRobin) }
{
    let program = program_of(alloc, script)?;
    let layout = layout_for(program.threads)?;
    if !suits(&program, &layout) {
        return Err(Wrong::NoProgram);
    }
    Ok(Rewind::opening(alloc, program, layout, Schedule::RoundRobin)?)
}

/// Puts the image of a rewind behind so many steps.
pub fn jump(alloc: Global, rewind: &mut Rewind, step: u64) -> Result<At, Wrong>
    requires turns { rewind.old.how ≡ Schedule.RoundRobin }
    requires few { step ≤ LAST_STEP }
    ensures { rewind.new.how ≡ Schedule.RoundRobin }
{
    Ok(rewind.to(alloc, step)?)
}

/// A run of a script from its opening on, its threads in turn, and why it ended.
pub struct Ran {
    pub core: Core,
    pub why: End,
}

impl Drop for Ran {
    fn drop(self) {
        let Ran {
            core: _core,
            why: _why,
        } = self;
    }
}

/// The run of a script for so many steps.
pub fn run_for(alloc: Global, script: &str, steps: u64) -> Result<Ran, Wrong> {
    run_until(alloc, script, Stop { steps, on: None })
}

/// The step of the first fork of a script.
pub fn fork_of(alloc: Global, script: &str) -> Result<u64, Wrong> {
    let stop = Stop {
        steps: 100_000,
        on: Some((Break::ParallelBegin, 1)),
    };
    let run = run_until(alloc, script, stop)?;
    match run.why {
        End::Break => Ok(run.core.steps()),
        _ => Err(Wrong::NoFork),
    }
}

/// The run of a script up to a stop.
fn run_until(alloc: Global, script: &str, stop: Stop) -> Result<Ran, Wrong>
    requires { IfSome stop.on (λ on. 1 ≤ on.1) }
{
    let program = program_of(alloc, script)?;
    let layout = layout_for(program.threads)?;
    if !suits(&program, &layout) {
        return Err(Wrong::NoProgram);
    }
    let mut core = Core::opening(alloc, program, layout)?;
    let why = core.run(&Schedule::RoundRobin, stop)?;
    Ok(Ran { core, why })
}

/// The number of words in which two memories differ. All are different where one has more words.
pub fn differing(a: &Image, b: &Image) -> usize {
    if a.len() != b.len() {
        return a.len().max(b.len());
    }
    let mut count = 0;
    for place in 0..a.len() {
        let addr = FIRST_ADDRESS + 8 * place as u64;
        if a.get(addr) != b.get(addr) && count < a.len() {
            count += 1;
        }
    }
    count
}

/// Whether the image of a rewind has the words of a run from the opening on behind so many steps.
pub fn stands_behind(
    alloc: Global,
    rewind: &Rewind,
    script: &str,
    steps: u64,
) -> Result<bool, Wrong> {
    let run = run_for(alloc, script, steps)?;
    Ok(differing(rewind.image(), run.core.image()) == 0)
}
