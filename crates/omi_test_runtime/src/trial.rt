//! A run beside a state of the machine: each event has to be legal in the state that the events before it reach, and the
//! words have to show the state.

ghost use Rattle.std.specs.Prelude.{◌≡◌, ◌≤◌, OnOk};
ghost use Rattle.omi_core.specs.Runs.{spare_in};

use crate::compare::{Difference, Look};
use crate::lines::begins;
use crate::look::is_life_word;
use omi_core::{Core, Entry};
use omi_layout::{Layout, MOST_THREADS};
use omi_machine::{State, after, opening};
use omi_machine_legal::legal;
use omi_model::Event;
use omi_rep::{Outcome, suits};
use omi_script::{Program, parse};
use omi_word::{Image, Op, OutOfMemory};
use std::alloc::Global;

/// How many steps room is made for at a time.
const PORTION: usize = 500;

/// More steps than a run of these tests has.
const LONG: u64 = 1_000_000;

/// What is wrong with a run.
#[derive(Clone, Copy, Debug)]
pub enum Wrong {
    /// The script has no program, or the layout does not suit it.
    NoProgram,
    NoMemory,
    /// The run does not come to what it is to come to.
    TooLong,
    /// A thread committed an event that is not legal, at the step of this number.
    Illegal { thread: u8, step: u64 },
    /// The event of a step is listed otherwise than it was committed.
    Listed { thread: u8, step: u64 },
    /// A thread does not wait where it is to wait, or waits where it is to go on.
    Waits { thread: u8, step: u64 },
    /// A line that is no move.
    NoMove,
    /// Only few runs of a workload take a record again.
    NoneAgain,
    /// The step of this number left a life word below what it was.
    Falls { step: u64 },
    /// Life words were stored at other steps than those that the events tell of.
    Lives,
    /// The words were compared with the state less often than they are to be.
    Unseen,
    /// The words have no report.
    NoReport,
    /// A word differs from the state.
    Differs(Difference),
}

impl From<OutOfMemory> for Wrong {
    fn from(_e: OutOfMemory) -> Wrong {
        Wrong::NoMemory
    }
}

impl From<Difference> for Wrong {
    fn from(e: Difference) -> Wrong {
        Wrong::Differs(e)
    }
}

/// When the words are compared with the state.
#[derive(Clone, Copy)]
pub enum Looks {
    EachStep,
    EachEvent,
    /// At each event whose number is a multiple of 8, and at the end.
    Seldom,
}

/// A run of a program, and the state that its events reach.
pub struct Trial {
    alloc: Global,
    program: Program,
    layout: Layout,
    core: Core,
    state: State,
    /// The words of the locks, by the events.
    locks: [u64; 8],
    looks: Looks,
    /// How often the words were compared with the state.
    pub compared: u64,
    /// How many steps raised the life word of a region or of a task.
    pub raised: u64,
    /// The number of the first step that left the life word of a second generation, 0 where none did.
    pub again: u64,
}

/// Written out, so that a test which lets a trial go owes one call, and not the drops of all its parts at each of its exits.
impl Drop for Trial {
    fn drop(self) {
        let Trial {
            alloc: _alloc,
            program: _program,
            layout: _layout,
            core: _core,
            state: _state,
            locks: _locks,
            looks: _looks,
            compared: _compared,
            raised: _raised,
            again: _again,
        } = self;
    }
}

/// The program of a script.
fn program_of(alloc: Global, script: &str) -> Result<Program, Wrong> {
    match parse(alloc, script.as_bytes()) {
        Ok(program) => Ok(program),
        Err(_) => Err(Wrong::NoProgram),
    }
}

/// The layout of a family for so many threads.
fn layout_for(threads: u8, k: u8) -> Result<Layout, Wrong> {
    if k > 15 || threads < 1 || u64::from(threads) > MOST_THREADS {
        return Err(Wrong::NoProgram);
    }
    Ok(Layout::family(k, threads))
}

/// How many records of regions and of tasks each thread has.
#[derive(Clone, Copy)]
pub struct Few {
    pub regions: u64,
    pub tasks: u64,
}

/// The byte address of the first arena.
const FIRST_ARENA: u64 = 0x10000 + 8 * 99;

/// Places an arena of so many records, by where its place stands in the table, and answers where the next one begins.
fn placed(table: &mut [u64; 56], arena: (usize, u64), place: u64) -> u64 {
    let (index, records) = arena;
    let size = match table.get(index.wrapping_add(1)) {
        Some(size) => *size,
        None => 0,
    };
    if let Some(word) = table.get_mut(index) {
        *word = place;
    }
    place.wrapping_add(size.wrapping_mul(records).wrapping_mul(8))
}

/// The layout of a family for so many threads, but with few records, its arenas one right after the other as in the family.
fn layout_of_few(threads: u8, k: u8, few: Few) -> Result<Layout, Wrong> {
    let mut table = layout_for(threads, k)?.table;
    let makers = u64::from(threads);
    table[8] = few.regions;
    table[11] = few.tasks;
    let arenas = [
        (1usize, 1u64),
        (3, makers),
        (6, makers.wrapping_mul(few.regions)),
        (9, makers.wrapping_mul(few.tasks)),
    ];
    let mut place = FIRST_ARENA;
    for n in 0..4usize {
        let at = if k % 2 == 0 { n } else { 3 - n };
        if let Some(arena) = arenas.get(at) {
            place = placed(&mut table, *arena, place);
        }
    }
    match Layout::of_words(&table) {
        Ok(layout) => Ok(layout),
        Err(_) => Err(Wrong::NoProgram),
    }
}

/// The program of a script, and the layout of a family for its threads.
pub fn program_in(alloc: Global, script: &str, k: u8) -> Result<(Program, Layout), Wrong> {
    let program = program_of(alloc, script)?;
    let layout = layout_for(program.threads, k)?;
    Ok((program, layout))
}

/// The run of a program in a layout, where this suits it.
pub fn core_of(alloc: Global, p: Program, l: Layout) -> Result<Core, Wrong> {
    if !suits(&p, &l) {
        return Err(Wrong::NoProgram);
    }
    Ok(Core::opening(alloc, p, l)?)
}

/// A word that an event gives to a lock, with the number of the lock.
fn lock_word(i: u8, e: &Event) -> Option<(u8, u64)> {
    match e {
        Event::Lock { k } => Some((*k, u64::from(i) + 1)),
        Event::Unlock { k } => Some((*k, 0)),
        _ => None,
    }
}

impl Trial {
    /// A run of a script before its first step, in the layout of a family.
    pub fn opening(alloc: Global, script: &str, k: u8, looks: Looks) -> Result<Trial, Wrong> {
        let (program, layout) = program_in(alloc, script, k)?;
        Trial::of(alloc, program, layout, looks)
    }

    /// The same with few records for each thread.
    pub fn with_few(
        alloc: Global,
        script: &str,
        k: u8,
        few: Few,
        looks: Looks,
    ) -> Result<Trial, Wrong> {
        let program = program_of(alloc, script)?;
        let layout = layout_of_few(program.threads, k, few)?;
        Trial::of(alloc, program, layout, looks)
    }

    /// A run of a program before its first step in a layout, where this suits it.
    fn of(alloc: Global, program: Program, layout: Layout, looks: Looks) -> Result<Trial, Wrong> {
        let core = core_of(alloc, program.same(alloc)?, layout)?;
        let state = opening(alloc, &program)?;
        let mut trial = Trial {
            alloc,
            program,
            layout,
            core,
            state,
            locks: [0; 8],
            looks,
            compared: 0,
            raised: 0,
            again: 0,
        };
        trial.compare()?;
        Ok(trial)
    }

    /// The run.
    pub fn core(&self) -> &Core {
        &self.core
    }

    /// The words, read through the layout.
    pub fn look(&self) -> Look<'_> {
        Look {
            layout: &self.layout,
            image: self.core.image(),
        }
    }

    /// Compares the words with the state.
    pub fn compare(&mut self) -> Result<(), Wrong> {
        self.look().shows(&self.state, &self.locks)?;
        self.compared = self.compared.wrapping_add(1);
        Ok(())
    }

    /// Whether an image that the layout fits shows the state.
    pub fn is_shown_by(&self, image: &Image) -> bool {
        let look = Look {
            layout: &self.layout,
            image,
        };
        look.shows(&self.state, &self.locks).is_ok()
    }

    /// Whether the line of a thread's event begins so, behind its step and thread.
    pub fn begins(&self, i: u8, e: &Event, text: &str) -> Result<bool, Wrong> {
        Ok(begins(self.alloc, i, e, text)?)
    }

    /// Makes room for a step.
    fn make_room(&mut self) -> Result<(), Wrong>
        ensures { OnOk result (1 ≤ spare_in self.new.core) }
    {
        if self.core.spare() >= 1 {
            return Ok(());
        }
        if self.core.steps() >= LONG {
            return Err(Wrong::TooLong);
        }
        self.core.reserve(PORTION)?;
        Ok(())
    }

    /// The words of the locks behind an event.
    fn keep_locks(&mut self, i: u8, e: &Event) {
        if let Some((k, word)) = lock_word(i, e) {
            if k < 8 {
                self.locks[k as usize] = word;
            }
        }
    }

    /// Whether an event of a thread is the last one that the run lists, with the number of its last step.
    fn is_listed(&self, i: u8, e: &Event) -> bool {
        let events = self.core.events();
        let count = events.len();
        count >= 1 && events.get(count - 1) == (self.core.steps(), i, *e)
    }

    /// Whether the words are to be compared with the state behind a step, by whether this committed an event.
    fn is_looked(&self, event: bool) -> bool {
        match self.looks {
            Looks::EachStep => true,
            Looks::EachEvent => event,
            Looks::Seldom => event && self.core.events().len() % 8 == 0,
        }
    }

    /// Judges an event: it has to be legal, and leads to the next state.
    fn judge(&mut self, i: u8, e: &Event) -> Result<(), Wrong> {
        let step = self.core.steps();
        if !self.is_listed(i, e) {
            return Err(Wrong::Listed { thread: i, step });
        }
        if !legal(&self.program, &self.state, i, e) {
            return Err(Wrong::Illegal { thread: i, step });
        }
        after(self.alloc, &self.program, &mut self.state, i, e)?;
        self.keep_locks(i, e);
        Ok(())
    }

    /// Judges what came of a step.
    fn judge_step(&mut self, i: u8, outcome: &Outcome) -> Result<(), Wrong> {
        let event = match outcome {
            Outcome::Event(e) => {
                self.judge(i, e)?;
                true
            }
            _ => false,
        };
        if self.is_looked(event) {
            self.compare()?;
        }
        Ok(())
    }

    /// Judges the word that a step left, where it is a life word: it isn't below the one that the step found.
    fn judge_life(&mut self, op: Op, old: u64) -> Result<(), Wrong> {
        let at = op.address();
        if !is_life_word(&self.layout, at) {
            return Ok(());
        }
        let step = self.core.steps();
        let left = match self.core.image().get(at) {
            Some(left) if left >= old => left,
            _ => return Err(Wrong::Falls { step }),
        };
        if left > old {
            self.raised = self.raised.wrapping_add(1);
        }
        if left > 2 && self.again == 0 {
            self.again = step;
        }
        Ok(())
    }

    /// One step of a thread, judged. None where the program has no such thread.
    pub fn step(&mut self, i: u8) -> Result<Option<Outcome>, Wrong> {
        self.make_room()?;
        if i >= self.core.threads() {
            return Ok(None);
        }
        let Entry { op, old, outcome } = self.core.step(i);
        self.judge_life(op, old)?;
        self.judge_step(i, &outcome)?;
        Ok(Some(outcome))
    }
}
