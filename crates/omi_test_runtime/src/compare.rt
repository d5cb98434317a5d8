//! The look at the words of a run, compared with a state of the machine: the first word that differs.

ghost use Rattle.std.specs.Prelude.{◌<◌};
ghost use Rattle.omi_machine.specs.Kept.{state_of};

use crate::look::{
    Place, RUNTIME, group_word, record_of_thread, region_word, task_word, thread_word, word,
};
use omi_layout::{Field, GROUP_PLACE, Layout, OPEN_PLACE};
use omi_machine::State;
use omi_model::{Claim, Progress, Region, Slot, Task, Team, Thread, Variables};
use omi_script::NumList;
use omi_word::Image;

/// The byte address of the entry of the first function.
const FIRST_FUNCTION: u64 = 0x40_0000;

/// The native id of thread 0.
const FIRST_NATIVE: u64 = 1000;

/// A word that differs from what a state asks for: its record, its field by number, the place in the field, what stands there
/// and what is to stand there.
#[derive(Clone, Copy, Debug)]
pub struct Difference {
    pub record: Place,
    pub field: u8,
    pub at: u8,
    pub found: Option<u64>,
    pub wanted: Option<u64>,
}

/// Words, and the layout in which their records are read.
#[derive(Clone, Copy)]
pub struct Look<'a> {
    pub layout: &'a Layout,
    pub image: &'a Image,
}

impl<'a> Look<'a> {
    /// Whether a word is the one that is to stand there, where there is one.
    pub fn is_at(
        &self,
        record: Place,
        field: Field,
        at: u8,
        wanted: Option<u64>,
    ) -> Result<(), Difference> {
        let found = word(self.layout, self.image, record, field, at);
        if found.is_some() && found == wanted {
            return Ok(());
        }
        Err(Difference {
            record,
            field: field.number(),
            at,
            found,
            wanted,
        })
    }

    /// The same of the first word of a field, which is to be this one.
    pub fn is(&self, record: Place, field: Field, wanted: u64) -> Result<(), Difference> {
        self.is_at(record, field, 0, Some(wanted))
    }

    /// The same of the first words of fields of a record.
    pub fn are(&self, record: Place, words: &[(Field, Option<u64>)]) -> Result<(), Difference> {
        for (field, wanted) in words {
            self.is_at(record, *field, 0, *wanted)?;
        }
        Ok(())
    }

    /// The same of the first words of fields of several records.
    pub fn have(&self, words: &[(Place, Field, u64)]) -> Result<(), Difference> {
        for (record, field, wanted) in words {
            self.is(*record, *field, *wanted)?;
        }
        Ok(())
    }

    /// The runtime record. The locks are given by what their words are to be.
    fn globals(&self, s: &State, locks: &[u64; 8]) -> Result<(), Difference> {
        let environment = s.environment();
        for k in 0..8u8 {
            self.is_at(RUNTIME, Field::RuntimeLocks, k, Some(locks[k as usize]))?;
        }
        self.are(
            RUNTIME,
            &[
                (Field::RuntimeVersion, Some(201811)),
                (Field::RuntimeThreads, Some(s.count() as u64)),
                (Field::RuntimeProcs, Some(u64::from(environment.procs))),
                (Field::RuntimeDebug, Some(u64::from(environment.debug))),
                (Field::RuntimeMaxActive, Some(s.max_active())),
            ],
        )
    }

    /// What the record of a thread that has begun says of it.
    fn begun(&self, record: Place, h: &Thread) -> Result<(), Difference> {
        let state = u64::from(h.state).wrapping_add(h.wait.wrapping_mul(65536));
        self.are(
            record,
            &[
                (Field::ThreadCurrent, task_word(self.layout, h.current)),
                (Field::ThreadState, Some(state)),
            ],
        )
    }

    /// The record of a thread.
    fn thread(&self, i: u8, h: &Thread) -> Result<(), Difference> {
        let record = record_of_thread(i);
        if h.begun {
            self.begun(record, h)?;
        }
        self.are(
            record,
            &[
                (Field::ThreadLife, Some(u64::from(h.begun))),
                (Field::ThreadNative, Some(FIRST_NATIVE + u64::from(i))),
                (Field::ThreadClaim, Some(claim_word(&h.claim))),
            ],
        )
    }

    /// The team of a region.
    fn team(&self, record: Place, team: &Team) -> Result<(), Difference> {
        for j in 0..team.len() {
            let member = task_word(self.layout, Some(team.get(j).0));
            self.is_at(record, Field::RegionTeam, j as u8, member)?;
        }
        Ok(())
    }

    /// The record of a live region.
    fn region(&self, record: Place, r: &Region) -> Result<(), Difference> {
        let enclosing = region_word(self.layout, r.enclosing);
        let encountering = task_word(self.layout, r.encountering);
        self.team(record, &r.team)?;
        self.are(
            record,
            &[
                (Field::RegionFunction, Some(function_word(r.function))),
                (Field::RegionEnclosing, enclosing),
                (Field::RegionEncountering, encountering),
                (Field::RegionSize, Some(r.team.len() as u64)),
                (Field::RegionLevels, Some(r.levels)),
                (Field::RegionActive, Some(r.active)),
                (Field::RegionReleased, Some(r.released)),
                (Field::RegionArrived, Some(all_arrivals(r))),
            ],
        )
    }

    /// The elements of nthreads-var.
    fn sizes(&self, record: Place, sizes: &NumList) -> Result<(), Difference> {
        for j in 0..sizes.len() {
            let at = u8::try_from(j).unwrap_or(u8::MAX);
            self.is_at(record, Field::TaskNthreads, at, Some(*sizes.get(j)))?;
        }
        Ok(())
    }

    /// The data environment of a task.
    fn variables(&self, record: Place, v: &Variables) -> Result<(), Difference> {
        let schedule = u64::from(v.schedule.chunk)
            .wrapping_mul(8)
            .wrapping_add(u64::from(v.schedule.kind));
        self.sizes(record, &v.nthreads)?;
        self.are(
            record,
            &[
                (Field::TaskDynamic, Some(u64::from(v.dynamic))),
                (Field::TaskNthreadsLength, Some(v.nthreads.len() as u64)),
                (Field::TaskSchedule, Some(schedule)),
                (Field::TaskDevice, Some(v.device)),
            ],
        )
    }

    /// The group of a task, and the number of its open groups.
    fn groups(&self, record: Place, t: &Task) -> Result<(), Difference> {
        let group = group_word(self.layout, t.group);
        let open = Some(u64::from(t.open_groups));
        self.is_at(record, Field::TaskSlots, GROUP_PLACE, group)?;
        self.is_at(record, Field::TaskSlots, OPEN_PLACE, open)
    }

    /// The record of a visible task.
    fn task(&self, record: Place, t: &Task) -> Result<(), Difference> {
        let region = region_word(self.layout, Some(t.region));
        let generating = task_word(self.layout, t.generating);
        let scheduling = task_word(self.layout, t.scheduling);
        self.variables(record, &t.variables)?;
        self.groups(record, t)?;
        self.are(
            record,
            &[
                (Field::TaskImplicit, Some(u64::from(t.implicit))),
                (Field::TaskRegion, region),
                (Field::TaskThread, thread_word(self.layout, t.thread)),
                (Field::TaskNumber, Some(t.number)),
                (Field::TaskGenerating, generating),
                (Field::TaskScheduling, scheduling),
                (Field::TaskFunction, Some(function_word(t.function))),
                (Field::TaskExit, Some(t.exit)),
                (Field::TaskEnter, Some(t.enter)),
                (Field::TaskFinal, Some(u64::from(t.is_final))),
                (Field::TaskTool, Some(t.tool)),
            ],
        )
    }

    /// The life word of a slot: of its live object, or past those that it had, where the record may be taken for the next one.
    fn life<T: Drop>(&self, record: Place, field: Field, slot: &Slot<T>) -> Result<(), Difference> {
        let had = slot.generations.wrapping_mul(2);
        if slot.live.is_some() {
            return self.is(record, field, had.wrapping_sub(1));
        }
        match word(self.layout, self.image, record, field, 0) {
            Some(found) if found == had.wrapping_add(1) => Ok(()),
            _ => self.is(record, field, had),
        }
    }

    /// The records of all regions.
    fn regions(&self, s: &State) -> Result<(), Difference> {
        let regions = s.regions();
        for c in 0..regions.len() {
            let row = regions.get(c);
            for k in 0..row.len() {
                let slot = row.get(k);
                let record = place_at(c, k);
                self.life(record, Field::RegionLife, slot)?;
                if let Some(r) = &slot.live {
                    self.region(record, r)?;
                }
            }
        }
        Ok(())
    }

    /// The record of a live task, where a tool may be shown it.
    fn shown(&self, s: &State, record: Place, t: &Task) -> Result<(), Difference> {
        if is_shown(s, t) {
            self.task(record, t)
        } else {
            Ok(())
        }
    }

    /// The records of all tasks that a tool may be shown.
    fn tasks(&self, s: &State) -> Result<(), Difference> {
        let tasks = s.tasks();
        for c in 0..tasks.len() {
            let row = tasks.get(c);
            for k in 0..row.len() {
                let slot = row.get(k);
                let record = place_at(c, k);
                self.life(record, Field::TaskLife, slot)?;
                if let Some(t) = &slot.live {
                    self.shown(s, record, t)?;
                }
            }
        }
        Ok(())
    }

    /// All words that a state asks for. The locks are given by what their words are to be.
    pub fn shows(&self, s: &State, locks: &[u64; 8]) -> Result<(), Difference> {
        self.globals(s, locks)?;
        for i in 0..s.count() {
            let thread = u8::try_from(i).unwrap_or(u8::MAX);
            self.thread(thread, s.thread(i))?;
        }
        self.regions(s)?;
        self.tasks(s)
    }
}

/// The entry of a function.
fn function_word(f: u8) -> u64 {
    FIRST_FUNCTION + 16 * u64::from(f)
}

/// The word of a claim.
fn claim_word(c: &Claim) -> u64 {
    match c {
        Claim::Own => 0,
        Claim::Free => 1,
        Claim::By { thread } => 2 + u64::from(*thread),
    }
}

/// The arrivals of all members of a region.
fn all_arrivals(r: &Region) -> u64 {
    let mut sum = 0u64;
    for arrivals in r.arrivals.as_slice() {
        sum = sum.wrapping_add(*arrivals);
    }
    sum
}

/// A record by numbers, which of any but the least layouts are in range.
fn place_at(creator: usize, slot: usize) -> Place {
    Place {
        creator: u8::try_from(creator).unwrap_or(u8::MAX),
        slot: u16::try_from(slot).unwrap_or(u16::MAX),
    }
}

/// Whether a tool may be shown a live task: an implicit one of a live region, or an explicit one that has begun or finished.
fn is_shown(s: &State, t: &Task) -> bool {
    if t.implicit {
        s.region_of(t.region).is_some()
    } else {
        t.progress == Progress::Begun || t.progress == Progress::Finished
    }
}
