//! The words with which a program opens.

ghost use Rattle.std.specs.Prelude.{◌≡◌, ℕ, ◌<◌, ◌≤◌, IsTrue, All, length, replicate, slice_index};
ghost use Rattle.omi_layout.specs.Place;
ghost use Rattle.omi_layout.specs.Place.{IsSlot};
ghost use Rattle.omi_layout.specs.declared.limits.TheConstants.{LAST_END};
ghost use Rattle.omi_layout.specs.Field.{runtime, threads, regions, tasks};
ghost use Rattle.omi_layout.specs.Table;
ghost use Rattle.omi_layout.specs.Memory.{memory_of};
ghost use Rattle.omi_layout.specs.OpeningWords.{AreOpening, IsZero, OpensRuntime, OpensThread, OpensRegion, OpensTask};
ghost use Rattle.omi_layout.specs.Plan.{IsEntryOf, IsFilled, KeepsAll, KeepsOthers};

use crate::field::{Field, REGIONS, RUNTIME, TASKS, THREADS};
use crate::layout::Layout;
use omi_numbers::{FIRST_NATIVE, IDLE, OPENMP_VERSION, entry_address, exit_frame, native_id};
use omi_script::{NumList, Program};
use omi_word::{Image, Op};

/// An element of a list, 0 past its end.
fn element(list: &NumList, at: usize) -> u64
    ensures { result ≡ slice_index list.now at }
{
    if at < list.len() { *list.get(at) } else { 0 }
}

impl Layout {
    /// Stores words into the first record of a kind that a thread makes, whose byte address is given.
    fn fill(&self, image: &mut Image, creator: u8, kind: u8, base: u64, plan: &[(Field, u64, u64)])
        requires fits { IsTrue (Place.fits self.now.table (length image.old)) }
        requires slot { IsSlot self.now.table kind creator 0 }
        requires address { base ≡ Place.slot_address self.now.table kind creator 0 }
        requires low { base ≤ LAST_END }
        requires entries { All (IsEntryOf self.now.table kind) plan.now }
        ensures { IsFilled self.now.table image.old image.new creator kind plan.now }
    {
        for (field, place, new) in plan {
            let front = u64::from(self.offset(field.number())) + *place;
            image.apply(Op::Store {
                at: base + 8 * front,
                new: *new,
            });
        }
    }

    /// Fills the runtime record of a program.
    fn open_runtime(&self, p: &Program, image: &mut Image)
        requires fits { IsTrue (Place.fits self.now.table (length image.old)) }
        requires zero { IsZero (memory_of self.now.table image.old 0 runtime 0) }
        ensures opens { OpensRuntime p.now (memory_of self.now.table image.new 0 runtime 0) }
        ensures keeps { KeepsOthers self.now.table image.old image.new 0 runtime }
    {
        let env = &p.env;
        let plan = [
            (Field::RuntimeVersion, 0, OPENMP_VERSION),
            (Field::RuntimeThreads, 0, u64::from(p.threads)),
            (Field::RuntimeProcs, 0, u64::from(env.procs)),
            (Field::RuntimeDebug, 0, u64::from(env.debug)),
            (Field::RuntimeMaxActive, 0, u64::from(env.max_active)),
        ];
        self.fill(image, 0, RUNTIME, self.runtime_place(), &plan);
    }

    /// Fills the record of thread 0, which runs the initial task.
    fn open_first(&self, image: &mut Image)
        requires fits { IsTrue (Place.fits self.now.table (length image.old)) }
        requires zero { IsZero (memory_of self.now.table image.old 0 threads 0) }
        ensures opens { OpensThread self.now.table 0
            (memory_of self.now.table image.new 0 threads 0) }
        ensures keeps { KeepsOthers self.now.table image.old image.new 0 threads }
    {
        let plan = [
            (Field::ThreadLife, 0, 1),
            (Field::ThreadNative, 0, FIRST_NATIVE),
            (Field::ThreadCurrent, 0, self.task_at(0, 0)),
        ];
        self.fill(image, 0, THREADS, self.thread_at(0), &plan);
    }

    /// Fills the record of a worker, which hasn't begun.
    fn open_worker(&self, i: u8, image: &mut Image)
        requires fits { IsTrue (Place.fits self.now.table (length image.old)) }
        requires worker { 1 ≤ i }
        requires known { i < Table.thread_count self.now.table }
        requires zero { IsZero (memory_of self.now.table image.old i threads 0) }
        ensures opens { OpensThread self.now.table i
            (memory_of self.now.table image.new i threads 0) }
        ensures keeps { KeepsOthers self.now.table image.old image.new i threads }
    {
        let plan = [
            (Field::ThreadNative, 0, native_id(i)),
            (Field::ThreadState, 0, u64::from(IDLE)),
        ];
        self.fill(image, i, THREADS, self.thread_at(i), &plan);
    }

    /// Fills the record of the initial region.
    fn open_region(&self, p: &Program, image: &mut Image)
        requires fits { IsTrue (Place.fits self.now.table (length image.old)) }
        requires zero { IsZero (memory_of self.now.table image.old 0 regions 0) }
        ensures opens { OpensRegion p.now self.now.table
            (memory_of self.now.table image.new 0 regions 0) }
        ensures keeps { KeepsOthers self.now.table image.old image.new 0 regions }
    {
        let plan = [
            (Field::RegionLife, 0, 1),
            (Field::RegionFunction, 0, entry_address(p.main)),
            (Field::RegionSize, 0, 1),
            (Field::RegionTeam, 0, self.task_at(0, 0)),
        ];
        self.fill(image, 0, REGIONS, self.region_at(0, 0), &plan);
    }

    /// Fills the record of the initial task.
    fn open_task(&self, p: &Program, image: &mut Image)
        requires fits { IsTrue (Place.fits self.now.table (length image.old)) }
        requires zero { IsZero (memory_of self.now.table image.old 0 tasks 0) }
        ensures opens { OpensTask p.now self.now.table
            (memory_of self.now.table image.new 0 tasks 0) }
        ensures keeps { KeepsOthers self.now.table image.old image.new 0 tasks }
    {
        let env = &p.env;
        let plan = [
            (Field::TaskLife, 0, 1),
            (Field::TaskImplicit, 0, 1),
            (Field::TaskRegion, 0, self.region_at(0, 0)),
            (Field::TaskThread, 0, self.thread_at(0)),
            (Field::TaskFunction, 0, entry_address(p.main)),
            (Field::TaskExit, 0, exit_frame(0, 1)),
            (Field::TaskDynamic, 0, u64::from(env.dynamic)),
            (Field::TaskNthreadsLength, 0, env.nthreads.len() as u64),
            (Field::TaskSchedule, 0, env.sched.word()),
            (Field::TaskDevice, 0, u64::from(env.device)),
            (Field::TaskNthreads, 0, element(&env.nthreads, 0)),
            (Field::TaskNthreads, 1, element(&env.nthreads, 1)),
            (Field::TaskNthreads, 2, element(&env.nthreads, 2)),
            (Field::TaskNthreads, 3, element(&env.nthreads, 3)),
        ];
        self.fill(image, 0, TASKS, self.task_at(0, 0), &plan);
    }

    /// Fills the records of all threads.
    fn open_threads(&self, image: &mut Image)
        requires fits { IsTrue (Place.fits self.now.table (length image.old)) }
        requires zero { (i : ℕ) → IsZero (memory_of self.now.table image.old i threads 0) }
        ensures opens { (i : ℕ) → i < Table.thread_count self.now.table
            → OpensThread self.now.table i (memory_of self.now.table image.new i threads 0) }
        ensures keeps { KeepsAll self.now.table image.old image.new threads }
    {
        self.open_first(image);
        for i in 1..self.threads() {
            self.open_worker(i, image);
        }
    }

    /// Writes the opening words of a program into an image of as many words as the layout has, which are all 0.
    pub fn open(&self, p: &Program, image: &mut Image)
        requires zeros { image.old ≡ replicate (Place.image_words self.now.table) 0 }
        requires fits { IsTrue (Place.fits self.now.table (Place.image_words self.now.table)) }
        requires threads { p.now.threads ≡ Table.thread_count self.now.table }
        ensures { AreOpening p.now self.now.table image.new }
    {
        self.publish(image);
        self.open_runtime(p, image);
        self.open_threads(image);
        self.open_region(p, image);
        self.open_task(p, image);
    }
}
