//! The words that are judged of a stop, in their order, each with what stands there where its clause fails.

use crate::asking::Word;
use crate::stops::Records;
use omi_layout::Field;
use std::alloc::{AllocError, Global};

/// A field, a place in it, what stands there where a clause fails, and the clause. None: the word isn't mapped.
type Bad = (Field, u64, Option<u64>, u8);

/// The fields of the runtime record.
const OF_RUNTIME: [Bad; 5] = [
    (Field::RuntimeVersion, 0, Some(201_812), 2),
    (Field::RuntimeThreads, 0, Some(3), 2),
    (Field::RuntimeProcs, 0, Some(0), 2),
    (Field::RuntimeDebug, 0, Some(2), 2),
    (Field::RuntimeMaxActive, 0, Some(256), 2),
];

/// Those of a thread.
const OF_THREAD: [Bad; 4] = [
    (Field::ThreadLife, 0, Some(2), 3),
    (Field::ThreadNative, 0, Some(999), 3),
    (Field::ThreadCurrent, 0, Some(8), 4),
    (Field::ThreadState, 0, Some(2), 3),
];

/// Those of a region with one member.
const OF_REGION: [Bad; 7] = [
    (Field::RegionFunction, 0, Some(0x40_0001), 5),
    (Field::RegionEnclosing, 0, Some(8), 4),
    (Field::RegionEncountering, 0, Some(8), 4),
    (Field::RegionSize, 0, Some(0), 5),
    (Field::RegionLevels, 0, Some(256), 5),
    (Field::RegionActive, 0, Some(256), 5),
    (Field::RegionTeam, 0, Some(0), 4),
];

/// Another member.
const OF_MEMBER: [Bad; 1] = [(Field::RegionTeam, 1, Some(8), 4)];

/// Those of a task with one element in nthreads-var. Any word may stand in the frames and in the tool word. Behind the slots stand the word of its group
/// and the number of its open groups.
const OF_TASK: [Bad; 18] = [
    (Field::TaskImplicit, 0, Some(2), 6),
    (Field::TaskRegion, 0, Some(0), 4),
    (Field::TaskThread, 0, Some(0), 4),
    (Field::TaskNumber, 0, Some(2), 6),
    (Field::TaskGenerating, 0, Some(8), 4),
    (Field::TaskScheduling, 0, Some(8), 4),
    (Field::TaskFunction, 0, Some(0x40_0400), 6),
    (Field::TaskExit, 0, None, 1),
    (Field::TaskEnter, 0, None, 1),
    (Field::TaskDynamic, 0, Some(2), 6),
    (Field::TaskNthreadsLength, 0, Some(5), 6),
    (Field::TaskSchedule, 0, Some(5), 6),
    (Field::TaskDevice, 0, Some(256), 6),
    (Field::TaskFinal, 0, Some(2), 6),
    (Field::TaskTool, 0, None, 1),
    (Field::TaskNthreads, 0, Some(65), 6),
    (Field::TaskSlots, 4, Some(8), 6),
    (Field::TaskSlots, 5, Some(5), 6),
];

/// Those of the elements that a task with four of them has more.
const OF_ELEMENTS: [Bad; 3] = [
    (Field::TaskNthreads, 1, Some(65), 6),
    (Field::TaskNthreads, 2, Some(0), 6),
    (Field::TaskNthreads, 3, Some(65), 6),
];

/// A word that is judged, with what stands there where its clause fails, and the clause.
pub type BadWord = (Word, u8);

fn add(list: &mut Vec<BadWord>, record: u64, fields: &[Bad]) -> Result<(), AllocError> {
    for (field, at, word, clause) in fields {
        list.push(((record, *field, *at, *word), *clause))?;
    }
    Ok(())
}

/// Those of the runtime and of the threads.
fn of_threads(alloc: Global, r: &Records) -> Result<Vec<BadWord>, AllocError> {
    let mut list = Vec::new(alloc);
    add(&mut list, r.runtime, &OF_RUNTIME)?;
    add(&mut list, r.threads[0], &OF_THREAD)?;
    add(&mut list, r.threads[1], &OF_THREAD)?;
    Ok(list)
}

/// Those of a fork, as the search meets the records: the current task of thread 0; its region and the task that generated it; and then those
/// around this region and its other member.
pub fn of_fork(alloc: Global, r: &Records) -> Result<Vec<BadWord>, AllocError> {
    let mut list = of_threads(alloc, r)?;
    add(&mut list, r.master, &OF_TASK)?;
    add(&mut list, r.inner, &OF_REGION)?;
    add(&mut list, r.inner, &OF_MEMBER)?;
    add(&mut list, r.initial, &OF_TASK)?;
    add(&mut list, r.outer, &OF_REGION)?;
    add(&mut list, r.worker, &OF_TASK)?;
    Ok(list)
}

/// Those of the initial task of a fork, where its nthreads-var has four elements.
pub fn of_list(alloc: Global, r: &Records) -> Result<Vec<BadWord>, AllocError> {
    let mut list = Vec::new(alloc);
    add(&mut list, r.initial, &OF_TASK)?;
    add(&mut list, r.initial, &OF_ELEMENTS)?;
    Ok(list)
}

/// Those of the nested chain: the current tasks of both threads; what the first names, its region and the initial task; what the second
/// names, its region and the generated task; and then what the first region names.
pub fn of_nested(alloc: Global, r: &Records) -> Result<Vec<BadWord>, AllocError> {
    let mut list = of_threads(alloc, r)?;
    add(&mut list, r.master, &OF_TASK)?;
    add(&mut list, r.alone, &OF_TASK)?;
    add(&mut list, r.inner, &OF_REGION)?;
    add(&mut list, r.inner, &OF_MEMBER)?;
    add(&mut list, r.initial, &OF_TASK)?;
    add(&mut list, r.innermost, &OF_REGION)?;
    add(&mut list, r.generated, &OF_TASK)?;
    add(&mut list, r.outer, &OF_REGION)?;
    add(&mut list, r.worker, &OF_TASK)?;
    Ok(list)
}
