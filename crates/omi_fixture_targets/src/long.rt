//! A memory whose records of regions are all one chain, and those of tasks another one: longer chains no program of 64 threads leaves.

ghost use Rattle.std.specs.Prelude.{◌≡◌, IfOk};

use crate::Wrong;
use crate::stopped::{layout_for, program_of, run_of};
use omi_corefile::{CoreImage, core_of};
use omi_layout::{Field, Layout};
use omi_word::{Image, Natives, Op};
use std::alloc::Global;

/// A program of as many threads as it can have.
const SIXTY_FOUR: &str = "threads 64\nfunc main\nend\n";

/// How many records its threads make in the layout of family 0.
pub const LONG_REGIONS: u64 = 64 * 16;

pub const LONG_TASKS: u64 = 64 * 256;

/// Stores a word, where there is one at the address.
fn store(image: &mut Image, at: u64, new: u64) {
    if image.get(at).is_some() {
        image.apply(Op::Store { at, new });
    }
}

/// Puts a word into a field of the record at an address.
fn put(image: &mut Image, layout: &Layout, record: u64, field: Field, word: u64) {
    let front = u64::from(layout.offset(field.number())).wrapping_mul(8);
    store(image, record.wrapping_add(front), word);
}

/// Gives a record so many words of another one.
fn copy(image: &mut Image, from: u64, to: u64, words: u64) {
    for k in 0..words {
        let front = k.wrapping_mul(8);
        if let Some(word) = image.get(from.wrapping_add(front)) {
            store(image, to.wrapping_add(front), word);
        }
    }
}

/// Makes a region of each record, with the words of the initial one, and each in the one before. Answers the innermost one.
fn link_regions(image: &mut Image, layout: &Layout, initial: u64) -> u64 {
    let mut before = initial;
    for i in 0..layout.threads() {
        for k in 0..layout.regions_per_thread() {
            let region = layout.region_at(i, k);
            if region != initial {
                copy(image, initial, region, layout.table[7]);
                put(image, layout, region, Field::RegionEnclosing, before);
                before = region;
            }
        }
    }
    before
}

/// Makes an explicit task of each record, with the words of the initial one: the one before made it and was left for it. Answers the last one.
fn link_tasks(image: &mut Image, layout: &Layout, initial: u64) -> u64 {
    let mut before = initial;
    for i in 0..layout.threads() {
        for k in 0..layout.tasks_per_thread() {
            let task = layout.task_at(i, k);
            if task != initial {
                copy(image, initial, task, layout.table[10]);
                put(image, layout, task, Field::TaskImplicit, 0);
                put(image, layout, task, Field::TaskGenerating, before);
                put(image, layout, task, Field::TaskScheduling, before);
                before = task;
            }
        }
    }
    before
}

/// Links all records. Thread 0 is at the last task, and all tasks are in the innermost region.
fn link(image: &mut Image, layout: &Layout) -> Result<(), Wrong> {
    if layout.threads() < 1 || layout.regions_per_thread() < 1 || layout.tasks_per_thread() < 1 {
        return Err(Wrong::NoProgram);
    }
    let (region, task) = (layout.region_at(0, 0), layout.task_at(0, 0));
    let innermost = link_regions(image, layout, region);
    put(image, layout, task, Field::TaskRegion, innermost);
    let last = link_tasks(image, layout, task);
    put(
        image,
        layout,
        layout.thread_at(0),
        Field::ThreadCurrent,
        last,
    );
    Ok(())
}

/// The core of such a memory, with the context 1000.
pub fn long_chains(alloc: Global) -> Result<CoreImage, Wrong>
    ensures { IfOk result (λ core. core.order ≡ 0) }
{
    let program = program_of(alloc, SIXTY_FOUR)?;
    let layout = layout_for(program.threads, 0)?;
    let run = run_of(alloc, program, layout)?;
    let mut image = run.core.image().same(alloc)?;
    link(&mut image, &layout)?;
    let mut contexts = Natives::new(alloc);
    contexts.push(1000)?;
    Ok(core_of(alloc, &image, &contexts, 0)?)
}
