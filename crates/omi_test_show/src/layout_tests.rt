//! Cores of many layouts, and what `show` makes of each: of the sixteen families, and of tables with their fields and arenas
//! in any order, with gaps, which are valid by their making.

ghost use Rattle.std.specs.Prelude.{◌<◌};

use crate::show_tests::{FINISHED, expect};
use omi_core::{Core, Schedule, Stop};
use omi_corefile::core_bytes_of;
use omi_fixture_calls::CHANGED;
use omi_layout::Layout;
use omi_outside::Status;
use omi_rep::suits;
use omi_script::{Program, parse};
use omi_word::Natives;
use std::alloc::{AllocError, Global};
use std::test::Fail;

/// The core that a finished run leaves in a layout of one thread. An error where the layout doesn't suit the program.
fn core_in(alloc: Global, layout: &Layout, p: &Program) -> Result<Vec<u8>, Fail> {
    if !suits(p, layout) {
        return Err(Fail::from("another layout"));
    }
    let mut core = Core::opening(alloc, p.same(alloc)?, *layout)?;
    let stop = Stop {
        steps: 1000,
        on: None,
    };
    core.run(&Schedule::RoundRobin, stop)?;
    let mut contexts = Natives::new(alloc);
    contexts.push(1000)?;
    Ok(core_bytes_of(alloc, core.image(), &contexts)?)
}

#[test]
fn every_family_is_shown_alike(rt: HostRuntime) -> Result<(), Fail> {
    let alloc = rt.alloc();
    let p = parse(alloc, CHANGED.as_bytes())?;
    for k in 0..16u8 {
        let core = core_in(alloc, &Layout::family(k, 1), &p)?;
        expect(&rt, alloc, &core, Status::Success, FINISHED)?;
    }
    assert_eq!(rt; core_in(alloc, &Layout::family(7, 1), &p)?.len(), 72_440);
    Ok(())
}

/// A fixed sequence of numbers.
#[derive(Drop)]
struct Numbers(u64);

impl Numbers {
    /// The next number, below `n`.
    fn below(&mut self, n: u64) -> u64
        requires { 0 < n }
        ensures { result < n }
    {
        self.0 = self
            .0
            .wrapping_mul(6_364_136_223_846_793_005)
            .wrapping_add(1_442_695_040_888_963_407);
        (self.0 >> 33) % n
    }
}

/// The numbers from `first` to below `end`, in some order.
fn some_order(
    alloc: Global,
    numbers: &mut Numbers,
    first: usize,
    end: usize,
) -> Result<Vec<usize>, AllocError> {
    let mut order = Vec::new(alloc);
    for number in first..end {
        let places = (order.len() as u64).saturating_add(1);
        let at = numbers.below(places) as usize;
        if at <= order.len() {
            order.insert(at, number)?;
        }
    }
    Ok(order)
}

/// The words of a field, by the version of the layout.
fn width(version: u64, field: usize, threads: u64) -> u64 {
    match field {
        6 => 8,
        24 => threads,
        43 => 4,
        44 => { if version == 1 { 4 } else { 10 } }
        _ => 1,
    }
}

/// Places the fields of a record in some order, with gaps, and answers the size of the record.
fn place_fields(
    alloc: Global,
    numbers: &mut Numbers,
    table: &mut [u64; 56],
    fields: (usize, usize),
    threads: u64,
) -> Result<u64, AllocError> {
    let mut end = 0u64;
    let version = table[0];
    let order = some_order(alloc, numbers, fields.0, fields.1)?;
    for field in &order {
        end = end.wrapping_add(numbers.below(4));
        if let Some(word) = table.get_mut(field.wrapping_add(11)) {
            *word = end;
        }
        end = end.wrapping_add(width(version, *field, threads));
    }
    Ok(end.wrapping_add(numbers.below(4)))
}

/// A valid table of this version with so many threads, regions and tasks.
fn some_table(
    alloc: Global,
    numbers: &mut Numbers,
    version: u64,
    threads: u64,
    regions: u64,
    tasks: u64,
) -> Result<[u64; 56], AllocError> {
    let mut table = [0u64; 56];
    table[0] = version;
    table[5] = threads;
    table[8] = regions;
    table[11] = tasks;
    let arenas = [
        (1, (1, 7), 1),
        (3, (7, 13), threads),
        (6, (13, 25), threads.wrapping_mul(regions)),
        (9, (25, 45), threads.wrapping_mul(tasks)),
    ];
    let mut place = 0x10318u64;
    let order = some_order(alloc, numbers, 0, 4)?;
    for at in &order {
        if let Some((index, fields, records)) = arenas.get(*at) {
            let size = place_fields(alloc, numbers, &mut table, *fields, threads)?;
            place = place.wrapping_add(numbers.below(9).wrapping_mul(8));
            if let Some(word) = table.get_mut(*index) {
                *word = place;
            }
            if let Some(word) = table.get_mut(*index + 1) {
                *word = size;
            }
            place = place.wrapping_add(size.wrapping_mul(*records).wrapping_mul(8));
        }
    }
    Ok(table)
}

#[test]
fn permuted_tables_are_read_back(rt: HostRuntime) -> Result<(), Fail> {
    let mut numbers = Numbers(11);
    for _ in 0..1000 {
        let version = numbers.below(2) + 1;
        let threads = numbers.below(16) + 1;
        let regions = numbers.below(64) + 1;
        let tasks = numbers.below(4096) + 1;
        let table = some_table(rt.alloc(), &mut numbers, version, threads, regions, tasks)?;
        match Layout::of_words(&table) {
            Ok(layout) => {
                assert_eq!(rt; layout.table, table);
                let fits = layout.fits(layout.image_words());
                assert!(rt; fits);
            }
            Err(fault) => assert_eq!(rt; Some(fault), None),
        }
    }
    Ok(())
}

#[test]
fn permuted_layouts_are_shown_alike(rt: HostRuntime) -> Result<(), Fail> {
    let alloc = rt.alloc();
    let p = parse(alloc, CHANGED.as_bytes())?;
    let mut numbers = Numbers(12);
    for _ in 0..1000 {
        let regions = numbers.below(4) + 1;
        let tasks = numbers.below(8) + 1;
        let table = some_table(alloc, &mut numbers, 2, 1, regions, tasks)?;
        match Layout::of_words(&table) {
            Ok(layout) => {
                let core = core_in(alloc, &layout, &p)?;
                expect(&rt, alloc, &core, Status::Success, FINISHED)?;
            }
            Err(fault) => assert_eq!(rt; Some(fault), None),
        }
    }
    Ok(())
}
