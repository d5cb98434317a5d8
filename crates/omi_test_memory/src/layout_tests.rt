//! Sizes of images, tables that are refused, and records found again.

ghost use Rattle.std.specs.Prelude.{◌<◌};

use omi_layout::{Field, Kind, Layout, LayoutError, LayoutFault, field_name};
use omi_script::{Program, parse};
use omi_word::{Image, MOST_WORDS, Op, look_up};
use std::alloc::{AllocError, Global};
use std::process::Abort;
use std::test::Fail;

/// A value that threads may share and move, and that is copied.
fn crosses_threads<T: Copy + Send + Sync>(_value: &T) {}

#[test]
fn images_have_their_sizes(rt: HostRuntime) -> Result<(), Fail> {
    crosses_threads(&Layout::family(0, 1));
    let words = (
        Layout::family(0, 1).image_words(),
        Layout::family(7, 1).image_words(),
    );
    assert_eq!(rt; words, (8502, 9050));
    Ok(())
}

#[test]
fn every_family_is_read_back(rt: HostRuntime) -> Result<(), Fail> {
    for k in 0..16u8 {
        for threads in 1..17u8 {
            let layout = Layout::family(k, threads);
            let again = Layout::of_words(&layout.table).is_ok();
            assert!(rt; again);
            assert!(rt; layout.fits(layout.image_words()));
        }
    }
    Ok(())
}

/// A table with one word changed.
fn refused(place: usize, word: u64) -> Option<LayoutFault> {
    let mut table = Layout::family(0, 1).table;
    if place < table.len() {
        table[place] = word;
    }
    match Layout::of_words(&table) {
        Ok(_) => None,
        Err(fault) => Some(fault),
    }
}

/// Each table with one word changed has its fault, which names a word of the table.
fn refuse_tables(rt: &impl Abort, rows: &[(usize, u64, LayoutFault, usize)]) {
    for (place, word, fault, named) in rows {
        assert_eq!(rt; refused(*place, *word), Some(*fault));
        assert_eq!(rt; fault.table_word(), *named);
    }
}

const REFUSED: [(usize, u64, LayoutFault, usize); 9] = [
    (0, 9, LayoutFault::Version(9), 0),
    (2, 12, LayoutFault::OutOfRecord(6), 17),
    (2, 4097, LayoutFault::OutOfRecord(1), 12),
    (5, 2, LayoutFault::OutOfRecord(24), 35),
    (19, 0, LayoutFault::Overlap(7, 8), 19),
    (1, 0x10319, LayoutFault::BadArena(1), 1),
    (3, 0x10310, LayoutFault::BadArena(2), 3),
    (8, 65, LayoutFault::BadArena(3), 6),
    (11, 4097, LayoutFault::BadArena(4), 9),
];

#[test]
fn tables_that_are_refused(rt: HostRuntime) {
    refuse_tables(&rt, &REFUSED);
}

#[test]
fn records_are_found_again(rt: HostRuntime) -> Result<(), Fail> {
    let layout = Layout::family(0, 1);
    let records = [
        layout.runtime_place(),
        layout.thread_at(0),
        layout.region_at(0, 0),
        layout.task_at(0, 0),
        layout.word_at(0, 0, Field::TaskNthreads, 3),
    ];
    assert_eq!(rt;
        records,
        [0x10318, 0x10380, 0x103b0, 0x109b0, 0x109b0 + 8 * 21]
    );
    assert_eq!(rt; layout.thread_of(0x10380), Some(0));
    assert_eq!(rt; layout.region_of(0x103b0 + 96), Some((0, 1)));
    let tasks = [
        layout.task_of(0x109b0 + 256 * 255),
        layout.task_of(0x109b0 + 8),
    ];
    assert_eq!(rt; tasks, [Some((0, 255)), None]);
    let numbers = [
        u16::from(layout.threads()),
        layout.regions_per_thread(),
        layout.tasks_per_thread(),
        layout.offset(44),
    ];
    assert_eq!(rt; numbers, [1, 16, 256, 22]);
    Ok(())
}

/// Words of the published tables of the layout of family 0 for one thread.
const PUBLISHED: [(u64, u64); 7] = [
    (0x10000, 8),
    (0x10028, 0x10148),
    (0x10148, 0x10150),
    (0x10158, 2),
    (0x10160, 0x10318),
    (0x10310, 22),
    (0x10318, 0),
];

/// Symbols, with their addresses.
const SYMBOLS: [(&str, Option<u64>); 4] = [
    ("ompd_dll_locations", Some(0x10148)),
    ("ompd_bp_parallel_end", Some(0x8010)),
    ("omi_layout", Some(0x10158)),
    ("omi", None),
];

/// An image has these words and these symbols.
fn expect_tables(
    rt: &impl Abort,
    image: &Image,
    words: &[(u64, u64)],
    symbols: &[(&str, Option<u64>)],
) {
    for (address, word) in words {
        assert_eq!(rt; image.get(*address), Some(*word));
    }
    for (name, address) in symbols {
        assert_eq!(rt; look_up(image, name), *address);
    }
}

#[test]
fn the_tables_are_published(rt: HostRuntime) -> Result<(), Fail> {
    let layout = Layout::family(0, 1);
    let mut image = Image::zeroed(rt.alloc(), 8502)?;
    let fits = layout.fits(image.len());
    assert!(rt; fits);
    layout.publish(&mut image);
    expect_tables(&rt, &image, &PUBLISHED, &SYMBOLS);
    Ok(())
}

#[test]
fn fields_have_their_names(rt: HostRuntime) -> Result<(), Fail> {
    let table = [
        (0, "layout"),
        (Field::RuntimeVersion.number(), "rt.version"),
        (Field::RuntimeLocks.number(), "rt.locks"),
        (Field::ThreadCurrent.number(), "thread.cur"),
        (Field::RegionTeam.number(), "region.team"),
        (Field::TaskLife.number(), "task.life"),
        (Field::TaskGenerating.number(), "task.generating"),
        (Field::TaskReferences.number(), "task.refs"),
        (Field::TaskSlots.number(), "task.slots"),
    ];
    for (field, name) in table {
        assert_eq!(rt; field_name(field).as_bytes(), name.as_bytes());
    }
    assert_eq!(rt; (Kind::Runtime.number(), Kind::Tasks.number()), (1, 4));
    Ok(())
}

/// The error of a published image with one word changed.
fn unread(alloc: Global, at: u64, word: u64) -> Result<Option<LayoutError>, AllocError> {
    let layout = Layout::family(0, 1);
    let mut image = Image::zeroed(alloc, 8502)?;
    if layout.fits(image.len()) {
        layout.publish(&mut image);
    }
    if image.get(at).is_some() {
        image.apply(Op::Store { at, new: word });
    }
    match Layout::read(&image) {
        Ok(_) => Ok(None),
        Err(error) => Ok(Some(error)),
    }
}

const READ: [(u64, u64, Option<LayoutError>); 6] = [
    (0x10310, 22, None),
    (0x10000, 17, Some(LayoutError::NoSymbol)),
    (0x10000, 7, Some(LayoutError::NoSymbol)),
    (
        0x10140,
        0x208b0,
        Some(LayoutError::Unmapped { addr: 0x209b0 }),
    ),
    (
        0x10158,
        9,
        Some(LayoutError::Refused {
            addr: 0x10158,
            fault: LayoutFault::Version(9),
        }),
    ),
    (
        0x10168,
        12,
        Some(LayoutError::Refused {
            addr: 0x101e0,
            fault: LayoutFault::OutOfRecord(6),
        }),
    ),
];

/// Each image with one word changed has its error, or none.
fn read_all(
    rt: &impl Abort,
    alloc: Global,
    rows: &[(u64, u64, Option<LayoutError>)],
) -> Result<(), AllocError> {
    for (at, word, error) in rows {
        assert_eq!(rt; unread(alloc, *at, *word)?, *error);
    }
    Ok(())
}

#[test]
fn words_that_give_a_layout(rt: HostRuntime) -> Result<(), Fail> {
    read_all(&rt, rt.alloc(), &READ)?;
    Ok(())
}

/// The words of these fields of records, each at a place within its field.
fn expect_words(rt: &impl Abort, layout: &Layout, image: &Image, rows: &[(u64, Field, u64, u64)]) {
    for (record, field, place, word) in rows {
        let front = u64::from(layout.offset(field.number())).wrapping_add(*place);
        let at = record.wrapping_add(front.wrapping_mul(8));
        assert_eq!(rt; image.get(at), Some(*word));
    }
}

/// The opening words of a program of two threads, in the layout of this family.
fn open_in(rt: &impl Abort, alloc: Global, program: &Program, k: u8) -> Result<(), AllocError>
    requires { k < 16 }
{
    let layout = Layout::family(k, 2);
    let count = layout.image_words();
    let fits = layout.fits(count);
    assert!(rt; fits);
    assert!(rt; count as u64 <= MOST_WORDS);
    assert_eq!(rt; program.threads, layout.threads());
    assert!(rt; layout.regions_per_thread() == 16);
    assert!(rt; layout.tasks_per_thread() == 256);
    let mut image = Image::zeroed(alloc, count)?;
    layout.open(program, &mut image);
    assert!(rt; Layout::read(&image).is_ok());
    let task = layout.task_at(0, 0);
    let rows = [
        (layout.runtime_place(), Field::RuntimeThreads, 0, 2),
        (layout.thread_at(0), Field::ThreadCurrent, 0, task),
        (layout.thread_at(1), Field::ThreadNative, 0, 1001),
        (layout.thread_at(1), Field::ThreadState, 0, 0x100),
        (layout.region_at(0, 0), Field::RegionTeam, 0, task),
        (layout.region_at(0, 0), Field::RegionTeam, 1, 0),
        (task, Field::TaskExit, 0, 0x7f00_000f_ffc0),
        (task, Field::TaskNthreads, 1, 2),
        (task, Field::TaskNthreads, 2, 0),
        (layout.task_at(0, 1), Field::TaskLife, 0, 0),
    ];
    expect_words(rt, &layout, &image, &rows);
    Ok(())
}

#[test]
fn opening_words(rt: HostRuntime) -> Result<(), Fail> {
    let text = b"threads 2\nenv num_threads 4,2\nfunc main\nend\n";
    let Ok(program) = parse(rt.alloc(), text) else {
        return Err("no program".into());
    };
    for k in 0..16u8 {
        open_in(&rt, rt.alloc(), &program, k)?;
    }
    Ok(())
}
