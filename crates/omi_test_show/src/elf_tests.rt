//! Runs of `elf` through the top call, and of the commands that read its files: the file, its report and its verdict, and each refusal.

use crate::elf_files::{hand_made, with_bytes};
use crate::show_tests::{FINISHED, OPENING, expect};
use omi_fixture_calls::{CHANGED, EMPTY, call, core_of};
use omi_fixture_done::Done;
use omi_outside::{Call, Status};
use std::alloc::{AllocError, Global};
use std::process::Abort;
use std::test::Fail;

/// What `elf` leaves of a core under `c`, where these calls of reading, writing and putting fail.
fn elf_with(
    alloc: Global,
    core: Option<&[u8]>,
    reads: &[(Call, u64)],
    writes: &[(Call, u64)],
    puts: &[u64],
) -> Result<Done, AllocError> {
    call(alloc, &["elf", "c", "d"], ("", core), reads, writes, puts)
}

/// The same, where no call fails.
fn elf(alloc: Global, core: &[u8]) -> Result<Done, AllocError> {
    elf_with(alloc, Some(core), &[], &[], &[])
}

/// A call ended with this status, put this text, and left these bytes under `d`, if any.
fn expect_done(rt: &impl Abort, done: &Done, status: Status, text: &[u8], copy: Option<&[u8]>) {
    assert_eq!(rt; done.status, status);
    assert_eq!(rt; done.out.bytes(), text);
    assert_eq!(rt; done.files.bytes("d"), copy);
    assert_eq!(rt; done.files.bytes("other"), Some(b"stays".as_slice()));
}

/// The file that `elf` writes of a core.
fn elf_of(alloc: Global, core: &[u8]) -> Result<Vec<u8>, Fail> {
    elf(alloc, core)?.left(alloc, "d")
}

/// The core of an empty run as an ELF file: its length, its report, and a fault at its type and at its end.
#[test]
fn written_as_elf(rt: HostRuntime) -> Result<(), Fail> {
    let alloc = rt.alloc();
    let core = core_of(alloc, "0", EMPTY)?;
    let file = elf_of(alloc, &core)?;
    let done = elf(alloc, &core)?;
    expect_done(
        &rt,
        &done,
        Status::Success,
        b"elf 1\n",
        Some(file.as_slice()),
    );
    assert_eq!(rt; file.len(), 68_220);
    expect(&rt, alloc, &file, Status::Success, OPENING)?;
    let other = with_bytes(alloc, &file, 16, b"\x02")?;
    expect(&rt, alloc, &other, Status::Core, "core 16 24 NotCore\n")?;
    let cut = file.get(..68_219).unwrap_or(b"");
    expect(&rt, alloc, cut, Status::Core, "core 68219 26 Short\n")?;
    Ok(())
}

/// The ELF file of a core has so many bytes more, and this report.
fn expect_file(rt: &impl Abort, alloc: Global, core: &[u8], report: &str) -> Result<(), Fail> {
    let file = elf_of(alloc, core)?;
    assert_eq!(rt; file.len(), core.len().wrapping_add(164));
    expect(rt, alloc, &file, Status::Success, report)?;
    Ok(())
}

/// A core in the other order has the same report as an ELF file.
#[test]
fn both_orders(rt: HostRuntime) -> Result<(), Fail> {
    let alloc = rt.alloc();
    for (steps, script, report) in [("0", EMPTY, OPENING), ("1000", CHANGED, FINISHED)] {
        let core = core_of(alloc, steps, script)?;
        let line = ["recode", "1", "c", "d"];
        let big = call(alloc, &line, ("", Some(core.as_slice())), &[], &[], &[])?;
        expect_file(&rt, alloc, &core, report)?;
        expect_file(&rt, alloc, &big.left(alloc, "d")?, report)?;
    }
    Ok(())
}

/// The core's words in a file that another tool might have written: its highest bytes first, a foreign note in front of ours, two
/// segments that touch in falling order, one above every program's memory, and one without bytes.
#[test]
fn a_hand_made_file(rt: HostRuntime) -> Result<(), Fail> {
    let alloc = rt.alloc();
    for (steps, script, report) in [("0", EMPTY, OPENING), ("1000", CHANGED, FINISHED)] {
        let core = core_of(alloc, steps, script)?;
        let file = hand_made(alloc, core.get(40..).unwrap_or(b""))?;
        expect(&rt, alloc, &file, Status::Success, report)?;
    }
    Ok(())
}

/// Words that are refused.
const USAGE: [&[&str]; 6] = [
    &["elf"],
    &["elf", "c"],
    &["elf", "c", "d", "e"],
    &["elf", "c", "d", "--layout", "0"],
    &["elf", "c", "d", "--seed", "1"],
    &["ELF", "c", "d"],
];

#[test]
fn refused_words(rt: HostRuntime) -> Result<(), Fail> {
    let alloc = rt.alloc();
    let core = core_of(alloc, "0", EMPTY)?;
    for line in USAGE {
        let done = call(alloc, line, ("", Some(core.as_slice())), &[], &[], &[])?;
        expect_done(&rt, &done, Status::Usage, b"usage\n", None);
    }
    Ok(())
}

/// Another byte at a place of the core, and what is put.
const NO_CORE: [(usize, &[u8], &[u8]); 3] = [
    (0, b"o", b"core 0 1 BadMagic\n"),
    (9, b"\x02", b"core 9 3 Order\n"),
    (24, b"\x04", b"core 24 6 SegmentOrder\n"),
];

/// It reads no ELF file, whose first bytes are no core's.
#[test]
fn refused_cores(rt: HostRuntime) -> Result<(), Fail> {
    let alloc = rt.alloc();
    let core = core_of(alloc, "0", EMPTY)?;
    for (at, bytes, text) in NO_CORE {
        let changed = with_bytes(alloc, &core, at, bytes)?;
        expect_done(&rt, &elf(alloc, &changed)?, Status::Core, text, None);
    }
    let file = elf_of(alloc, &core)?;
    let done = elf(alloc, &file)?;
    expect_done(&rt, &done, Status::Core, b"core 0 1 BadMagic\n", None);
    let none = elf_with(alloc, None, &[], &[], &[])?;
    expect_done(&rt, &none, Status::NoFile, b"no file c\n", None);
    Ok(())
}

/// The headers and the front of the note alone.
#[test]
fn a_core_without_segments(rt: HostRuntime) -> Result<(), Fail> {
    let alloc = rt.alloc();
    let core = b"OMPDCOR1\x01\x00\x00\x00\x00\x00\x00\x00";
    let file = elf_of(alloc, core)?;
    assert_eq!(rt; file.len(), 140);
    expect_done(
        &rt,
        &elf(alloc, core)?,
        Status::Success,
        b"elf 0\n",
        Some(file.as_slice()),
    );
    expect(&rt, alloc, &file, Status::Incompatible, "incompatible\n")?;
    Ok(())
}

#[test]
fn calls_that_fail(rt: HostRuntime) -> Result<(), Fail> {
    let alloc = rt.alloc();
    let core = core_of(alloc, "0", EMPTY)?;
    for read in [(Call::Size, 1), (Call::ReadAt, 1), (Call::ReadAt, 5)] {
        let done = elf_with(alloc, Some(core.as_slice()), &[read], &[], &[])?;
        expect_done(&rt, &done, Status::ReadFault, b"read fault c\n", None);
    }
    let creates = [(Call::Create, 1)];
    let done = elf_with(alloc, Some(core.as_slice()), &[], &creates, &[])?;
    expect_done(&rt, &done, Status::WriteFault, b"", None);
    let file = elf_of(alloc, &core)?;
    let appends = [(Call::Append, 3)];
    let done = elf_with(alloc, Some(core.as_slice()), &[], &appends, &[])?;
    expect_done(&rt, &done, Status::WriteFault, b"", file.get(..8192));
    let done = elf_with(alloc, Some(core.as_slice()), &[], &[], &[1])?;
    expect_done(&rt, &done, Status::WriteFault, b"", Some(file.as_slice()));
    Ok(())
}

/// A file that begins as one of ELF and is another, or is cut within its header.
const NO_ELF: [(usize, &[u8], usize, &str); 6] = [
    (0, b"\x7fELF", 4, "core 4 26 Short\n"),
    (4, b"\x01", 68_220, "core 4 22 Class\n"),
    (5, b"\x03", 68_220, "core 5 23 Order\n"),
    (54, b"\x28", 68_220, "core 54 25 HeaderSize\n"),
    (180, b"\x10", 68_220, "core 0 30 NoContexts\n"),
    (136, b"\x04", 68_220, "core 136 27 Unaligned\n"),
];

/// `show` and `audit` refuse an ELF file by the table of ELF files, and one that has not all four bytes as any other.
#[test]
fn refused_files(rt: HostRuntime) -> Result<(), Fail> {
    let alloc = rt.alloc();
    let file = elf_of(alloc, &core_of(alloc, "0", EMPTY)?)?;
    for (at, bytes, left, text) in NO_ELF {
        let mut changed = with_bytes(alloc, &file, at, bytes)?;
        changed.truncate(left);
        expect(&rt, alloc, &changed, Status::Core, text)?;
        let done = call(
            alloc,
            &["audit", "c"],
            ("", Some(changed.as_slice())),
            &[],
            &[],
            &[],
        )?;
        expect_done(&rt, &done, Status::Core, text.as_bytes(), None);
    }
    let other = with_bytes(alloc, &file, 3, b"G")?;
    expect(&rt, alloc, &other, Status::Core, "core 0 1 BadMagic\n")?;
    let front = file.get(..3).unwrap_or(b"");
    expect(&rt, alloc, front, Status::Core, "core 3 4 Short\n")?;
    Ok(())
}

/// Bytes behind what the headers speak of are not looked at, up to the most bytes of a file.
#[test]
fn the_longest_file(rt: HostRuntime) -> Result<(), Fail> {
    let alloc = rt.alloc();
    let mut file = elf_of(alloc, &core_of(alloc, "0", EMPTY)?)?;
    file.resize(16_777_216, 0)?;
    expect(&rt, alloc, &file, Status::Success, OPENING)?;
    Ok(())
}

/// A file with more is too large, however many they are.
#[test]
fn a_file_that_is_too_long(rt: HostRuntime) -> Result<(), Fail> {
    let alloc = rt.alloc();
    let mut file = elf_of(alloc, &core_of(alloc, "0", EMPTY)?)?;
    file.resize(16_777_218, 0)?;
    expect(&rt, alloc, &file, Status::Core, "core 0 28 TooLarge\n")?;
    Ok(())
}

/// `run` reads an ELF file back as it reads a core, and `audit` judges its words.
#[test]
fn read_by_others(rt: HostRuntime) -> Result<(), Fail> {
    let alloc = rt.alloc();
    let core = core_of(alloc, "0", EMPTY)?;
    let file = elf_of(alloc, &core)?;
    for line in [["run", "0", "s", "c"].as_slice(), ["audit", "c"].as_slice()] {
        let of_core = call(alloc, line, (EMPTY, Some(core.as_slice())), &[], &[], &[])?;
        let of_file = call(alloc, line, (EMPTY, Some(file.as_slice())), &[], &[], &[])?;
        assert_eq!(rt; of_core.status, Status::Success);
        assert_eq!(rt; of_file.status, Status::Success);
        assert_eq!(rt; of_file.out.bytes(), of_core.out.bytes());
        assert_eq!(rt; of_file.files.bytes("c"), of_core.files.bytes("c"));
    }
    Ok(())
}
