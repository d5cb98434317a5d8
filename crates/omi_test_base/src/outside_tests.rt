//! Tests of the forms in memory: a happy path of each, and a call that fails in mid-stream.
use crate::expecting::expect_equal;
use omi_outside::{
    Call, Files, FreeGate, Gate, MemFiles, MemSink, NeverFiles, NeverSink, OutOfMemory, ReadError,
    Refused, Sink, Status, put_whole, read_whole, write_whole,
};
use std::alloc::Global;
use std::test::Fail;

/// 5,000 bytes, which are two pieces, the first of 4,096. The byte at place `k` is `k % 251`.
fn two_pieces(alloc: Global) -> Result<Vec<u8>, OutOfMemory> {
    let mut bytes = Vec::new(alloc);
    for k in 0..5000u32 {
        bytes.push((k % 251) as u8)?;
    }
    Ok(bytes)
}

/// Reads a whole file and puts its bytes.
fn print_file<F: Files, K: Sink>(alloc: Global, files: &mut F, out: &mut K, name: &str) -> Status {
    match read_whole(alloc, files, name, u64::MAX) {
        Ok(whole) => match put_whole(out, &whole) {
            Ok(()) => Status::Success,
            Err(Refused::Failed) => Status::WriteFault,
            Err(Refused::OutOfMemory) => Status::OutOfMemory,
        },
        Err(ReadError::NoFile) => Status::NoFile,
        Err(ReadError::Failed) => Status::ReadFault,
        Err(ReadError::OutOfMemory) => Status::OutOfMemory,
    }
}

fn pass_step<G: Gate>(gate: &G) {
    gate.pass(1, 7);
}

/// Whether a read of at most so many bytes of `s` gives just these.
fn gives(alloc: Global, files: &mut MemFiles, most: u64, bytes: &[u8]) -> bool {
    match read_whole(alloc, files, "s", most) {
        Ok(whole) => whole.as_slice() == bytes,
        Err(_) => false,
    }
}

#[test]
fn memory_files_write_and_read(rt: HostRuntime) -> Result<(), Fail> {
    let bytes = two_pieces(rt.alloc())?;
    let mut files = MemFiles::new(rt.alloc(), Vec::new(rt.alloc()));
    let missing = files.size("s");
    let written = write_whole(&mut files, "s", &bytes);
    expect_equal(
        &rt,
        &(missing, written, files.size("s")),
        &(Ok(None), Ok(()), Ok(Some(5000))),
    );
    expect_equal(&rt, &files.bytes("s"), &Some(bytes.as_slice()));
    let whole = gives(rt.alloc(), &mut files, 5001, &bytes);
    let front = gives(
        rt.alloc(),
        &mut files,
        4097,
        bytes.get(..4097).ok_or("short")?,
    );
    expect_equal(&rt, &(whole, front), &(true, true));
    let missing = read_whole(rt.alloc(), &mut files, "c", 1);
    expect_equal(&rt, &missing.err(), &Some(ReadError::NoFile));
    Ok(())
}

#[test]
fn memory_files_append_and_create(rt: HostRuntime) -> Result<(), Fail> {
    let mut files = MemFiles::new(rt.alloc(), Vec::new(rt.alloc()));
    files.put("c", b"abc")?;
    let added = files.append("c", b"de");
    assert_eq!(rt;
        (added, files.bytes("c")),
        (Ok(()), Some(b"abcde".as_slice()))
    );
    let created = files.create("c");
    assert_eq!(rt; (created, files.bytes("c")), (Ok(()), Some(b"".as_slice())));
    Ok(())
}

#[test]
fn memory_files_fail_in_mid_stream(rt: HostRuntime) -> Result<(), Fail> {
    let bytes = two_pieces(rt.alloc())?;
    let failing = [
        (Call::Append, 2),
        (Call::ReadAt, 2),
        (Call::Size, 3),
        (Call::Create, 2),
    ];
    let mut files = MemFiles::new(rt.alloc(), failing.to_vec(rt.alloc())?);
    let cut = write_whole(&mut files, "s", &bytes);
    expect_equal(
        &rt,
        &(cut, files.bytes("s")),
        &(Err(Refused::Failed), bytes.get(..4096)),
    );
    files.put("s", &bytes)?;
    let failed = read_whole(rt.alloc(), &mut files, "s", u64::MAX).err();
    let again = gives(rt.alloc(), &mut files, u64::MAX, &bytes);
    let no_size = read_whole(rt.alloc(), &mut files, "s", u64::MAX).err();
    expect_equal(
        &rt,
        &(failed, again, no_size),
        &(Some(ReadError::Failed), true, Some(ReadError::Failed)),
    );
    let refused = write_whole(&mut files, "s", b"x");
    expect_equal(
        &rt,
        &(refused, files.bytes("s")),
        &(Err(Refused::Failed), Some(bytes.as_slice())),
    );
    Ok(())
}

#[test]
fn memory_sink_fails_in_mid_stream(rt: HostRuntime) -> Result<(), Fail> {
    let bytes = two_pieces(rt.alloc())?;
    let mut out = MemSink::new(rt.alloc(), [2].to_vec(rt.alloc())?);
    let cut = put_whole(&mut out, &bytes);
    expect_equal(
        &rt,
        &(cut, Some(out.bytes())),
        &(Err(Refused::Failed), bytes.get(..4096)),
    );
    let rest = put_whole(&mut out, bytes.get(4096..).ok_or("short")?);
    expect_equal(&rt, &(rest, out.bytes()), &(Ok(()), bytes.as_slice()));
    Ok(())
}

#[test]
fn forms_without_faults(rt: HostRuntime) -> Result<(), Fail> {
    let alloc = rt.alloc();
    let bytes = two_pieces(alloc)?;
    let mut files = NeverFiles::new(alloc);
    let mut out = NeverSink::new(alloc);
    let missing = print_file(alloc, &mut files, &mut out, "s").code();
    let written = write_whole(&mut files, "s", &bytes);
    let printed = print_file(alloc, &mut files, &mut out, "s").code();
    expect_equal(&rt, &(missing, written, printed), &(2, Ok(()), 0));
    expect_equal(&rt, &files.bytes("s"), &Some(bytes.as_slice()));
    expect_equal(&rt, &out.bytes(), &bytes.as_slice());
    files.put("s", b"")?;
    let empty = print_file(alloc, &mut files, &mut out, "s");
    expect_equal(&rt, &empty, &Status::Success);
    pass_step(&FreeGate);
    Ok(())
}
