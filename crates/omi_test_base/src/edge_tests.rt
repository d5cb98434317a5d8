//! Tests of the edge over real files and standard output, which no clause reaches.
use crate::expecting::expect_equal;
use crate::stand_in::{Unruly, UnrulyOutput, letters};
use omi_outside::{
    DiskFiles, Failed, Files, ReadError, Refused, Sink, StdSink, put_whole, read_whole, write_whole,
};
use std::alloc::Global;
use std::fs::Permissions;
use std::io::ErrorKind;
use std::os::unix::fs::{PermissionsExt, symlink};
use std::path::PathBuf;
use std::test::Fail;
use std::{env, fs, io, process};

/// A name in the folder for temporary files that no other process uses.
fn fresh(rt: &HostRuntime, name: &str) -> io::Result<PathBuf> {
    let file = format!(in rt.alloc(); "omi-outside-{}-{name}", process::id(rt.process()))?;
    Ok(env::temp_dir(rt)?.join(rt.alloc(), file.as_str())?)
}

/// Whether a real file holds just these bytes.
fn holds(rt: &HostRuntime, name: &str, bytes: &[u8]) -> bool {
    match fs::read(rt, name) {
        Ok(held) => held.as_slice() == bytes,
        Err(_) => false,
    }
}

/// Whether `read_whole` gives just these bytes, in no more room than they take.
fn gives<F: Files>(alloc: Global, files: &mut F, name: &str, bytes: &[u8]) -> bool {
    match read_whole(alloc, files, name, u64::MAX) {
        Ok(read) => read.as_slice() == bytes && read.capacity() == bytes.len(),
        Err(_) => false,
    }
}

#[test]
fn real_files_write_and_read(rt: HostRuntime) -> Result<(), Fail> {
    let path = fresh(&rt, "whole")?;
    let name = path.as_str();
    let bytes = letters(rt.alloc(), 100_003)?;
    let mut files = DiskFiles::new(rt.clone()?);
    let missing = files.size(name);
    let written = (write_whole(&mut files, name, &bytes), files.sync());
    let whole = (
        holds(&rt, name, &bytes),
        gives(rt.alloc(), &mut files, name, &bytes),
    );
    // A shorter text over the longer one leaves none of the old bytes.
    let shorter = write_whole(&mut files, name, b"short");
    let left = holds(&rt, name, b"short");
    fs::remove_file(&rt, name)?;
    expect_equal(&rt, &(missing, written), &(Ok(None), (Ok(()), Ok(()))));
    expect_equal(&rt, &(whole, shorter, left), &((true, true), Ok(()), true));
    Ok(())
}

#[test]
fn real_files_read_in_pieces(rt: HostRuntime) -> Result<(), Fail> {
    let path = fresh(&rt, "pieces")?;
    let name = path.as_str();
    let mut files = DiskFiles::new(rt.clone()?);
    let written = write_whole(&mut files, name, b"abcde");
    let size = files.size(name);
    let mut piece = [0u8; 4];
    let last = files.read_at(name, 3, &mut piece);
    let other = files.read_at("other", 0, &mut piece);
    let past = files.read_at(name, 5, &mut piece);
    fs::remove_file(&rt, name)?;
    expect_equal(&rt, &(written, size, last), &(Ok(()), Ok(Some(5)), Ok(2)));
    expect_equal(
        &rt,
        &(other, past, piece),
        &(Err(Failed), Err(Failed), [b'd', b'e', 0, 0]),
    );
    Ok(())
}

#[test]
fn real_files_append(rt: HostRuntime) -> Result<(), Fail> {
    let path = fresh(&rt, "added")?;
    let name = path.as_str();
    let mut files = DiskFiles::new(rt.clone()?);
    // A name that isn't there is made, and one that was closed is added to at its end.
    let made = (files.append(name, b"ab"), files.append(name, b"cd"));
    let again = DiskFiles::new(rt.clone()?).append(name, b"ef");
    let added = holds(&rt, name, b"abcdef");
    fs::remove_file(&rt, name)?;
    expect_equal(
        &rt,
        &(made, again, added),
        &((Ok(()), Ok(())), Ok(()), true),
    );
    Ok(())
}

#[test]
fn files_that_are_written_stay_open(rt: HostRuntime) -> Result<(), Fail> {
    let (path, moved) = (fresh(&rt, "named")?, fresh(&rt, "moved")?);
    let (name, elsewhere) = (path.as_str(), moved.as_str());
    let mut files = DiskFiles::new(rt.clone()?);
    let created = files.create(name);
    fs::rename(&rt, name, elsewhere)?;
    let followed = (files.append(name, b"gh"), files.append(name, b"ij"));
    let left = (holds(&rt, name, b""), holds(&rt, elsewhere, b"ghij"));
    fs::remove_file(&rt, elsewhere)?;
    expect_equal(
        &rt,
        &(created, followed, left),
        &(Ok(()), (Ok(()), Ok(())), (false, true)),
    );
    Ok(())
}

#[test]
fn names_that_are_no_files(rt: HostRuntime) -> Result<(), Fail> {
    let path = fresh(&rt, "plain")?;
    let name = path.as_str();
    let below = path.join(rt.alloc(), "below")?;
    let mut files = DiskFiles::new(rt.clone()?);
    let written = write_whole(&mut files, name, b"x");
    // Below a file there is none, and none can be made.
    let through = (files.size(below.as_str()), files.create(below.as_str()));
    fs::remove_file(&rt, name)?;
    let gone = files.append(below.as_str(), b"x");
    expect_equal(
        &rt,
        &(written, through),
        &(Ok(()), (Ok(None), Err(Refused::Failed))),
    );
    expect_equal(&rt, &gone, &Err(Refused::Failed));
    Ok(())
}

#[test]
fn the_empty_name_and_folders(rt: HostRuntime) -> Result<(), Fail> {
    let folder = env::temp_dir(&rt)?;
    let mut files = DiskFiles::new(rt.clone()?);
    // The empty name is no file's name.
    let empty = (files.size(""), files.create(""), files.append("", b"x"));
    // A folder is there, and can be neither read nor written.
    let read = read_whole(rt.alloc(), &mut files, folder.as_str(), 4096).err();
    let written = write_whole(&mut files, folder.as_str(), b"x");
    expect_equal(
        &rt,
        &empty,
        &(Ok(None), Err(Refused::Failed), Err(Refused::Failed)),
    );
    expect_equal(
        &rt,
        &(read, written),
        &(Some(ReadError::Failed), Err(Refused::Failed)),
    );
    Ok(())
}

#[test]
fn forbidden_files_are_there(rt: HostRuntime) -> Result<(), Fail> {
    let path = fresh(&rt, "forbidden")?;
    let name = path.as_str();
    let mut files = DiskFiles::new(rt.clone()?);
    let made = write_whole(&mut files, name, b"x");
    fs::set_permissions(&rt, name, Permissions::from_mode(0))?;
    let forbidden = fs::open(&rt, name).is_err();
    let found = (
        files.size(name),
        DiskFiles::new(rt.clone()?).append(name, b"y"),
    );
    fs::remove_file(&rt, name)?;
    // Who may open every file, as root, has no forbidden one.
    let wanted = if forbidden {
        (Err(Refused::Failed), Err(Refused::Failed))
    } else {
        (Ok(Some(1)), Ok(()))
    };
    expect_equal(&rt, &(made, found), &(Ok(()), wanted));
    Ok(())
}

/// A link to itself is there for every user, and nobody can open it.
#[test]
fn links_that_lead_nowhere_are_there(rt: HostRuntime) -> Result<(), Fail> {
    let path = fresh(&rt, "circle")?;
    let name = path.as_str();
    symlink(&rt, name, name)?;
    let mut files = DiskFiles::new(rt.clone()?);
    let found = (
        files.size(name),
        files.create(name),
        files.append(name, b"x"),
    );
    fs::remove_file(&rt, name)?;
    expect_equal(
        &rt,
        &found,
        &(
            Err(Refused::Failed),
            Err(Refused::Failed),
            Err(Refused::Failed),
        ),
    );
    Ok(())
}

#[test]
fn devices(rt: HostRuntime) -> Result<(), Fail> {
    // A file that is made in the place of a device that is missing takes what is written.
    let are_there = (fs::exists(&rt, "/dev/full")?, fs::exists(&rt, "/dev/null")?);
    assert_eq!(rt; are_there, (true, true));
    let mut files = DiskFiles::new(rt.clone()?);
    let full = write_whole(&mut files, "/dev/full", b"x");
    // What can't be handed over is no fault.
    let null = (write_whole(&mut files, "/dev/null", b"x"), files.sync());
    let empty = gives(rt.alloc(), &mut files, "/dev/null", b"");
    expect_equal(
        &rt,
        &(full, null, empty),
        &(Err(Refused::Failed), (Ok(()), Ok(())), true),
    );
    Ok(())
}

/// What is kept of the write that the system refused last, as a text.
fn told<R: fs::Files + AllocGlobal + Drop>(
    alloc: Global,
    files: &DiskFiles<R>,
) -> Result<String, Fail> {
    match files.fault() {
        Some(fault) => Ok(format!(in alloc; "{fault}")?),
        None => Ok(String::new(alloc)),
    }
}

#[test]
fn why_a_write_is_refused(rt: HostRuntime) -> Result<(), Fail> {
    let mut files = DiskFiles::new(rt.clone()?);
    assert_eq!(&rt; told(rt.alloc(), &files)?.as_str(), "");
    // A read that fails is no write.
    let read = files.read_at("/dev/null", 0, &mut [0]);
    assert_eq!(&rt;
        (read, told(rt.alloc(), &files)?.as_str()),
        (Err(Failed), "")
    );
    let empty = (files.create(""), told(rt.alloc(), &files)?);
    assert_eq!(&rt; empty.0, Err(Refused::Failed));
    assert_eq!(&rt;
        empty.1.as_str(),
        "\"\": No such file or directory (os error 2)"
    );
    // What succeeds leaves what is kept.
    let null = (write_whole(&mut files, "/dev/null", b"x"), files.sync());
    assert_eq!(&rt; null, (Ok(()), Ok(())));
    assert_eq!(&rt;
        told(rt.alloc(), &files)?.as_str(),
        "\"\": No such file or directory (os error 2)"
    );
    let added = (files.append("", b"x"), files.append("/dev/full", b"x"));
    assert_eq!(&rt; added, (Err(Refused::Failed), Err(Refused::Failed)));
    assert_eq!(&rt;
        told(rt.alloc(), &files)?.as_str(),
        "\"/dev/full\": No space left on device (os error 28)"
    );
    Ok(())
}

#[test]
fn short_and_interrupted_calls(rt: HostRuntime) -> Result<(), Fail> {
    let path = fresh(&rt, "short")?;
    let name = path.as_str();
    let bytes = letters(rt.alloc(), 9_000)?;
    let mut files = DiskFiles::new((Unruly::new(rt.clone()?), rt.alloc()));
    let written = write_whole(&mut files, name, &bytes);
    let whole = (
        holds(&rt, name, &bytes),
        gives(rt.alloc(), &mut files, name, &bytes),
    );
    fs::remove_file(&rt, name)?;
    expect_equal(&rt, &(written, whole), &(Ok(()), (true, true)));
    Ok(())
}

#[test]
fn writes_that_fail(rt: HostRuntime) -> Result<(), Fail> {
    let path = fresh(&rt, "unwritten")?;
    let name = path.as_str();
    let bytes = letters(rt.alloc(), 9_000)?;
    // The stand-in takes 1,000 bytes a call, so the eighth is within the second piece.
    let unruly = Unruly::new(rt.clone()?).failing_write(8);
    let mut files = DiskFiles::new((unruly, rt.alloc()));
    let written = write_whole(&mut files, name, &bytes);
    let left = holds(&rt, name, bytes.get(..6_096).ok_or("short")?);
    // The file stays open, so that what is left can be handed over.
    let handed = files.sync();
    fs::remove_file(&rt, name)?;
    expect_equal(
        &rt,
        &(written, left, handed),
        &(Err(Refused::Failed), true, Ok(())),
    );
    Ok(())
}

#[test]
fn reads_that_fail(rt: HostRuntime) -> Result<(), Fail> {
    let path = fresh(&rt, "unread")?;
    let name = path.as_str();
    let bytes = letters(rt.alloc(), 9_000)?;
    fs::write(&rt, name, bytes.as_slice())?;
    let unruly = Unruly::new(rt.clone()?).failing_read(8);
    let mut files = DiskFiles::new((unruly, rt.alloc()));
    let read = read_whole(rt.alloc(), &mut files, name, u64::MAX).err();
    fs::remove_file(&rt, name)?;
    expect_equal(&rt, &read, &Some(ReadError::Failed));
    Ok(())
}

#[test]
fn opens_that_fail(rt: HostRuntime) -> Result<(), Fail> {
    for kind in [
        ErrorKind::PermissionDenied,
        ErrorKind::FilesystemLoop,
        ErrorKind::OutOfMemory,
        ErrorKind::Other,
    ] {
        let unruly = Unruly::new(rt.clone()?).failing_open(kind);
        let mut files = DiskFiles::new((unruly, rt.alloc()));
        expect_equal(&rt, &files.size("s"), &Err(Refused::Failed));
        expect_equal(&rt, &files.create("s"), &Err(Refused::Failed));
        expect_equal(&rt, &files.append("s", b"x"), &Err(Refused::Failed));
    }
    for kind in [ErrorKind::NotFound, ErrorKind::NotADirectory] {
        let unruly = Unruly::new(rt.clone()?).failing_open(kind);
        let mut files = DiskFiles::new((unruly, rt.alloc()));
        expect_equal(&rt, &files.size("s"), &Ok(None));
    }
    Ok(())
}

#[test]
fn faults_told_at_the_end(rt: HostRuntime) -> Result<(), Fail> {
    let path = fresh(&rt, "late")?;
    let name = path.as_str();
    let unruly = Unruly::new(rt.clone()?).failing_sync(ErrorKind::StorageFull);
    let mut files = DiskFiles::new((unruly, rt.alloc()));
    let nothing = files.sync();
    let late = (write_whole(&mut files, name, b"x"), files.sync());
    fs::remove_file(&rt, name)?;
    expect_equal(&rt, &(nothing, late), &(Ok(()), (Ok(()), Err(Failed))));
    Ok(())
}

/// What was written is handed over before another file is written. A read leaves it for the end.
#[test]
fn what_was_written_is_handed_over(rt: HostRuntime) -> Result<(), Fail> {
    let (path, second) = (fresh(&rt, "first")?, fresh(&rt, "second")?);
    let (name, other) = (path.as_str(), second.as_str());
    let unruly = Unruly::new(rt.clone()?).failing_sync(ErrorKind::StorageFull);
    let mut files = DiskFiles::new((unruly, rt.alloc()));
    let written = (files.append(name, b"x"), files.append(name, b"y"));
    let read = (files.size(name), files.sync());
    let created = (files.create(name), files.append(other, b"z"));
    let mut files = DiskFiles::new(rt.clone()?);
    let both = (files.create(other), files.append(name, b"z"), files.sync());
    let left = (holds(&rt, name, b"xyz"), holds(&rt, other, b""));
    fs::remove_file(&rt, name)?;
    fs::remove_file(&rt, other)?;
    expect_equal(
        &rt,
        &(written, read),
        &((Ok(()), Ok(())), (Ok(Some(2)), Err(Failed))),
    );
    let refused = (Err(Refused::Failed), Err(Refused::Failed));
    expect_equal(&rt, &created, &refused);
    expect_equal(
        &rt,
        &(both, left),
        &((Ok(()), Ok(()), Ok(())), (true, true)),
    );
    Ok(())
}

#[test]
fn files_that_cannot_be_flushed(rt: HostRuntime) -> Result<(), Fail> {
    let path = fresh(&rt, "pipe")?;
    let name = path.as_str();
    let unruly = Unruly::new(rt.clone()?).failing_sync(ErrorKind::InvalidInput);
    let mut files = DiskFiles::new((unruly, rt.alloc()));
    let pipe = (write_whole(&mut files, name, b"x"), files.sync());
    fs::remove_file(&rt, name)?;
    expect_equal(&rt, &pipe, &(Ok(()), Ok(())));
    Ok(())
}

#[test]
fn output(rt: HostRuntime) -> Result<(), Fail> {
    let path = fresh(&rt, "output")?;
    let name = path.as_str();
    let bytes = letters(rt.alloc(), 100_003)?;
    let mut out = StdSink::new(UnrulyOutput::new(fs::create(&rt, name)?, 0));
    let whole = (put_whole(&mut out, &bytes), holds(&rt, name, &bytes));
    let mut out = StdSink::new(UnrulyOutput::new(fs::create(&rt, name)?, 3));
    let cut = put_whole(&mut out, &bytes);
    let front = holds(&rt, name, bytes.get(..8_192).ok_or("short")?);
    fs::remove_file(&rt, name)?;
    expect_equal(
        &rt,
        &(whole, cut, front),
        &((Ok(()), true), Err(Refused::Failed), true),
    );
    let mut out = StdSink::new(rt.clone()?);
    expect_equal(&rt, &put_whole(&mut out, b"put by a test\n"), &Ok(()));
    Ok(())
}
