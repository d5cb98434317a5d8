//! What a program does before and behind its top call: the words that it is started with, and what it hands over at its end.

use omi_fixture_calls::{EMPTY, core_of, with_word};
use omi_fixture_done::words;
use omi_frame::{handed_over, words_of};
use omi_outside::{Call, DiskFiles, MemFiles, MemSink, Status};
use omi_test_base::stand_in::Unruly;
use omi_top::run_top;
use std::alloc::{AllocError, Global};
use std::env::{Env, FillError};
use std::io::ErrorKind;
use std::process::Abort;
use std::test::Fail;
use std::{env, fs, process};

/// A program that is started with these words.
#[derive(Drop)]
struct Started {
    words: &'static [&'static str],
}

impl Env for Started {
    fn arg(&self, i: usize, buf: &mut [u8]) -> Result<usize, FillError> {
        let Some(word) = self.words.get(i) else {
            return Err(FillError::NotPresent);
        };
        if word.len() > buf.len() {
            return Err(FillError::TooLong);
        }
        buf[..word.len()].copy_from_slice(word.as_bytes());
        Ok(word.len())
    }

    fn var(&self, _name: &str, _buf: &mut [u8]) -> Result<usize, FillError> {
        Err(FillError::NotPresent)
    }

    fn var_at(&self, _i: usize, _buf: &mut [u8]) -> Result<usize, FillError> {
        Err(FillError::NotPresent)
    }
}

/// A command line with each option, behind the program's name.
const WORDS: [&str; 13] = [
    "ompdi",
    "stop",
    "1000000",
    "s",
    "c",
    "--seed",
    "5",
    "--break",
    "task_begin",
    "--count",
    "20",
    "--layout",
    "7",
];

/// The words are those behind the program's name, all of them and in their order.
#[test]
fn the_words_behind_the_name(rt: HostRuntime) -> Result<(), Fail> {
    for count in [0usize, 1, 2, 9, 10, 13] {
        let words = WORDS.get(..count).unwrap_or(&[]);
        let found = words_of(&(Started { words }, rt.alloc()))?;
        assert_eq!(rt; found.len(), count.saturating_sub(1));
        for at in 1..count {
            let word = found.get(at.wrapping_sub(1)).map(|word| word.as_str());
            assert_eq!(rt; word, words.get(at).copied(), "word {at}");
        }
    }
    Ok(())
}

/// A line over a script under `s`, and what stands under the name of its core. A read may fail. The name ends with this word.
#[derive(Clone, Copy)]
struct Given<'a> {
    verb: &'a str,
    steps: &'a str,
    script: &'a str,
    core: Option<&'a [u8]>,
    failing: Option<(Call, u64)>,
    name: &'a str,
}

/// The files that a line reads, with the name of its core.
fn source(alloc: Global, given: &Given<'_>, core: &str) -> Result<MemFiles, AllocError> {
    let mut failing = Vec::new(alloc);
    if let Some(read) = given.failing {
        failing.push(read)?;
    }
    let mut files = MemFiles::new(alloc, failing);
    files.put("s", given.script.as_bytes())?;
    if let Some(bytes) = given.core {
        files.put(core, bytes)?;
    }
    Ok(files)
}

/// The statuses with which a line ends before and behind the handing over, which may fail, and whether its core, a real file, was written.
fn ended(
    rt: &HostRuntime,
    given: &Given<'_>,
    sync: Option<ErrorKind>,
) -> Result<(Status, Status, bool), Fail> {
    let alloc = rt.alloc();
    let file = format!(in alloc; "omi-programs-{}-{}", process::id(rt.process()), given.name)?;
    let path = env::temp_dir(rt)?.join(alloc, file.as_str())?;
    let core = path.as_str();
    let mut files = source(alloc, given, core)?;
    let unruly = Unruly::new(rt.clone()?);
    let unruly = match sync {
        Some(kind) => unruly.failing_sync(kind),
        None => unruly,
    };
    let mut dest = DiskFiles::new((unruly, alloc));
    let mut out = MemSink::new(alloc, Vec::new(alloc));
    let line = words(alloc, &[given.verb, given.steps, "s", core])?;
    let status = run_top(alloc, &line, &mut files, &mut dest, &mut out);
    let last = handed_over(status, &mut dest);
    let is_written = fs::exists(rt, core)?;
    if is_written {
        fs::remove_file(rt, core)?;
    }
    Ok((status, last, is_written))
}

/// A line writes its core, which is handed over before this status. Where that fails, the status is 4.
fn expect_handed(
    rt: &impl Abort,
    host: &HostRuntime,
    given: &Given<'_>,
    status: Status,
) -> Result<(), Fail> {
    let handed = ended(host, given, None)?;
    assert_eq!(rt; handed, (status, status, true));
    let failed = ended(host, given, Some(ErrorKind::StorageFull))?;
    assert_eq!(rt; failed, (status, Status::WriteFault, true));
    Ok(())
}

/// `run` and `stop` of an empty script.
const RUN: Given<'static> = Given {
    verb: "run",
    steps: "0",
    script: EMPTY,
    core: None,
    failing: None,
    name: "run",
};

const STOP: Given<'static> = Given {
    verb: "stop",
    name: "stop",
    ..RUN
};

/// The core that a run left is handed over before each status that comes behind it.
#[test]
fn what_was_written_is_handed_over(rt: HostRuntime) -> Result<(), Fail> {
    let own = core_of(rt.alloc(), "0", EMPTY)?;
    let circular = with_word(rt.alloc(), &own, 316, 0x109b0)?;
    let other = with_word(rt.alloc(), &own, 43, 9)?;
    for (core, status) in [
        (own.as_slice(), Status::Success),
        (b"".as_slice(), Status::Core),
        (circular.as_slice(), Status::Damaged),
        (other.as_slice(), Status::Incompatible),
    ] {
        let core = Some(core);
        expect_handed(&rt, &rt, &Given { core, ..RUN }, status)?;
    }
    expect_handed(&rt, &rt, &RUN, Status::NoFile)?;
    let failing = Some((Call::Size, 2));
    expect_handed(&rt, &rt, &Given { failing, ..RUN }, Status::ReadFault)?;
    expect_handed(&rt, &rt, &STOP, Status::Success)
}

/// A line writes nothing, so nothing is handed over, and its status stays.
fn expect_unwritten(
    rt: &impl Abort,
    host: &HostRuntime,
    given: &Given<'_>,
    status: Status,
) -> Result<(), Fail> {
    let found = ended(host, given, Some(ErrorKind::StorageFull))?;
    assert_eq!(rt; found, (status, status, false));
    Ok(())
}

#[test]
fn what_was_not_written_is_not_handed_over(rt: HostRuntime) -> Result<(), Fail> {
    let none = Given {
        name: "none",
        ..RUN
    };
    let steps = "x";
    expect_unwritten(&rt, &rt, &Given { steps, ..none }, Status::Usage)?;
    let failing = Some((Call::Size, 1));
    expect_unwritten(&rt, &rt, &Given { failing, ..none }, Status::ReadFault)?;
    let script = "func\n";
    expect_unwritten(&rt, &rt, &Given { script, ..none }, Status::Script)
}
