//! The order of calls over the two objects of the top call, which no clause sees.

use crate::watched::{Log, Noted, Object, Watched};
use omi_fixture_calls::core_of;
use omi_fixture_done::words;
use omi_fixture_rows::A_TEAM_OF_TWO;
use omi_outside::{Call, MemFiles, MemSink, Status};
use omi_top::run_top;
use std::alloc::{AllocError, Global};
use std::process::Abort;
use std::test::Fail;

/// The calls that read or write a name of an object.
#[derive(Clone, Copy)]
struct Those<'a> {
    object: Object,
    writing: bool,
    name: &'a str,
}

fn is_writing(call: Call) -> bool {
    matches!(call, Call::Create | Call::Append)
}

impl<'a> Those<'a> {
    fn reading(name: &'a str) -> Those<'a> {
        Those {
            object: Object::Source,
            writing: false,
            name,
        }
    }

    fn writing(name: &'a str) -> Those<'a> {
        Those {
            object: Object::Dest,
            writing: true,
            name,
        }
    }

    fn has(&self, noted: &Noted) -> bool {
        noted.object == self.object
            && is_writing(noted.call) == self.writing
            && noted.name.as_str() == self.name
    }
}

/// Whether calls of both sorts are there, and each of the one stands before each of the other.
fn are_before(calls: &[Noted], one: Those<'_>, other: Those<'_>) -> bool {
    let mut is_one_there = false;
    let mut is_other_there = false;
    for noted in calls {
        if one.has(noted) {
            if is_other_there {
                return false;
            }
            is_one_there = true;
        }
        if other.has(noted) {
            is_other_there = true;
        }
    }
    is_one_there && is_other_there
}

/// Whether each `read_at` has a `size` before it, of which the last on the same object is of the same name.
fn are_reads_of_sized(calls: &[Noted], object: Object) -> bool {
    let mut sized: Option<&str> = None;
    for noted in calls {
        if noted.object != object {
            continue;
        }
        match noted.call {
            Call::Size => sized = Some(noted.name.as_str()),
            Call::ReadAt => match sized {
                Some(name) => {
                    if name != noted.name.as_str() {
                        return false;
                    }
                }
                None => return false,
            },
            Call::Create | Call::Append => {}
        }
    }
    true
}

/// Whether one object is only read, and the other only written.
fn are_apart(calls: &[Noted]) -> bool {
    for noted in calls {
        if is_writing(noted.call) != (noted.object == Object::Dest) {
            return false;
        }
    }
    true
}

/// The team of two behind lines of comments, so that its text is read in two pieces.
fn long_script(alloc: Global) -> Result<String, AllocError> {
    let mut script = String::new(alloc);
    for _ in 0..100u8 {
        script.push_str("# One of a hundred lines of comments, which are read and passed over.\n")?;
    }
    script.push_str(A_TEAM_OF_TWO)?;
    Ok(script)
}

/// A line over the team of two under `s` and its core under `c`. Its calls go into the log.
fn run_over(alloc: Global, line: &[&str], log: &Log) -> Result<Status, Fail> {
    let mut source = MemFiles::new(alloc, Vec::new(alloc));
    source.put("s", long_script(alloc)?.as_bytes())?;
    source.put("c", &core_of(alloc, "197", A_TEAM_OF_TWO)?)?;
    let mut files = Watched {
        files: source,
        object: Object::Source,
        log,
    };
    let mut dest = Watched {
        files: MemFiles::new(alloc, Vec::new(alloc)),
        object: Object::Dest,
        log,
    };
    let mut out = MemSink::new(alloc, Vec::new(alloc));
    let line = words(alloc, line)?;
    Ok(run_top(alloc, &line, &mut files, &mut dest, &mut out))
}

/// The calls that a line makes, which succeeds. There are some.
fn calls_of(rt: &impl Abort, alloc: Global, line: &[&str]) -> Result<Vec<Noted>, Fail> {
    let log = Log::new(alloc);
    let status = run_over(alloc, line, &log)?;
    assert_eq!(rt; status, Status::Success);
    let calls = log.calls().ok_or("a call is missing")?;
    assert!(rt; !calls.is_empty());
    Ok(calls)
}

/// `run` reads the core back behind its last write, and so reads what it wrote where both objects are one disk.
#[test]
fn the_core_is_written_before_it_is_read_back(rt: HostRuntime) -> Result<(), Fail> {
    let calls = calls_of(&rt, rt.alloc(), &["run", "197", "s", "c"])?;
    assert!(rt; are_before(&calls, Those::writing("c"), Those::reading("c")));
    Ok(())
}

/// The script is read whole before the core is created, which would destroy a script of the same name.
#[test]
fn the_script_is_read_before_the_core_is_written(rt: HostRuntime) -> Result<(), Fail> {
    for (verb, core) in [("stop", "c"), ("run", "c"), ("stop", "s")] {
        let calls = calls_of(&rt, rt.alloc(), &[verb, "197", "s", core])?;
        let (reads, writes) = (Those::reading("s"), Those::writing(core));
        assert!(rt; are_before(&calls, reads, writes), "{verb} {core}");
    }
    Ok(())
}

/// Each verb reads a file only behind its own `size`, as real files want it; and it reads one object alone, and writes the other alone.
#[test]
fn each_verb_sizes_what_it_reads(rt: HostRuntime) -> Result<(), Fail> {
    for line in [
        ["stop", "197", "s", "c"].as_slice(),
        ["run", "197", "s", "c"].as_slice(),
        ["make", "10", "m"].as_slice(),
        ["show", "c"].as_slice(),
    ] {
        let calls = calls_of(&rt, rt.alloc(), line)?;
        let verb = line[0];
        assert!(rt; are_reads_of_sized(&calls, Object::Source), "{verb}");
        assert!(rt; are_apart(&calls), "{verb}");
    }
    Ok(())
}

/// A read of `a` behind a `size` of `b` is found where both are of one object, and so is a read behind no `size`.
#[test]
fn a_read_behind_another_size_is_found(rt: HostRuntime) -> Result<(), Fail> {
    for (object, name, is_right) in [
        (Object::Dest, "b", true),
        (Object::Source, "a", true),
        (Object::Source, "b", false),
    ] {
        let log = Log::new(rt.alloc());
        log.note(Object::Source, Call::Size, "a");
        log.note(object, Call::Size, name);
        log.note(Object::Source, Call::ReadAt, "a");
        let calls = log.calls().ok_or("a call is missing")?;
        assert_eq!(rt;
            are_reads_of_sized(&calls, Object::Source),
            is_right,
            "{name}"
        );
    }
    let log = Log::new(rt.alloc());
    log.note(Object::Source, Call::ReadAt, "a");
    let calls = log.calls().ok_or("a call is missing")?;
    assert!(rt; !are_reads_of_sized(&calls, Object::Source));
    Ok(())
}
