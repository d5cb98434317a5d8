//! Each call of files and of the output that a command makes, failing in turn, for each command.

use crate::calls::{BEFORE, Failing, NONE, OTHER, PIECE, call_of_two, front};
use omi_fixture_calls::{CHANGED, core_of};
use omi_fixture_done::Done;
use omi_fixture_rows::AN_EMPTY_RUN;
use omi_outside::{Call, Status};
use std::alloc::{AllocError, Global};
use std::process::Abort;
use std::test::Fail;

/// A command: its words, the files that it reads, in this order, and the name that it writes, if it writes one.
#[derive(Clone, Copy)]
struct Command<'a> {
    line: &'a [&'a str],
    reads: &'a [&'a str],
    written: Option<&'a str>,
}

const COMMANDS: [Command<'static>; 8] = [
    Command {
        line: &["stop", "1000", "s", "c"],
        reads: &["s"],
        written: Some("c"),
    },
    Command {
        line: &["run", "1000", "s", "c"],
        reads: &["s", "c"],
        written: Some("c"),
    },
    Command {
        line: &["make", "10", "m"],
        reads: &[],
        written: Some("m"),
    },
    Command {
        line: &["show", "c"],
        reads: &["c"],
        written: None,
    },
    Command {
        line: &["recode", "1", "c", "d"],
        reads: &["c"],
        written: Some("d"),
    },
    Command {
        line: &["elf", "c", "d"],
        reads: &["c"],
        written: Some("d"),
    },
    Command {
        line: &["audit", "c"],
        reads: &["c"],
        written: None,
    },
    Command {
        line: &["follow", "c", "d"],
        reads: &["c", "d"],
        written: None,
    },
];

/// What a command leaves over the list with a changed head, and a core twice.
fn made(
    alloc: Global,
    command: &Command<'_>,
    core: &[u8],
    failing: Failing<'_>,
) -> Result<Done, AllocError> {
    call_of_two(alloc, command.line, CHANGED, [core, core], failing)
}

/// What a name holds that a command writes, and nothing where it writes none.
fn left<'a>(done: &'a Done, command: &Command<'_>) -> &'a [u8] {
    match command.written {
        Some(name) => done.files.bytes(name).unwrap_or(b""),
        None => b"",
    }
}

/// What stood there before the command.
fn before(command: &Command<'_>) -> &'static [u8] {
    match command.written {
        Some(_) => BEFORE,
        None => b"",
    }
}

/// A name that no command is handed, and the names that this one doesn't write, hold what they did.
fn expect_others(rt: &impl Abort, done: &Done, command: &Command<'_>) {
    assert_eq!(rt; done.files.bytes("other"), Some(OTHER));
    for name in ["c", "d", "m"] {
        if command.written != Some(name) {
            assert_eq!(rt; done.files.bytes(name), Some(BEFORE), "{name}");
        }
    }
}

/// The verb of a command.
fn verb_of<'a>(command: &Command<'a>) -> &'a str {
    match command.line.first() {
        Some(verb) => *verb,
        None => "",
    }
}

/// What a failing call leaves: a status, what is put, and what the name holds that is written.
fn expect(
    rt: &impl Abort,
    done: &Done,
    command: &Command<'_>,
    status: Status,
    put: &[u8],
    held: &[u8],
) {
    let verb = verb_of(command);
    assert_eq!(rt; done.status, status, "{verb}");
    assert_eq!(rt; done.out.bytes(), put, "{verb}");
    assert_eq!(rt; left(done, command), held, "{verb}");
    expect_others(rt, done, command);
}

/// The line of a read of this file that failed.
fn fault_line(alloc: Global, name: &str) -> Result<String, AllocError> {
    format!(in alloc; "read fault {name}\n")
}

/// More reads than a command makes here.
const MANY: u64 = 100;

/// Each call of a kind on one file that is read, from this number on, fails, is told with the file's name, and leaves this. Answers the number of
/// the first call that is of no such file.
fn expect_reads_of(
    rt: &impl Abort,
    alloc: Global,
    command: &Command<'_>,
    core: &[u8],
    kind: Call,
    from: u64,
    name: &str,
    held: &[u8],
) -> Result<u64, AllocError> {
    let line = fault_line(alloc, name)?;
    for number in from..MANY {
        let reads = [(kind, number)];
        let failing = Failing {
            reads: &reads,
            ..NONE
        };
        let done = made(alloc, command, core, failing)?;
        if done.out.bytes() != line.as_bytes() {
            return Ok(number);
        }
        expect(rt, &done, command, Status::ReadFault, line.as_bytes(), held);
    }
    Ok(MANY)
}

/// A command makes some calls of a kind on a file, and of its size one, or two where it asks of a core first whether it is an ELF file.
fn expect_count(rt: &impl Abort, kind: Call, count: u64) {
    assert!(rt; 0 < count && count < MANY);
    if kind == Call::Size {
        assert!(rt; count <= 2, "{count}");
    }
}

/// What a name holds where the read of the file of this number fails: behind the first one, what the command wrote.
fn held_at<'a>(whole: &'a Done, command: &Command<'_>, at: usize) -> &'a [u8] {
    if at == 0 {
        before(command)
    } else {
        left(whole, command)
    }
}

/// Each call of a kind on each file that a command reads fails in turn. Answers the number behind them.
fn expect_files(
    rt: &impl Abort,
    alloc: Global,
    command: &Command<'_>,
    core: &[u8],
    kind: Call,
    whole: &Done,
) -> Result<u64, AllocError> {
    let mut next = 1;
    for at in 0..command.reads.len() {
        let first = next;
        let held = held_at(whole, command, at);
        let name = command.reads[at];
        next = expect_reads_of(rt, alloc, command, core, kind, first, name, held)?;
        expect_count(rt, kind, next.wrapping_sub(first));
    }
    Ok(next)
}

/// Behind the calls of a kind that fail in turn, a command makes none.
fn expect_reads(
    rt: &impl Abort,
    alloc: Global,
    command: &Command<'_>,
    core: &[u8],
    kind: Call,
) -> Result<(), AllocError> {
    let whole = made(alloc, command, core, NONE)?;
    assert_eq!(rt; whole.status, Status::Success);
    let next = expect_files(rt, alloc, command, core, kind, &whole)?;
    let reads = [(kind, next)];
    let failing = Failing {
        reads: &reads,
        ..NONE
    };
    let done = made(alloc, command, core, failing)?;
    let text = whole.out.bytes();
    expect(
        rt,
        &done,
        command,
        Status::Success,
        text,
        left(&whole, command),
    );
    Ok(())
}

/// Where a read fails, the command says of which file, and puts nothing else. It has written nothing, or, where it reads back what it wrote, all.
#[test]
fn each_read(rt: HostRuntime) -> Result<(), Fail> {
    let alloc = rt.alloc();
    let core = core_of(alloc, "0", AN_EMPTY_RUN)?;
    for command in &COMMANDS {
        expect_reads(&rt, alloc, command, &core, Call::Size)?;
        expect_reads(&rt, alloc, command, &core, Call::ReadAt)?;
    }
    Ok(())
}

/// A read that fails is the status also where its line can't be put.
#[test]
fn each_read_without_its_line(rt: HostRuntime) -> Result<(), Fail> {
    let alloc = rt.alloc();
    let core = core_of(alloc, "0", AN_EMPTY_RUN)?;
    let failing = Failing {
        reads: &[(Call::Size, 1)],
        puts: &[1],
        ..NONE
    };
    for command in &COMMANDS {
        if !command.reads.is_empty() {
            let done = made(alloc, command, &core, failing)?;
            let held = before(command);
            expect(&rt, &done, command, Status::ReadFault, b"", held);
        }
    }
    Ok(())
}

/// Each piece of the file that a command writes can't be added, in turn: those before it stay, and nothing is put. There are no more calls.
fn expect_writes(
    rt: &impl Abort,
    alloc: Global,
    command: &Command<'_>,
    core: &[u8],
) -> Result<(), AllocError> {
    let whole = made(alloc, command, core, NONE)?;
    assert_eq!(rt; whole.status, Status::Success);
    let bytes = left(&whole, command);
    let pieces = bytes.len().div_ceil(PIECE);
    assert_eq!(rt; pieces > 0, command.written.is_some());
    for number in 0..pieces {
        let writes = [(Call::Append, number as u64 + 1)];
        let failing = Failing {
            writes: &writes,
            ..NONE
        };
        let done = made(alloc, command, core, failing)?;
        let held = front(bytes, PIECE.wrapping_mul(number));
        expect(rt, &done, command, Status::WriteFault, b"", held);
    }
    let writes = [
        (Call::Append, (pieces as u64).wrapping_add(1)),
        (Call::Create, 2),
    ];
    let failing = Failing {
        writes: &writes,
        ..NONE
    };
    let done = made(alloc, command, core, failing)?;
    expect(
        rt,
        &done,
        command,
        Status::Success,
        whole.out.bytes(),
        bytes,
    );
    Ok(())
}

#[test]
fn each_append(rt: HostRuntime) -> Result<(), Fail> {
    let alloc = rt.alloc();
    let core = core_of(alloc, "0", AN_EMPTY_RUN)?;
    for command in &COMMANDS {
        expect_writes(&rt, alloc, command, &core)?;
    }
    Ok(())
}

/// A file that can't be made stays as it was. A command that makes none meets no fault.
#[test]
fn each_creation(rt: HostRuntime) -> Result<(), Fail> {
    let alloc = rt.alloc();
    let core = core_of(alloc, "0", AN_EMPTY_RUN)?;
    let failing = Failing {
        writes: &[(Call::Create, 1)],
        ..NONE
    };
    for command in &COMMANDS {
        let done = made(alloc, command, &core, failing)?;
        match command.written {
            Some(_) => expect(&rt, &done, command, Status::WriteFault, b"", BEFORE),
            None => {
                assert_eq!(&rt; done.status, Status::Success);
            }
        }
    }
    Ok(())
}

/// Each piece of what a command prints can't be put, in turn: those before it stay, and what is written is whole.
fn expect_puts(
    rt: &impl Abort,
    alloc: Global,
    command: &Command<'_>,
    core: &[u8],
) -> Result<(), AllocError> {
    let whole = made(alloc, command, core, NONE)?;
    assert_eq!(rt; whole.status, Status::Success);
    let text = whole.out.bytes();
    let held = left(&whole, command);
    let pieces = text.len().div_ceil(PIECE);
    assert!(rt; pieces > 0, "{}", verb_of(command));
    for number in 0..pieces {
        let puts = [number as u64 + 1];
        let failing = Failing {
            puts: &puts,
            ..NONE
        };
        let done = made(alloc, command, core, failing)?;
        let put = front(text, PIECE.wrapping_mul(number));
        expect(rt, &done, command, Status::WriteFault, put, held);
    }
    let puts = [(pieces as u64).wrapping_add(1)];
    let failing = Failing {
        puts: &puts,
        ..NONE
    };
    let done = made(alloc, command, core, failing)?;
    expect(rt, &done, command, Status::Success, text, held);
    Ok(())
}

#[test]
fn each_put(rt: HostRuntime) -> Result<(), Fail> {
    let alloc = rt.alloc();
    let core = core_of(alloc, "0", AN_EMPTY_RUN)?;
    for command in &COMMANDS {
        expect_puts(&rt, alloc, command, &core)?;
    }
    Ok(())
}
