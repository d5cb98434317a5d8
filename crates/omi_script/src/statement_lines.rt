//! Statements: what each line says, by the words behind the first.
ghost use Rattle.std.specs.Prelude.{◌≡◌, ◌∷◌, []};
ghost use Rattle.omi_script.specs.StatementLines.{parallel_line, task_construct, task_construct_line, bare_line, critical_line, group_line, call_line, only_line, repeat_line, set_num_threads_line, set_dynamic_line, set_max_active_line, set_schedule_line, set_device_line, tool_line, set_line, statement_line};

use crate::Stmt;
use crate::head_lines::schedule;
use crate::limits::{MAX_DEVICE, MAX_LEVELS, MAX_LOCK, MAX_MEMBER, MAX_REPEATS, MAX_SIZE};
use crate::line::SourceLine;
use crate::numbers::{number, number_u8, number_u16};
use crate::pieces::{Word, Words};
use crate::statement::Construct;
use omi_numbers::kind_number;

/// `parallel F` or `parallel F num N`
fn parallel<'a>(words: &mut Words<'a>) -> Option<SourceLine<'a>>
    ensures { result ≡ parallel_line words.old }
{
    let f = words.next()?;
    let Some(word) = words.next() else {
        return Some(SourceLine::Construct(Word::new(f), Some(Construct::Parallel { num: None })));
    };
    let n = words.next()?;
    match words.next() {
        None if word == b"num".as_slice() => {
            let construct = number_u8(n, 1, MAX_SIZE).map(|n| Construct::Parallel { num: Some(n) });
            Some(SourceLine::Construct(Word::new(f), construct))
        }
        _ => None,
    }
}

/// A task over a function, with what stands behind `if` and behind `final`.
fn task_of(f: &[u8], deferred: Option<u8>, last: Option<u8>) -> SourceLine<'_>
    ensures { result ≡ task_construct f.now deferred last }
{
    match (deferred, last) {
        (Some(deferred), Some(last)) => SourceLine::Construct(
            Word::new(f),
            Some(Construct::Task {
                undeferred: deferred == 0,
                is_final: last == 1,
            }),
        ),
        _ => SourceLine::Construct(Word::new(f), None),
    }
}

/// `task F if B` or `task F final B`
fn task_with_one<'a>(f: &'a [u8], word: &[u8], b: &[u8]) -> Option<SourceLine<'a>>
    ensures { result ≡ task_construct_line (f.now ∷ word.now ∷ b.now ∷ []) }
{
    if word == b"if".as_slice() {
        Some(task_of(f, number_u8(b, 0, 1), Some(0)))
    } else if word == b"final".as_slice() {
        Some(task_of(f, Some(1), number_u8(b, 0, 1)))
    } else {
        None
    }
}

/// `task F if B final B`
fn task_with_both<'a>(
    f: &'a [u8],
    word: &[u8],
    b: &[u8],
    other: &[u8],
    c: &[u8],
) -> Option<SourceLine<'a>>
    ensures { result ≡ task_construct_line (f.now ∷ word.now ∷ b.now ∷ other.now ∷ c.now ∷ []) }
{
    if word == b"if".as_slice() && other == b"final".as_slice() {
        Some(task_of(f, number_u8(b, 0, 1), number_u8(c, 0, 1)))
    } else {
        None
    }
}

/// `task F`, then `if B` or nothing, then `final B` or nothing
fn task<'a>(words: &mut Words<'a>) -> Option<SourceLine<'a>>
    ensures { result ≡ task_construct_line words.old }
{
    let f = words.next()?;
    let Some(word) = words.next() else {
        return Some(task_of(f, Some(1), Some(0)));
    };
    let b = words.next()?;
    let Some(other) = words.next() else {
        return task_with_one(f, word, b);
    };
    let c = words.next()?;
    match words.next() {
        None => task_with_both(f, word, b, other, c),
        Some(_) => None,
    }
}

/// A statement of one word.
fn bare<'a>(statement: Stmt, words: &mut Words<'a>) -> Option<SourceLine<'a>>
    ensures { result ≡ bare_line statement words.old }
{
    match words.next() {
        None => Some(SourceLine::StandAlone(Some(statement))),
        Some(_) => None,
    }
}

/// `critical K F`
fn critical<'a>(words: &mut Words<'a>) -> Option<SourceLine<'a>>
    ensures { result ≡ critical_line words.old }
{
    let k = words.next()?;
    let f = words.next()?;
    match words.next() {
        None => {
            let construct = number_u8(k, 0, MAX_LOCK).map(|k| Construct::Critical { k });
            Some(SourceLine::Construct(Word::new(f), construct))
        }
        Some(_) => None,
    }
}

/// `taskgroup F`
fn group<'a>(words: &mut Words<'a>) -> Option<SourceLine<'a>>
    ensures { result ≡ group_line words.old }
{
    let f = words.next()?;
    match words.next() {
        None => Some(SourceLine::Construct(Word::new(f), Some(Construct::Taskgroup))),
        Some(_) => None,
    }
}

/// `call F`
fn call<'a>(words: &mut Words<'a>) -> Option<SourceLine<'a>>
    ensures { result ≡ call_line words.old }
{
    let f = words.next()?;
    match words.next() {
        None => Some(SourceLine::Construct(Word::new(f), Some(Construct::Call))),
        Some(_) => None,
    }
}

/// `only M F`
fn only<'a>(words: &mut Words<'a>) -> Option<SourceLine<'a>>
    ensures { result ≡ only_line words.old }
{
    let m = words.next()?;
    let f = words.next()?;
    match words.next() {
        None => {
            let construct = number_u8(m, 0, MAX_MEMBER).map(|m| Construct::Only { m });
            Some(SourceLine::Construct(Word::new(f), construct))
        }
        Some(_) => None,
    }
}

/// `repeat N F`
fn repeat<'a>(words: &mut Words<'a>) -> Option<SourceLine<'a>>
    ensures { result ≡ repeat_line words.old }
{
    let n = words.next()?;
    let f = words.next()?;
    match words.next() {
        None => {
            let construct = number_u16(n, 0, MAX_REPEATS).map(|n| Construct::Repeat { n });
            Some(SourceLine::Construct(Word::new(f), construct))
        }
        Some(_) => None,
    }
}

/// `set_num_threads N`
fn set_num_threads<'a>(words: &mut Words<'a>) -> Option<SourceLine<'a>>
    ensures { result ≡ set_num_threads_line words.old }
{
    let n = words.next()?;
    match words.next() {
        None => Some(SourceLine::StandAlone(number_u8(n, 1, MAX_SIZE).map(Stmt::SetNumThreads))),
        Some(_) => None,
    }
}

/// `set_dynamic B`
fn set_dynamic<'a>(words: &mut Words<'a>) -> Option<SourceLine<'a>>
    ensures { result ≡ set_dynamic_line words.old }
{
    let b = words.next()?;
    match words.next() {
        None => Some(SourceLine::StandAlone(number_u8(b, 0, 1).map(|n| Stmt::SetDynamic(n == 1)))),
        Some(_) => None,
    }
}

/// `set_max_active_levels N`
fn set_max_active<'a>(words: &mut Words<'a>) -> Option<SourceLine<'a>>
    ensures { result ≡ set_max_active_line words.old }
{
    let n = words.next()?;
    match words.next() {
        None => Some(SourceLine::StandAlone(number_u8(n, 0, MAX_LEVELS).map(Stmt::SetMaxActive))),
        Some(_) => None,
    }
}

/// `set_schedule KIND CHUNK`
fn set_schedule<'a>(words: &mut Words<'a>) -> Option<SourceLine<'a>>
    ensures { result ≡ set_schedule_line words.old }
{
    let kind = words.next()?;
    let chunk = words.next()?;
    match words.next() {
        None => {
            let kind = kind_number(kind)?;
            Some(SourceLine::StandAlone(schedule(kind, chunk).map(Stmt::SetSchedule)))
        }
        Some(_) => None,
    }
}

/// `set_default_device N`
fn set_device<'a>(words: &mut Words<'a>) -> Option<SourceLine<'a>>
    ensures { result ≡ set_device_line words.old }
{
    let n = words.next()?;
    match words.next() {
        None => Some(SourceLine::StandAlone(number_u8(n, 0, MAX_DEVICE).map(Stmt::SetDevice))),
        Some(_) => None,
    }
}

/// `tool X`
fn tool<'a>(words: &mut Words<'a>) -> Option<SourceLine<'a>>
    ensures { result ≡ tool_line words.old }
{
    let x = words.next()?;
    match words.next() {
        None => Some(SourceLine::StandAlone(number(x, 0, u64::MAX).map(Stmt::Tool))),
        Some(_) => None,
    }
}

/// A statement that sets an internal control variable or a task's word, by its first word.
fn set<'a>(first: &[u8], words: &mut Words<'a>) -> Option<SourceLine<'a>>
    ensures { result ≡ set_line first.now words.old }
{
    if first == b"set_num_threads".as_slice() {
        set_num_threads(words)
    } else if first == b"set_dynamic".as_slice() {
        set_dynamic(words)
    } else if first == b"set_max_active_levels".as_slice() {
        set_max_active(words)
    } else if first == b"set_schedule".as_slice() {
        set_schedule(words)
    } else if first == b"set_default_device".as_slice() {
        set_device(words)
    } else if first == b"tool".as_slice() {
        tool(words)
    } else {
        None
    }
}

/// A statement, by its first word and those behind it. None where it has no shape.
pub fn statement<'a>(first: &[u8], words: &mut Words<'a>) -> Option<SourceLine<'a>>
    ensures { result ≡ statement_line first.now words.old }
{
    if first == b"parallel".as_slice() {
        parallel(words)
    } else if first == b"task".as_slice() {
        task(words)
    } else if first == b"taskwait".as_slice() {
        bare(Stmt::Taskwait, words)
    } else if first == b"taskyield".as_slice() {
        bare(Stmt::Taskyield, words)
    } else if first == b"barrier".as_slice() {
        bare(Stmt::Barrier, words)
    } else if first == b"work".as_slice() {
        bare(Stmt::Work, words)
    } else if first == b"critical".as_slice() {
        critical(words)
    } else if first == b"taskgroup".as_slice() {
        group(words)
    } else if first == b"call".as_slice() {
        call(words)
    } else if first == b"only".as_slice() {
        only(words)
    } else if first == b"repeat".as_slice() {
        repeat(words)
    } else {
        set(first, words)
    }
}
