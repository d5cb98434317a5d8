//! What a line says, by its words alone.
ghost use Rattle.std.specs.Prelude.{◌≡◌, ◌<◌, length, option_map, IfOk};
ghost use Rattle.omi_script.specs.declared.line.SourceLine.TheVariants.{Head};
ghost use Rattle.omi_script.specs.Lines.{words};
ghost use Rattle.omi_script.specs.Line.{begins_comment, function_line, closing_line, line_by, line_of};

use crate::head_lines::{env, threads};
use crate::pieces::{Word, Words};
use crate::statement::Construct;
use crate::statement_lines::statement;
use crate::{NumList, OutOfMemory, Sched, Stmt};
use std::alloc::Global;

/// A head line, with its number where that lies in its range.
#[derive(Drop)]
pub enum HeadLine {
    /// `threads N`
    Threads(Option<u8>),
    /// `env num_threads A,B,..`
    NumThreads(Option<NumList>),
    /// `env dynamic true` or `env dynamic false`
    Dynamic(bool),
    /// `env max_active_levels N`
    MaxActive(Option<u8>),
    /// `env schedule KIND,CHUNK`
    Schedule(Option<Sched>),
    /// `env device N`
    Device(Option<u8>),
    /// `env debug enabled` or `env debug disabled`
    Debug(bool),
    /// `env procs N`
    Procs(Option<u16>),
}

/// What a line says by its words alone.
#[derive(Drop)]
pub enum SourceLine<'a> {
    /// No words, or a comment.
    Blank,
    Head(HeadLine),
    /// `func NAME`
    Function(Word<'a>),
    /// A statement over the function with a name. None where a number is not in its range.
    Construct(Word<'a>, Option<Construct>),
    /// A statement that names no function. None where a number is not in its range.
    StandAlone(Option<Stmt>),
    /// `end`
    End,
}

/// `func NAME`
fn function<'a>(words: &mut Words<'a>) -> Option<SourceLine<'a>>
    ensures { result ≡ function_line words.old }
{
    let name = words.next()?;
    match words.next() {
        None => Some(SourceLine::Function(Word::new(name))),
        Some(_) => None,
    }
}

/// `end`
fn end<'a>(words: &mut Words<'a>) -> Option<SourceLine<'a>>
    ensures { result ≡ closing_line words.old }
{
    match words.next() {
        None => Some(SourceLine::End),
        Some(_) => None,
    }
}

/// A head line as a line.
fn head<'a>(line: Option<HeadLine>) -> Option<SourceLine<'a>>
    ensures { result ≡ option_map Head line }
{
    match line {
        Some(line) => Some(SourceLine::Head(line)),
        None => None,
    }
}

/// What a line says that is no comment, by its first word and those behind it. None where it has
/// no shape.
fn line_by<'a>(
    alloc: Global,
    first: &[u8],
    words: &mut Words<'a>,
) -> Result<Option<SourceLine<'a>>, OutOfMemory>
    ensures { IfOk result (λ line. line ≡ line_by first.now words.old) }
{
    if first == b"threads".as_slice() {
        Ok(head(threads(words)))
    } else if first == b"env".as_slice() {
        Ok(head(env(alloc, words)?))
    } else if first == b"func".as_slice() {
        Ok(function(words))
    } else if first == b"end".as_slice() {
        Ok(end(words))
    } else {
        Ok(statement(first, words))
    }
}

fn begins_comment(first: &[u8]) -> bool
    requires { 0 < length first.now }
    ensures { result ≡ begins_comment first.now }
{
    first[0] == b'#'
}

/// What a line says. None where it has no shape.
pub fn line_of<'a>(alloc: Global, bytes: &'a [u8]) -> Result<Option<SourceLine<'a>>, OutOfMemory>
    ensures { IfOk result (λ line. line ≡ line_of (words bytes.now)) }
{
    let mut words = Words::new(bytes);
    match words.next() {
        Some(first) if !begins_comment(first) => line_by(alloc, first, &mut words),
        _ => Ok(Some(SourceLine::Blank)),
    }
}
