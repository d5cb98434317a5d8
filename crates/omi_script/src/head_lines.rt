//! Head lines: what each sets, by the words behind the first.
ghost use Rattle.std.specs.Prelude.{◌≡◌, option_map, IfOk};
ghost use Rattle.std.specs.List.{slice_split};
ghost use Rattle.omi_script.specs.Numbers.{is_comma, number_of};
ghost use Rattle.omi_script.specs.HeadLines.{threads_line, has_empty_piece, is_first_of, num_threads_line, kind_and_chunk, setting_line, env_line};

use crate::limits::{MAX_CHUNK, MAX_DEVICE, MAX_LEVELS, MAX_PROCS, MAX_THREADS};
use crate::line::HeadLine;
use crate::number_list::sizes;
use crate::numbers::{number_u8, number_u16};
use crate::pieces::{Words, cut_item};
use crate::{OutOfMemory, Sched};
use omi_numbers::kind_number;
use std::alloc::Global;

/// `threads N`
pub fn threads(words: &mut Words) -> Option<HeadLine>
    ensures { result ≡ threads_line words.old }
{
    let n = words.next()?;
    match words.next() {
        None => Some(HeadLine::Threads(number_u8(n, 1, MAX_THREADS))),
        Some(_) => None,
    }
}

/// Whether a word is the first of two words. None where it is neither.
fn is_first_of(first: &[u8], second: &[u8], word: &[u8]) -> Option<bool>
    ensures { result ≡ is_first_of first.now second.now word.now }
{
    if word == first {
        Some(true)
    } else if word == second {
        Some(false)
    } else {
        None
    }
}

/// Whether a piece between commas is empty.
fn has_empty_piece(word: &[u8]) -> bool
    ensures { result ≡ has_empty_piece word.now }
{
    word.split(|b| *b == b',').any(|piece| piece.is_empty())
}

/// `env num_threads A,B,..`
fn num_threads(alloc: Global, word: &[u8]) -> Result<Option<HeadLine>, OutOfMemory>
    ensures { IfOk result (λ line. line ≡ num_threads_line word.now) }
{
    if has_empty_piece(word) {
        return Ok(None);
    }
    Ok(Some(HeadLine::NumThreads(sizes(alloc, word)?)))
}

/// A schedule, where the chunk is in its range.
pub fn schedule(kind: u8, chunk: &[u8]) -> Option<Sched>
    ensures { result
        ≡ option_map (λ n. record { kind = kind; chunk = n }) (number_of 0 MAX_CHUNK chunk.now) }
{
    number_u16(chunk, 0, MAX_CHUNK).map(|chunk| Sched { kind, chunk })
}

/// `env schedule KIND,CHUNK`
#[tactic(auto, using(crate::proofs::PairLemmas::pair_more))]
fn pair(word: &[u8]) -> Option<HeadLine>
    ensures { result ≡ kind_and_chunk (slice_split is_comma word.now) }
{
    let (kind, Some(rest)) = cut_item(word) else {
        return None;
    };
    let (chunk, None) = cut_item(rest) else {
        return None;
    };
    if chunk.is_empty() {
        return None;
    }
    Some(HeadLine::Schedule(schedule(kind_number(kind)?, chunk)))
}

/// `env NAME VALUE`, by the name.
fn setting(alloc: Global, name: &[u8], value: &[u8]) -> Result<Option<HeadLine>, OutOfMemory>
    ensures { IfOk result (λ line. line ≡ setting_line name.now value.now) }
{
    if name == b"num_threads".as_slice() {
        num_threads(alloc, value)
    } else if name == b"dynamic".as_slice() {
        Ok(is_first_of(b"true", b"false", value).map(HeadLine::Dynamic))
    } else if name == b"max_active_levels".as_slice() {
        Ok(Some(HeadLine::MaxActive(number_u8(value, 0, MAX_LEVELS))))
    } else if name == b"schedule".as_slice() {
        Ok(pair(value))
    } else if name == b"device".as_slice() {
        Ok(Some(HeadLine::Device(number_u8(value, 0, MAX_DEVICE))))
    } else if name == b"debug".as_slice() {
        Ok(is_first_of(b"enabled", b"disabled", value).map(HeadLine::Debug))
    } else if name == b"procs".as_slice() {
        Ok(Some(HeadLine::Procs(number_u16(value, 1, MAX_PROCS))))
    } else {
        Ok(None)
    }
}

/// `env NAME VALUE`
pub fn env(alloc: Global, words: &mut Words) -> Result<Option<HeadLine>, OutOfMemory>
    ensures { IfOk result (λ line. line ≡ env_line words.old) }
{
    let Some(name) = words.next() else {
        return Ok(None);
    };
    let Some(value) = words.next() else {
        return Ok(None);
    };
    match words.next() {
        None => setting(alloc, name, value),
        Some(_) => Ok(None),
    }
}
