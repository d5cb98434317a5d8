//! The contexts of a report: native ids, and the threads that have them.

ghost use Rattle.std.specs.Prelude.{◌≡◌, ◌<◌, ℕ, Contains, IfOk, map};
ghost use Rattle.std.specs.List.{filter_map};
ghost use Rattle.omi_model.specs.Views.{head_row, thread_part, thread_row, thread_with};
ghost use Rattle.omi_machine.specs.Kept.{state_of};

use omi_machine::State;
use omi_model::{HeadRow, Rows, ThreadPart, ThreadRow, ThreadRows};
use omi_numbers::{FIRST_NATIVE, OPENMP_VERSION};
use omi_word::{Natives, OutOfMemory};
use std::alloc::{AllocError, Global};

/// The thread with a native id, where it has begun.
fn thread_with(s: &State, native: u64) -> Option<usize>
    ensures { result ≡ thread_with (state_of s.now) native }
{
    if native < FIRST_NATIVE {
        return None;
    }
    let i = (native - FIRST_NATIVE) as usize;
    if i < s.count() && s.thread(i).begun {
        Some(i)
    } else {
        None
    }
}

/// A number of threads, or of one, as a report has it. A state of more threads than its type has is none that a program
/// has, and is answered by want of memory.
fn narrow(n: usize) -> Result<u8, OutOfMemory>
    ensures { IfOk result (λ x. x ≡ n) }
{
    u8::try_from(n).map_err(|_| AllocError)
}

/// The header.
pub fn head_row(s: &State) -> Result<HeadRow, OutOfMemory>
    ensures { IfOk result (λ row. row ≡ head_row (state_of s.now)) }
{
    let environment = s.environment();
    Ok(HeadRow {
        version: OPENMP_VERSION,
        threads: narrow(s.count())?,
        debug: environment.debug as u64,
        procs: environment.procs as u64,
        max_active: s.max_active(),
    })
}

/// A thread that has begun, as a report has it.
fn thread_part(s: &State, i: usize) -> Result<ThreadPart, OutOfMemory>
    requires { i < (state_of s.now).count }
    ensures { IfOk result (λ part. part ≡ thread_part (state_of s.now) i) }
{
    let thread = s.thread(i);
    let state = if s.environment().debug {
        Some((thread.state, thread.wait))
    } else {
        None
    };
    let number = match s.current_task(i) {
        Some(t) => Some(t.number),
        None => None,
    };
    Ok(ThreadPart {
        thread: narrow(i)?,
        state,
        number,
        current: thread.current,
    })
}

/// The row of a context.
fn thread_row(s: &State, native: u64) -> Result<ThreadRow, OutOfMemory>
    ensures { IfOk result (λ row. row ≡ thread_row (state_of s.now) native) }
{
    let found = match thread_with(s, native) {
        Some(i) => Some(thread_part(s, i)?),
        None => None,
    };
    Ok(ThreadRow { native, found })
}

/// The rows of all contexts.
pub fn thread_rows(alloc: Global, s: &State, contexts: &Natives) -> Result<ThreadRows, OutOfMemory>
    ensures { IfOk result (λ rows. rows ≡ map (thread_row (state_of s.now)) contexts.now) }
{
    let mut rows = ThreadRows::new(alloc);
    for at in 0..contexts.len() {
        rows.push(thread_row(s, *contexts.get(at))?)?;
    }
    Ok(rows)
}

/// The threads of all contexts that have one.
pub fn threads_with(alloc: Global, s: &State, contexts: &Natives) -> Result<Rows<u8>, OutOfMemory>
    ensures { IfOk result (λ threads. threads
        ≡ filter_map (thread_with (state_of s.now)) contexts.now) }
{
    let mut threads = Rows::new(alloc);
    for at in 0..contexts.len() {
        if let Some(i) = thread_with(s, *contexts.get(at)) {
            threads.push(narrow(i)?)?;
        }
    }
    Ok(threads)
}
