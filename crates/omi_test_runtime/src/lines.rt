//! The events of a run as lines.

use omi_core::Core;
use omi_model::Event;
use omi_text::event_text;
use omi_word::OutOfMemory;
use std::alloc::Global;

/// Whether the line of a thread's event begins so, behind its step and thread.
pub fn begins(alloc: Global, i: u8, e: &Event, text: &str) -> Result<bool, OutOfMemory> {
    let line = event_text(alloc, 0, i, e)?;
    let front = format!(in alloc; "0 t{i} {text}")?;
    Ok(line.starts_with(front.as_bytes()))
}

/// Whether a line is that of a thread's event, behind its step and thread.
fn is_line(alloc: Global, i: u8, e: &Event, text: &str) -> Result<bool, OutOfMemory> {
    let line = event_text(alloc, 0, i, e)?;
    let whole = format!(in alloc; "0 t{i} {text}\n")?;
    Ok(line.as_slice() == whole.as_bytes())
}

/// Whether the events of a thread are these lines, in order.
pub fn tells(alloc: Global, core: &Core, thread: u8, lines: &str) -> Result<bool, OutOfMemory> {
    let events = core.events();
    let mut wanted = lines.split(';');
    for at in 0..events.len() {
        let (_, i, e) = events.get(at);
        if i != thread {
            continue;
        }
        let line = wanted.next().unwrap_or("");
        if !is_line(alloc, i, &e, line.trim())? {
            return Ok(false);
        }
    }
    Ok(wanted.next().is_none())
}

/// The events of a thread whose line begins so: how many there are, and behind how many of all events the last one is.
pub fn found(
    alloc: Global,
    core: &Core,
    thread: u8,
    text: &str,
) -> Result<(usize, usize), OutOfMemory> {
    let events = core.events();
    let mut count = 0usize;
    let mut last = 0usize;
    for at in 0..events.len() {
        let (_, i, e) = events.get(at);
        if i == thread && begins(alloc, i, &e, text)? {
            count = count.wrapping_add(1);
            last = at;
        }
    }
    Ok((count, last))
}
