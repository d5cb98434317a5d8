//! Internal control variables: what it changes to set one.

ghost use Rattle.std.specs.Prelude.{◌≡◌, ◌<◌, Some, OnOk, OnErr, IfOk, ⊤};
ghost use Rattle.omi_script.specs.Schedules.{kind_in, chunk_in};
ghost use Rattle.omi_model.specs.Changes.{OfCurrent};
ghost use Rattle.omi_machine.specs.Kept.{state_of};
ghost use Rattle.omi_model.specs.Settings.{with_head, with_set, with_variable};

use crate::State;
use crate::slot_changes::{put_live, take_live};
use omi_model::{Task, Variables};
use omi_numbers::{
    CHUNK_PLACE, DEFAULT_DEVICE_VAR, DYN_VAR, MAX_ACTIVE_LEVELS_VAR, NTHREADS_VAR, RUN_SCHED_VAR,
};
use omi_script::limits::MAX_CHUNK;
use omi_script::{NumList, Sched};
use omi_word::OutOfMemory;
use std::alloc::{AllocError, Global};

/// A list with another head.
fn headed(alloc: Global, x: u64, list: &NumList) -> Result<NumList, OutOfMemory>
    ensures { IfOk result (λ new. new ≡ with_head x list.now) }
{
    let mut new = NumList::new(alloc);
    if list.len() > 0 {
        new.push(x)?;
    }
    for k in 1..list.len() {
        new.push(*list.get(k))?;
    }
    Ok(new)
}

/// A schedule of a word. A word whose chunk has no room is refused.
fn schedule_of(value: u64) -> Result<Sched, OutOfMemory>
    ensures { IfOk result (λ x. x ≡ record { kind = kind_in value; chunk = chunk_in value }) }
{
    if value / CHUNK_PLACE > u64::from(MAX_CHUNK) {
        return Err(AllocError);
    }
    Ok(Sched {
        kind: (value % CHUNK_PLACE) as u8,
        chunk: (value / CHUNK_PLACE) as u16,
    })
}

/// The data environment in which the variable of this number has this word. None where the number
/// is of no variable of a data environment.
fn changed(
    alloc: Global,
    icv: u32,
    value: u64,
    v: &Variables,
) -> Result<Option<Variables>, OutOfMemory>
    ensures { IfOk result (λ x. x ≡ with_variable icv value v.now) }
{
    let mut new = Variables {
        dynamic: v.dynamic,
        nthreads: v.nthreads.same(alloc)?,
        schedule: v.schedule,
        device: v.device,
    };
    if icv == DYN_VAR {
        new.dynamic = value != 0;
    } else if icv == NTHREADS_VAR {
        new.nthreads = headed(alloc, value, &v.nthreads)?;
    } else if icv == RUN_SCHED_VAR {
        new.schedule = schedule_of(value)?;
    } else if icv == DEFAULT_DEVICE_VAR {
        new.device = value;
    } else {
        return Ok(None);
    }
    Ok(Some(new))
}

/// A variable is set, by its number. Without room nothing changes.
pub(crate) fn set_variable(
    alloc: Global,
    s: &mut State,
    i: usize,
    icv: u32,
    value: u64,
) -> Result<(), OutOfMemory>
    requires known { i < (state_of s.old).count }
    requires current { OfCurrent (state_of s.old) i (λ k t. ⊤) }
    ensures done { OnOk result (with_set (state_of s.old) i icv value ≡ Some (state_of s.new)) }
    ensures refused { OnErr result (s.new ≡ s.old) }
{
    if icv == MAX_ACTIVE_LEVELS_VAR {
        s.max_active = value;
        return Ok(());
    }
    let Some((k, t)) = s.current(i) else {
        unreachable!();
    };
    let Some(variables) = changed(alloc, icv, value, &t.variables)? else {
        return Err(AllocError);
    };
    let Some(t) = take_live(alloc, &mut s.tasks, k.0) else {
        unreachable!();
    };
    put_live(alloc, &mut s.tasks, k.0, Task { variables, ..t });
    Ok(())
}
