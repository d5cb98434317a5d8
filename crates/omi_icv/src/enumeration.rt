//! The enumerations of states and of control variables. No word is read.

ghost use Rattle.std.specs.Prelude.{◌≡◌, Some, IsSome};
ghost use Rattle.omi_numbers.specs.Names.{name_in};
ghost use Rattle.omi_numbers.specs.States.{states};
ghost use Rattle.omi_icv.specs.Enumeration.{next_state, next_icv, named_state, named_icv};

use crate::variable::variable_scope;
use omi_calls::{Callbacks, ToHost};
use omi_numbers::{
    IDLE, OVERHEAD, THREAD_NUM_VAR, UNDEFINED_STATE, WAIT_BARRIER_EXPLICIT,
    WAIT_BARRIER_IMPLICIT_PARALLEL, WAIT_CRITICAL, WAIT_TASKGROUP, WAIT_TASKWAIT, WORK_PARALLEL,
    WORK_SERIAL, state_name, variable_name,
};
use omi_session::{Rc, Session};

/// A state with its name, and 1 where more follow.
fn state_entry(state: u32, more: u8) -> (u32, &'static str, u8)
    requires { IsSome (name_in states state) }
    ensures state { result.0 ≡ state }
    ensures name { Some result.1.now ≡ name_in states state }
    ensures more { result.2 ≡ more }
{
    match state_name(state) {
        Some(name) => (state, name, more),
        None => unreachable!(),
    }
}

/// The state behind another one in the order of their numbers, its name, and 1 where more follow, else 0. `UNDEFINED_STATE` is before the
/// first. BadInput of what is no state, and of the last.
pub fn enumerate_states<C: Callbacks, F: ToHost>(
    _s: &mut Session<C, F>,
    current: u32,
) -> Result<(u32, &'static str, u8), Rc>
    ensures next { named_state (λ name. name.now) result ≡ next_state current }
    ensures same { _s.new ≡ _s.old }
{
    match current {
        UNDEFINED_STATE => Ok(state_entry(WORK_SERIAL, 1)),
        WORK_SERIAL => Ok(state_entry(WORK_PARALLEL, 1)),
        WORK_PARALLEL => Ok(state_entry(WAIT_BARRIER_IMPLICIT_PARALLEL, 1)),
        WAIT_BARRIER_IMPLICIT_PARALLEL => Ok(state_entry(WAIT_BARRIER_EXPLICIT, 1)),
        WAIT_BARRIER_EXPLICIT => Ok(state_entry(WAIT_TASKWAIT, 1)),
        WAIT_TASKWAIT => Ok(state_entry(WAIT_TASKGROUP, 1)),
        WAIT_TASKGROUP => Ok(state_entry(WAIT_CRITICAL, 1)),
        WAIT_CRITICAL => Ok(state_entry(IDLE, 1)),
        IDLE => Ok(state_entry(OVERHEAD, 0)),
        _ => Err(Rc::BadInput),
    }
}

/// The control variable behind another one in the order of their numbers, its name, its scope, and 1 where more follow, else 0.
/// `UNDEFINED_VARIABLE` is before the first. BadInput of what is no variable, and of the last.
pub fn enumerate_icvs<C: Callbacks, F: ToHost>(
    _s: &mut Session<C, F>,
    current: u32,
) -> Result<(u32, &'static str, u32, u8), Rc>
    ensures next { named_icv (λ name. name.now) result ≡ next_icv current }
    ensures same { _s.new ≡ _s.old }
{
    if current >= THREAD_NUM_VAR {
        return Err(Rc::BadInput);
    }
    let next = current + 1;
    match (variable_name(next), variable_scope(next)) {
        (Some(name), Some(scope)) => Ok((
            next,
            name,
            scope.number(),
            u8::from(next < THREAD_NUM_VAR),
        )),
        _ => unreachable!(),
    }
}
