//! The state after an event.

ghost use Rattle.std.specs.Prelude.{◌≡◌, Some, OnOk, OnErr};
ghost use Rattle.omi_machine.specs.Kept.{state_of};
ghost use Rattle.omi_model.specs.Rules.{Legal, after};

use crate::State;
use crate::effects::take_effect;
use crate::list_changes::exchange_ahead;
use crate::moved_list::moved_ahead;
use omi_model::Event;
use omi_script::Program;
use omi_word::OutOfMemory;
use std::alloc::Global;

/// Makes the state after an event of a thread that is legal. First the list moves on, and then the event has its effect.
/// Without room for either, what is kept means the same state as before.
pub fn after(
    alloc: Global,
    p: &Program,
    s: &mut State,
    thread: u8,
    e: &Event,
) -> Result<(), OutOfMemory>
    requires { Legal p.now (state_of s.old) thread e.now }
    ensures done { OnOk result (after p.now (state_of s.old) thread e.now
        ≡ Some (state_of s.new)) }
    ensures refused { OnErr result (state_of s.new ≡ state_of s.old) }
{
    let i = thread as usize;
    let (frees, list) = s.ahead_of(i);
    let moved = moved_ahead(alloc, p, s.encounter(i), e, frees, list)?;
    let Some((x, list)) = moved else {
        unreachable!();
    };
    let (old_frees, old) = exchange_ahead(alloc, s, i, None, list);
    match take_effect(alloc, p, s, thread, e, x) {
        Ok(()) => Ok(()),
        Err(refused) => {
            exchange_ahead(alloc, s, i, old_frees, old);
            Err(refused)
        }
    }
}
