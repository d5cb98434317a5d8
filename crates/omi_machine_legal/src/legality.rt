//! Whether an event of a thread is legal.

ghost use Rattle.std.specs.Prelude.{◌≡◌, ◌↔◌, ◌<◌, true};
ghost use Rattle.std.specs.Option.{option_map};
ghost use Rattle.omi_script.specs.declared.program.Program.{Program};
ghost use Rattle.omi_machine.specs.Kept.{state_of};
ghost use Rattle.omi_model.specs.Rules.{Legal, taken_by};

use crate::rule::rule_holds;
use crate::taken::taken_ahead;
use omi_machine::State;
use omi_model::{Event, Item};
use omi_script::Program;

/// The item that an event of a thread takes off what the thread may go on with.
fn events_item(s: &State, i: usize, e: &Event) -> Option<Item>
    requires { i < (state_of s.now).count }
    ensures { (p : Program)
        → option_map (λ t. t.0) (taken_by p (state_of s.now) i e.now) ≡ result }
{
    let (frees, list) = s.ahead_of(i);
    taken_ahead(s.encounter(i), e, frees, list)
}

/// Whether an event of a thread is legal in a state of a program: the thread is one of the program's, its to-do list allows
/// the event, and the event's rule holds. Which item an event takes does not depend on the program.
pub fn legal(p: &Program, s: &State, thread: u8, e: &Event) -> bool
    ensures { (result ≡ true) ↔ Legal p.now (state_of s.now) thread e.now }
{
    let i = thread as usize;
    if i >= s.count() {
        return false;
    }
    match events_item(s, i, e) {
        Some(x) => rule_holds(s, i, e, x),
        None => false,
    }
}
