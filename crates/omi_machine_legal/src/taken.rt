//! Which item of a thread's list an event takes.

ghost use Rattle.std.specs.Prelude.{◌≡◌};
ghost use Rattle.std.specs.Option.{option_map};
ghost use Rattle.omi_script.specs.declared.program.Program.{Program};
ghost use Rattle.omi_model.specs.Changes.{in_front};
ghost use Rattle.omi_model.specs.Lists.{take_item};

use omi_machine::{head_item, is_events_item, may_pass_over};
use omi_model::{Encounter, Event, Freeable, Item, ItemList};

/// The item that an event takes off a list, where the list allows the event.
fn taken_item(at: Encounter, e: &Event, list: &ItemList) -> Option<Item>
    ensures { (p : Program) → option_map (λ t. t.0) (take_item p at e.now list.now) ≡ result }
{
    for k in 0..list.len() {
        let x = *list.get(k);
        let head = head_item(at, x);
        if is_events_item(e, head) {
            return Some(head);
        }
        if !may_pass_over(x) {
            return None;
        }
    }
    None
}

/// The same of a list in front of which something may be given back.
pub fn taken_ahead(
    at: Encounter,
    e: &Event,
    frees: Option<Freeable>,
    list: &ItemList,
) -> Option<Item>
    ensures { (p : Program)
        → option_map (λ t. t.0) (take_item p at e.now (in_front frees list.now)) ≡ result }
{
    if let Some(next) = frees {
        let head = Item::Frees { next };
        if is_events_item(e, head) {
            return Some(head);
        }
        if !may_pass_over(head) {
            return None;
        }
    }
    taken_item(at, e, list)
}
