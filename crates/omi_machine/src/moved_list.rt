//! What stands in a to-do list once an event took its item off.

ghost use Rattle.std.specs.Prelude.{◌≡◌, ◌<◌, ◌+◌, ◌∷◌, IfOk, OnOk, true};
ghost use Rattle.std.specs.Option.{option_map};
ghost use Rattle.omi_numbers.specs.declared.limits.TheConstants.{OWN_SLOTS};
ghost use Rattle.omi_model.specs.Changes.{in_front};
ghost use Rattle.omi_model.specs.Lists.{fits, opened, stays, take_item};

use crate::first_lists::push_shown;
use crate::looking::{head_item, is_events_item, may_pass_over};
use crate::statement_rows::push_behind;
use omi_model::{Encounter, Event, Freeable, Item, ItemList};
use omi_numbers::IDLE;
use omi_script::Program;
use omi_word::OutOfMemory;
use std::alloc::Global;

/// Puts a place for deferred tasks that was seen taken in front: the next one is looked at.
fn push_next_place(list: &mut ItemList, seen: u8, f: u8, is_final: bool) -> Result<(), OutOfMemory>
    requires { seen < OWN_SLOTS }
    ensures { OnOk result (list.new ≡ Item.Defer (seen + 1) f is_final ∷ list.old) }
{
    let seen = seen + 1;
    list.push_front(Item::Defer { seen, f, is_final })
}

/// Puts what stays of an event's item in front.
fn push_staying(list: &mut ItemList, at: Encounter, e: &Event, x: Item) -> Result<(), OutOfMemory>
    requires { fits e.now x ≡ true }
    ensures { OnOk result (list.new ≡ stays at e.now x list.old) }
{
    match (x, e) {
        (Item::Asks, _) => list.push_front(Item::Asks),
        (Item::Serve, _) => {
            list.push_front(Item::Serve)?;
            list.push_front(Item::Offer)?;
            push_shown(list, at, IDLE, 0)
        }
        (Item::Tasks { state }, _) => {
            list.push_front(Item::Tasks { state })?;
            push_shown(list, at, state, 0)
        }
        (Item::Defer { seen, f, is_final }, Event::Seen { .. }) => push_next_place(
            list, seen, f, is_final,
        ),
        _ => Ok(()),
    }
}

/// Puts what stands behind an item in front, once a statement is replaced by its row.
fn push_opened(list: &mut ItemList, p: &Program, at: Encounter, x: Item) -> Result<(), OutOfMemory>
    ensures { OnOk result (list.new ≡ (opened p.now at x list.old).1) }
{
    match x {
        Item::Do(s) => push_behind(list, p, at, s),
        _ => Ok(()),
    }
}

/// The item that an event takes off a list, with the list afterwards. None where the list doesn't allow the event.
fn moved_list(
    alloc: Global,
    p: &Program,
    at: Encounter,
    e: &Event,
    list: &ItemList,
) -> Result<Option<(Item, ItemList)>, OutOfMemory>
    ensures { IfOk result (λ moved. moved ≡ option_map (λ x. (x.0, stays at e.now x.0 x.1))
        (take_item p.now at e.now list.now)) }
{
    for k in 0..list.len() {
        let x = *list.get(k);
        let head = head_item(at, x);
        if is_events_item(e, head) {
            let mut rest = list.from_place(alloc, k + 1)?;
            push_opened(&mut rest, p, at, x)?;
            push_staying(&mut rest, at, e, head)?;
            return Ok(Some((head, rest)));
        }
        if !may_pass_over(x) {
            return Ok(None);
        }
    }
    Ok(None)
}

/// The same of a list in front of which something may be given back.
pub(crate) fn moved_ahead(
    alloc: Global,
    p: &Program,
    at: Encounter,
    e: &Event,
    frees: Option<Freeable>,
    list: &ItemList,
) -> Result<Option<(Item, ItemList)>, OutOfMemory>
    ensures { IfOk result (λ moved. moved ≡ option_map (λ x. (x.0, stays at e.now x.0 x.1))
        (take_item p.now at e.now (in_front frees list.now))) }
{
    if let Some(next) = frees {
        let head = Item::Frees { next };
        if is_events_item(e, head) {
            return Ok(Some((head, list.from_place(alloc, 0)?)));
        }
        if !may_pass_over(head) {
            return Ok(None);
        }
    }
    moved_list(alloc, p, at, e, list)
}
