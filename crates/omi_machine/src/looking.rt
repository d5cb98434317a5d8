//! Looking for the item of an event at the front of a to-do list.

ghost use Rattle.std.specs.Prelude.{◌≡◌, List};
ghost use Rattle.omi_model.specs.declared.item.Item.{Item};
ghost use Rattle.omi_script.specs.declared.program.Program.{Program};
ghost use Rattle.omi_model.specs.Lists.{fits, may_drop, opened};
ghost use Rattle.omi_model.specs.Rows.{first_of};

use omi_model::{Encounter, Event, Freeable, Item, Shape};
use omi_numbers::OWN_SLOTS;
use omi_script::Stmt;

/// The first item of a statement's row.
pub fn first_item(at: Encounter, s: Stmt) -> Item
    ensures { result ≡ first_of at s }
{
    match Shape::of(&s) {
        Shape::Parallel { .. }
        | Shape::Task { .. }
        | Shape::Taskwait
        | Shape::Taskyield
        | Shape::Barrier
        | Shape::Critical { .. } => Item::Enter,
        Shape::Taskgroup { .. } => Item::GroupBegin,
        Shape::Call { f } => Item::Call { f },
        Shape::Only { m, f } => {
            if at.number == m as u64 {
                Item::Call { f }
            } else {
                Item::Skip
            }
        }
        Shape::Repeat { n, f } => { if n == 0 { Item::Skip } else { Item::Call { f } } }
        Shape::Sets { variable, word } => Item::Set {
            icv: variable,
            value: word,
        },
        Shape::Tool(x) => Item::SetTool { x },
        Shape::Work => Item::Work,
    }
}

/// The head of a list, once a statement is replaced by its row.
pub fn head_item(at: Encounter, x: Item) -> Item
    ensures { (p : Program) (rest : List Item) → (opened p at x rest).0 ≡ result }
{
    match x {
        Item::Do(s) => first_item(at, s),
        x => x,
    }
}

/// Whether an item may be passed over.
pub fn may_pass_over(x: Item) -> bool
    ensures { result ≡ may_drop x }
{
    matches!(
        x,
        Item::Asks
            | Item::Tasks { .. }
            | Item::OneTask
            | Item::Frees {
                next: Freeable::Finished { .. },
            }
    )
}

/// Whether the event is this item's.
pub fn is_events_item(e: &Event, x: Item) -> bool
    ensures { result ≡ fits e.now x }
{
    match (e, x) {
        (Event::Begin, Item::Begin) => true,
        (Event::Offer, Item::Offer) => true,
        (Event::Want { .. }, Item::Want { .. }) => true,
        (Event::Ask { .. }, Item::Asks) => true,
        (Event::Fork { .. }, Item::Fork { .. }) => true,
        (Event::ImplicitBegin { .. }, Item::Serve) => true,
        (Event::State { state, wait }, Item::State { state: s, wait: w }) => *state == s
            && *wait == w,
        (Event::Enter, Item::Enter) => true,
        (Event::Leave, Item::Leave) => true,
        (Event::Arrive, Item::Arrive) => true,
        (Event::Release, Item::Release) => true,
        (Event::Pass, Item::Pass) => true,
        (Event::ImplicitEnd { .. }, Item::ImplicitEnd) => true,
        (Event::Join { .. }, Item::Join) => true,
        (Event::Seen { j }, Item::Defer { seen, .. }) => *j == seen && seen < OWN_SLOTS,
        (Event::Defer { .. }, Item::Defer { seen, .. }) => seen < OWN_SLOTS,
        (Event::StartNow { .. }, Item::Defer { seen, .. }) => seen == OWN_SLOTS,
        (Event::StartNow { .. }, Item::StartNow { .. }) => true,
        (Event::Start { .. }, Item::Tasks { .. } | Item::OneTask) => true,
        (Event::Finish { .. }, Item::Finish) => true,
        (Event::FreeTask { .. }, Item::Frees { .. }) => true,
        (
            Event::FreeRegion { .. },
            Item::Frees {
                next: Freeable::Joined { .. },
            },
        ) => true,
        (Event::WaitDone, Item::WaitDone) => true,
        (Event::GroupBegin, Item::GroupBegin) => true,
        (Event::GroupEnd, Item::GroupEnd) => true,
        (Event::Yield, Item::Yield) => true,
        (Event::Set { icv, value }, Item::Set { icv: v, value: x }) => *icv == v && *value == x,
        (Event::SetTool { x }, Item::SetTool { x: y }) => *x == y,
        (Event::Lock { k }, Item::Lock { k: l }) => *k == l,
        (Event::Unlock { k }, Item::Unlock { k: l }) => *k == l,
        (Event::Work, Item::Work) => true,
        (Event::Call { f }, Item::Call { f: g }) => *f == g,
        (Event::Skip, Item::Skip) => true,
        (Event::Ret, Item::Ret) => true,
        (Event::Done, Item::Done) => true,
        _ => false,
    }
}
