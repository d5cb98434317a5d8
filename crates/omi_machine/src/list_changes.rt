//! What a thread may go on with, exchanged for another list.

ghost use Rattle.std.specs.Prelude.{◌≡◌, ◌<◌};
ghost use Rattle.omi_machine.specs.Kept.{slots_of, state_of};
ghost use Rattle.omi_model.specs.Changes.{on_thread, with_ahead};
ghost use Rattle.omi_model.specs.Put.{on};

use crate::State;
use crate::slot_changes::{put_live, take_live};
use crate::thread_changes::nobody;
use omi_model::{Freeable, ItemList, Rows, Slot, Task, Tid};
use std::alloc::Global;
use std::mem::replace;

/// Exchanges the list of a task, and what may be given back in front of it. Where the task isn't live nothing changes.
fn exchange_in_task(
    alloc: Global,
    tasks: &mut Rows<Rows<Slot<Task>>>,
    k: Tid,
    frees: Option<Freeable>,
    list: ItemList,
) -> (Option<Freeable>, ItemList)
    ensures after { slots_of tasks.new
        ≡ on (slots_of tasks.old) k.0 (λ t. record t { frees = frees; list = list }) }
    ensures back { on (slots_of tasks.new) k.0 (λ t. record t { frees = result.0; list = result.1 })
        ≡ slots_of tasks.old }
{
    let Some(mut t) = take_live(alloc, tasks, k.0) else {
        return (frees, list);
    };
    let old_frees = replace(&mut t.frees, frees);
    let old = replace(&mut t.list, list);
    put_live(alloc, tasks, k.0, t);
    (old_frees, old)
}

/// Exchanges the list of a thread.
fn exchange_in_thread(alloc: Global, s: &mut State, i: usize, list: ItemList) -> ItemList
    requires { i < (state_of s.old).count }
    ensures after { state_of s.new ≡ on_thread (state_of s.old) i (λ h. record h { list = list }) }
    ensures back { on_thread (state_of s.new) i (λ h. record h { list = result })
        ≡ state_of s.old }
{
    let mut h = s.threads.exchange(i, nobody(alloc));
    let old = replace(&mut h.list, list);
    s.threads.exchange(i, h);
    old
}

/// Exchanges all that a thread may go on with, and hands out what puts the state back.
pub(crate) fn exchange_ahead(
    alloc: Global,
    s: &mut State,
    i: usize,
    frees: Option<Freeable>,
    list: ItemList,
) -> (Option<Freeable>, ItemList)
    requires { i < (state_of s.old).count }
    ensures after { state_of s.new ≡ with_ahead (state_of s.old) i frees list }
    ensures back { with_ahead (state_of s.new) i result.0 result.1 ≡ state_of s.old }
{
    match s.thread(i).current {
        Some(k) => exchange_in_task(alloc, &mut s.tasks, k, frees, list),
        None => (None, exchange_in_thread(alloc, s, i, list)),
    }
}
