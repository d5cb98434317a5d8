//! What events change of one thread.

ghost use Rattle.std.specs.Prelude.{◌≡◌, ◌<◌, ◌++◌, ◌∷◌, [], OnOk, OnErr};
ghost use Rattle.omi_model.specs.Changes.{on_thread, with_current};
ghost use Rattle.omi_machine.specs.Kept.{state_of};
ghost use Rattle.omi_model.specs.Settings.{with_state};
ghost use Rattle.omi_model.specs.Teams.{asked, begun, offered, wanting};

use crate::State;
use omi_model::{Claim, ItemList, Rows, Thread, Tid};
use omi_word::OutOfMemory;
use std::alloc::{AllocError, Global};

/// A thread that stands in the place of one that is being changed.
pub(crate) fn nobody(alloc: Global) -> Thread {
    Thread {
        begun: false,
        current: None,
        state: 0,
        wait: 0,
        claim: Claim::Own,
        wanted: 0,
        asks: Rows::new(alloc),
        list: ItemList::new(alloc),
    }
}

/// The thread shows a state and a wait id.
pub(crate) fn show_state(alloc: Global, s: &mut State, i: usize, state: u32, wait: u64)
    requires { i < (state_of s.old).count }
    ensures { state_of s.new ≡ with_state (state_of s.old) i state wait }
{
    let h = s.threads.exchange(i, nobody(alloc));
    s.threads.exchange(i, Thread { state, wait, ..h });
}

/// The thread has another current task.
pub(crate) fn set_current(alloc: Global, s: &mut State, i: usize, current: Option<Tid>)
    requires { i < (state_of s.old).count }
    ensures { state_of s.new ≡ with_current (state_of s.old) i current }
{
    let h = s.threads.exchange(i, nobody(alloc));
    s.threads.exchange(i, Thread { current, ..h });
}

/// A worker begins.
pub(crate) fn begin(alloc: Global, s: &mut State, i: usize)
    requires { i < (state_of s.old).count }
    ensures { state_of s.new ≡ begun (state_of s.old) i }
{
    let h = s.threads.exchange(i, nobody(alloc));
    s.threads.exchange(i, Thread { begun: true, ..h });
}

/// A thread offers itself.
pub(crate) fn offer(alloc: Global, s: &mut State, i: usize)
    requires { i < (state_of s.old).count }
    ensures { state_of s.new ≡ offered (state_of s.old) i }
{
    let h = s.threads.exchange(i, nobody(alloc));
    let claim = Claim::Free;
    s.threads.exchange(i, Thread { claim, ..h });
}

/// The thread wants a team of this size, and has asked nobody.
pub(crate) fn want(alloc: Global, s: &mut State, i: usize, wanted: u8)
    requires { i < (state_of s.old).count }
    ensures { state_of s.new ≡ wanting (state_of s.old) i wanted }
{
    let mut h = s.threads.exchange(i, nobody(alloc));
    h.wanted = wanted;
    h.asks = Rows::new(alloc);
    s.threads.exchange(i, h);
}

/// The thread has asked another one, which joined or did not. Without room the state stays.
fn list_ask(alloc: Global, s: &mut State, i: usize, w: u8, got: bool) -> Result<(), OutOfMemory>
    requires { i < (state_of s.old).count }
    ensures done { OnOk result (state_of s.new
        ≡ on_thread (state_of s.old) i (λ h. record h { asks = h.asks ++ (w, got) ∷ [] })) }
    ensures refused { OnErr result (state_of s.new ≡ state_of s.old) }
{
    let mut h = s.threads.exchange(i, nobody(alloc));
    if h.asks.push((w, got)).is_err() {
        s.threads.exchange(i, h);
        return Err(AllocError);
    }
    s.threads.exchange(i, h);
    Ok(())
}

/// A thread is claimed by another one.
fn claim(alloc: Global, s: &mut State, w: usize, thread: u8)
    requires { w < (state_of s.old).count }
    ensures { state_of s.new
        ≡ on_thread (state_of s.old) w (λ h. record h { claim = Claim.By thread }) }
{
    let h = s.threads.exchange(w, nobody(alloc));
    let claim = Claim::By { thread };
    s.threads.exchange(w, Thread { claim, ..h });
}

/// A thread asks another one to join its team, and claims it where it joins. Without room the
/// state stays.
pub(crate) fn ask(alloc: Global, s: &mut State, i: u8, w: u8, got: bool) -> Result<(), OutOfMemory>
    requires asker { i < (state_of s.old).count }
    requires other { w < (state_of s.old).count }
    ensures done { OnOk result (state_of s.new ≡ asked (state_of s.old) i w got) }
    ensures refused { OnErr result (state_of s.new ≡ state_of s.old) }
{
    list_ask(alloc, s, i as usize, w, got)?;
    if got {
        claim(alloc, s, w as usize, i);
    }
    Ok(())
}
