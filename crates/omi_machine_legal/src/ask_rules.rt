//! The event rules of asking threads for a team, decided.

ghost use Rattle.std.specs.Prelude.{◌≡◌, ◌≢◌, ◌↔◌, ◌<◌, ℕ, suc, get_or, length, true};
ghost use Rattle.omi_model.specs.Changes.{OfCurrentRegion};
ghost use Rattle.omi_machine_legal.specs.Decided.{IsAnswer, IsNext};
ghost use Rattle.omi_machine.specs.Kept.{state_of};
ghost use Rattle.omi_model.specs.Teams.{MayAsk, WasAsked, got_threads, wanted_size};

use omi_machine::State;
use omi_model::{Claim, Region, Task, Thread};

/// The size of a team that the data environment of a task gives, where no clause does.
fn size_by_environment(t: &Task) -> u64
    ensures { result ≡ get_or t.now.variables.nthreads 0 0 }
{
    let sizes = &t.variables.nthreads;
    if sizes.len() > 0 { *sizes.get(0) } else { 0 }
}

/// The size of a team that a task wants.
fn size_wanted(s: &State, t: &Task, r: &Region, num: Option<u8>) -> u64
    ensures { result ≡ wanted_size (state_of s.now) t.now r.now num }
{
    if s.max_active() <= r.active {
        return 1;
    }
    match num {
        Some(n) => n as u64,
        None => size_by_environment(t),
    }
}

/// Whether a thread wants a team of a size.
pub fn may_want(s: &State, i: usize, n: u8, num: Option<u8>) -> bool
    requires { i < (state_of s.now).count }
    ensures { (result ≡ true) ↔ OfCurrentRegion (state_of s.now) i
        (λ k t r. n ≡ wanted_size (state_of s.now) t r num) }
{
    match s.current_region(i) {
        Some((_, t, r)) => n as u64 == size_wanted(s, t, r, num),
        None => false,
    }
}

/// The number of threads that joined.
pub fn got_count(h: &Thread) -> usize
    ensures { result ≡ length (got_threads h.now.asks) }
{
    h.asks
        .as_slice()
        .iter()
        .filter_map(|a| if a.1 { Some(a.0) } else { None })
        .count()
}

/// Whether a thread was asked.
fn was_asked(h: &Thread, w: usize) -> bool
    ensures { (result ≡ true) ↔ WasAsked h.now w }
{
    h.asks
        .as_slice()
        .iter()
        .map(|a| a.0)
        .any(|asked| asked as usize == w)
}

/// Whether a thread was asked, or is the asker.
fn was_asked_unless(h: &Thread, i: usize, w: usize) -> bool
    ensures { (result ≡ true) ↔ (w ≢ i → WasAsked h.now w) }
{
    w == i || was_asked(h, w)
}

/// Whether each thread below a number was asked, but the asker.
pub fn were_asked(h: &Thread, i: usize, end: usize) -> bool
    ensures { (result ≡ true) ↔ ((w : ℕ) → w < end → w ≢ i → WasAsked h.now w) }
{
    for w in 0..end {
        if !was_asked_unless(h, i, w) {
            return false;
        }
    }
    true
}

/// Whether a thread is the next to be asked: the least that was not.
fn is_next(h: &Thread, i: usize, w: usize) -> bool
    ensures { (result ≡ true) ↔ IsNext h.now i w }
{
    w != i && !was_asked(h, w) && were_asked(h, i, w)
}

/// Whether a team is smaller than wanted.
fn is_smaller(h: &Thread) -> bool
    ensures { (result ≡ true) ↔ (suc (length (got_threads h.now.asks)) < h.now.wanted) }
{
    let wanted = h.wanted as usize;
    wanted > 0 && got_count(h) < wanted - 1
}

/// Whether a thread joins, which it does exactly where anybody may claim it.
fn is_answer(h: &Thread, got: bool) -> bool
    ensures { (result ≡ true) ↔ IsAnswer h.now got }
{
    let free = h.claim == Claim::Free;
    got == free
}

/// Whether a thread is asked, and joins or doesn't.
pub fn may_ask(s: &State, i: usize, w: u8, got: bool) -> bool
    requires { i < (state_of s.now).count }
    ensures { (result ≡ true) ↔ MayAsk (state_of s.now) i w got }
{
    let w = w as usize;
    if w >= s.count() || !is_answer(s.thread(w), got) {
        return false;
    }
    let h = s.thread(i);
    is_next(h, i, w) && is_smaller(h)
}
