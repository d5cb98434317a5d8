//! Inquiries for threads, their native ids and their states.

ghost use Rattle.std.specs.Prelude.{◌≡◌};
ghost use Rattle.omi_calls.specs.Kept.{TakesAll, GivesNumbers};
ghost use Rattle.omi_ask.specs.Threads as threads;
ghost use Rattle.omi_handle.specs.declared.handle.Kind.TheVariants as object;
ghost use Rattle.omi_icv.specs.StateWords as states;
ghost use Rattle.omi_c.specs.Answers.{found_of, number_of, state_of};
ghost use Rattle.omi_c.specs.Objects as objects;
ghost use Rattle.omi_c.specs.Replies.{asked_in};

use crate::answers::{Found, Number, Object, State};
use crate::causes::{Cause, replied};
use crate::judged::Judged;
use crate::known::Known;
use crate::opening::{held_in, lowest_first, open};
use omi_ask::{native_id_of, thread_of_member_of, thread_with};
use omi_calls::ToHost;
use omi_handle::{Held, Kind};
use omi_icv::state_of_thread;

/// The thread with a native id of a kind. Kind 0 is the only one. By a conversion of a word's bytes.
fn thread_with_id<H: ToHost>(
    table: &Judged,
    known: &[Known],
    kind: u32,
    native: u64,
    to_host: H,
) -> Result<Held, Cause>
    requires takes { TakesAll (H.takes to_host) }
    requires gives { GivesNumbers (H.gives to_host) 0 }
    ensures { result ≡ asked_in table.now known.now
        (λ w. threads.thread_with w kind native) }
{
    let mut s = open(table, known, to_host)?;
    let thread = thread_with(&mut s, kind, native);
    replied(s, thread)
}

/// The thread with a native id of a kind. Kind 0 is the only one.
#[unsafe(no_mangle)]
pub extern "C" fn omi_thread_with_id(
    table: &Judged,
    known: &[Known],
    kind: u32,
    native: u64,
) -> Found
    ensures { result ≡ found_of (asked_in table.now known.now
        (λ w. threads.thread_with w kind native)) }
{
    Found::of(thread_with_id(table, known, kind, native, lowest_first))
}

/// The thread of a member of a region, by the member's number. By a conversion of a word's bytes.
fn thread_in_parallel<H: ToHost>(
    table: &Judged,
    known: &[Known],
    region: Object,
    member: u32,
    to_host: H,
) -> Result<Held, Cause>
    requires takes { TakesAll (H.takes to_host) }
    requires gives { GivesNumbers (H.gives to_host) 0 }
    ensures { result ≡ asked_in table.now known.now
        (λ w. threads.thread_of_member w (objects.held_in w object.Region region) member) }
{
    let mut s = open(table, known, to_host)?;
    let region = held_in(&s, Kind::Region, region);
    let thread = thread_of_member_of(&mut s, region, member);
    replied(s, thread)
}

/// The thread of a member of a region, by the member's number.
#[unsafe(no_mangle)]
pub extern "C" fn omi_thread_in_parallel(
    table: &Judged,
    known: &[Known],
    region: Object,
    member: u32,
) -> Found
    ensures { result ≡ found_of (asked_in table.now known.now
        (λ w. threads.thread_of_member w (objects.held_in w object.Region region) member)) }
{
    Found::of(thread_in_parallel(table, known, region, member, lowest_first))
}

/// The native id of a thread, of a kind. By a conversion of a word's bytes.
fn thread_id<H: ToHost>(
    table: &Judged,
    known: &[Known],
    kind: u32,
    thread: Object,
    to_host: H,
) -> Result<u64, Cause>
    requires takes { TakesAll (H.takes to_host) }
    requires gives { GivesNumbers (H.gives to_host) 0 }
    ensures { result ≡ asked_in table.now known.now
        (λ w. threads.native_id w kind (objects.held_in w object.Thread thread)) }
{
    let mut s = open(table, known, to_host)?;
    let thread = held_in(&s, Kind::Thread, thread);
    let id = native_id_of(&mut s, kind, thread);
    replied(s, id)
}

/// The native id of a thread, of a kind.
#[unsafe(no_mangle)]
pub extern "C" fn omi_thread_id(
    table: &Judged,
    known: &[Known],
    kind: u32,
    thread: Object,
) -> Number
    ensures { result ≡ number_of (asked_in table.now known.now
        (λ w. threads.native_id w kind (objects.held_in w object.Thread thread))) }
{
    Number::of(thread_id(table, known, kind, thread, lowest_first))
}

/// The state of a thread, and the id on which it waits. By a conversion of a word's bytes.
fn thread_state<H: ToHost>(
    table: &Judged,
    known: &[Known],
    thread: Object,
    to_host: H,
) -> Result<(u32, u64), Cause>
    requires takes { TakesAll (H.takes to_host) }
    requires gives { GivesNumbers (H.gives to_host) 0 }
    ensures { result ≡ asked_in table.now known.now
        (λ w. states.state w (objects.held_in w object.Thread thread)) }
{
    let mut s = open(table, known, to_host)?;
    let thread = held_in(&s, Kind::Thread, thread);
    let state = state_of_thread(&mut s, thread);
    replied(s, state)
}

/// The state of a thread, and the id on which it waits.
#[unsafe(no_mangle)]
pub extern "C" fn omi_thread_state(table: &Judged, known: &[Known], thread: Object) -> State
    ensures { result ≡ state_of (asked_in table.now known.now
        (λ w. states.state w (objects.held_in w object.Thread thread))) }
{
    State::of(thread_state(table, known, thread, lowest_first))
}
