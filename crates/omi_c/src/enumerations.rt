//! The enumerations of states and of control variables.

ghost use Rattle.std.specs.Prelude.{◌≡◌, []};
ghost use Rattle.omi_calls.specs.Kept.{TakesAll, GivesNumbers};
ghost use Rattle.omi_icv.specs.Enumeration as inquiry;
ghost use Rattle.omi_session.specs.Reads.{Answer};
ghost use Rattle.omi_c.specs.Replies.{asked_in};
ghost use Rattle.omi_c.specs.Texts.{state_in, icv_in};

use crate::answers::{Entry, OK};
use crate::causes::Cause;
use crate::judged::Judged;
use crate::opening::{lowest_first, open};
use crate::texts::put;
use omi_calls::ToHost;
use omi_icv::{enumerate_icvs, enumerate_states};

impl Entry {
    ghost use Rattle.omi_c.specs.Texts.{entry_by};

    /// No entry.
    fn refused(cause: Cause) -> Entry
        ensures { result ≡ entry_by cause }
    {
        Entry {
            code: cause.refusal().code,
            next: 0,
            scope: 0,
            more: false,
            length: 0,
        }
    }
}

/// The state behind another one, with its name. By a conversion of a word's bytes.
fn next_state<H: ToHost>(table: &Judged, current: u32, to: &mut [u8], to_host: H) -> Entry
    requires takes { TakesAll (H.takes to_host) }
    requires gives { GivesNumbers (H.gives to_host) 0 }
    ensures { (result, to.new)
        ≡ state_in to.old (asked_in table.now [] (λ _. Answer (inquiry.next_state current))) }
{
    match open(table, &[], to_host) {
        Ok(mut s) => match enumerate_states(&mut s, current) {
            Ok((next, name, more)) => Entry {
                code: OK,
                next,
                scope: 0,
                more: more == 1,
                length: put(to, name.as_bytes()),
            },
            Err(rc) => Entry::refused(Cause::Says(rc)),
        },
        Err(cause) => Entry::refused(cause),
    }
}

/// The state behind another one in the order of their numbers, with its name. 0x102 is before the first.
#[unsafe(no_mangle)]
pub extern "C" fn omi_next_state(table: &Judged, current: u32, to: &mut [u8]) -> Entry
    ensures { (result, to.new)
        ≡ state_in to.old (asked_in table.now [] (λ _. Answer (inquiry.next_state current))) }
{
    next_state(table, current, to, lowest_first)
}

/// The control variable behind another one, with its name and scope. By a conversion of a word's bytes.
fn next_icv<H: ToHost>(table: &Judged, current: u32, to: &mut [u8], to_host: H) -> Entry
    requires takes { TakesAll (H.takes to_host) }
    requires gives { GivesNumbers (H.gives to_host) 0 }
    ensures { (result, to.new)
        ≡ icv_in to.old (asked_in table.now [] (λ _. Answer (inquiry.next_icv current))) }
{
    match open(table, &[], to_host) {
        Ok(mut s) => match enumerate_icvs(&mut s, current) {
            Ok((next, name, scope, more)) => Entry {
                code: OK,
                next,
                scope,
                more: more == 1,
                length: put(to, name.as_bytes()),
            },
            Err(rc) => Entry::refused(Cause::Says(rc)),
        },
        Err(cause) => Entry::refused(cause),
    }
}

/// The control variable behind another one in the order of their numbers, with its name and scope. 0 is before the first.
#[unsafe(no_mangle)]
pub extern "C" fn omi_next_icv(table: &Judged, current: u32, to: &mut [u8]) -> Entry
    ensures { (result, to.new)
        ≡ icv_in to.old (asked_in table.now [] (λ _. Answer (inquiry.next_icv current))) }
{
    next_icv(table, current, to, lowest_first)
}
