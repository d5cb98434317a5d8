//! Why an inquiry has no value, and its reply.

ghost use Rattle.std.specs.Prelude.{◌≡◌};
ghost use Rattle.omi_c.specs.Answers.{place_named, refusal_of, first_of};
ghost use Rattle.omi_c.specs.Calls.{missed_of};
ghost use Rattle.omi_c.specs.Missed.{reply_by};

use crate::answers::{NEEDS_WORD, Refusal};
use crate::calls::KnownCalls;
use omi_calls::ToHost;
use omi_session::{Rc, Session};

/// Why there is no value.
#[derive(Clone, Copy)]
pub enum Cause {
    /// The layout table was refused.
    NoLayout(Refusal),
    /// The word at this byte address is needed.
    Needs(u64),
    /// The inquiry is refused.
    Says(Rc),
}

/// The place that a return code names.
fn named(rc: Rc) -> u64
    ensures { result ≡ place_named rc }
{
    match rc {
        Rc::Error { addr, field: _ } => addr,
        _ => 0,
    }
}

impl Cause {
    /// The code and the place that C gets.
    pub fn refusal(self) -> Refusal
        ensures { result ≡ refusal_of self }
    {
        match self {
            Cause::NoLayout(refusal) => refusal,
            Cause::Needs(addr) => Refusal {
                code: NEEDS_WORD,
                place: addr,
            },
            Cause::Says(rc) => Refusal {
                code: u32::from(rc.code()),
                place: named(rc),
            },
        }
    }

    /// The first number of a value that has several, and else 0.
    pub fn first(self) -> u64
        ensures { result ≡ first_of self }
    {
        match self {
            Cause::Says(Rc::Incomplete(first)) => first,
            _ => 0,
        }
    }
}

/// The reply to an inquiry, by what the library answered. Where a word was missed, that one is needed.
pub fn replied<'a, A: Drop, H: ToHost>(
    s: Session<KnownCalls<'a>, H>,
    answer: Result<A, Rc>,
) -> Result<A, Cause>
    ensures { result ≡ reply_by (missed_of s.entry.table.calls) answer }
{
    let (_parted, table) = s.part();
    let calls = table.into_calls();
    if let Some(addr) = calls.missed() {
        return Err(Cause::Needs(addr));
    }
    match answer {
        Ok(value) => Ok(value),
        Err(rc) => Err(Cause::Says(rc)),
    }
}
