//! A session over known words, and what is held in it of an object that C names.

ghost use Rattle.std.specs.Prelude.{◌≡◌, IfOk, IfErr, IfSome};
ghost use Rattle.std.specs.Int.{from_le_bytes, w64};
ghost use Rattle.omi_calls.specs.Kept.{TakesAll, GivesNumbers};
ghost use Rattle.omi_session.specs.Named.{IsNamed};
ghost use Rattle.omi_c.specs.Objects as objects;
ghost use Rattle.omi_c.specs.Opened.{IsOpenedOver, IsNoLayout};

use crate::answers::Object;
use crate::calls::KnownCalls;
use crate::causes::Cause;
use crate::judged::Judged;
use crate::known::Known;
use omi_calls::{Table, ToHost};
use omi_handle::{Held, Kind};
use omi_session::{Session, object_at};

/// The number of a word's bytes, the lowest of which comes first.
pub fn lowest_first(bytes: [u8; 8]) -> u64
    ensures { result ≡ from_le_bytes w64 bytes }
{
    u64::from_le_bytes(bytes)
}

/// A session in the layout of a table over known words.
pub fn open<'a, H: ToHost>(
    table: &Judged,
    known: &'a [Known],
    to_host: H,
) -> Result<Session<KnownCalls<'a>, H>, Cause>
    requires takes { TakesAll (H.takes to_host) }
    requires gives { GivesNumbers (H.gives to_host) 0 }
    ensures opened { IfOk result (IsOpenedOver table.now known.now) }
    ensures refused { IfErr result (IsNoLayout table.now) }
{
    let layout = table.layout()?;
    let calls = Table::new(KnownCalls::over(known), 0, to_host);
    Ok(Session::without_handles(calls, layout))
}

/// What is held of an object of a kind that C names. None where the layout can't have it.
pub fn held_in<'a, H: ToHost>(
    s: &Session<KnownCalls<'a>, H>,
    kind: Kind,
    object: Object,
) -> Option<Held>
    ensures value { result ≡ objects.held_in s.now.layout kind object }
    ensures named { IfSome result (IsNamed s.now.layout) }
{
    object_at(s.layout(), kind, object.addr, object.life)
}
