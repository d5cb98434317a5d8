//! What is asked about, by the number of a scope of OpenMP 5.0: 2 the address space, 3 a thread, 4 a region, 6 a task.

ghost use Rattle.std.specs.Prelude.{◌≡◌, IfSome};
ghost use Rattle.omi_session.specs.Named.{IsNamed};
ghost use Rattle.omi_c.specs.Scopes as scopes;

use crate::answers::Object;
use crate::calls::KnownCalls;
use crate::opening::held_in;
use omi_calls::ToHost;
use omi_handle::{Held, Kind};
use omi_icv::Scope;
use omi_session::Session;

/// The scope of a number, of those that variables have.
pub fn scope_numbered(number: u32) -> Option<Scope>
    ensures { result ≡ scopes.scope_numbered number }
{
    match number {
        2 => Some(Scope::AddressSpace),
        3 => Some(Scope::Thread),
        4 => Some(Scope::Parallel),
        6 => Some(Scope::Task),
        _ => None,
    }
}

/// What is held of an object in a scope. The object is not looked at for the address space.
pub fn held_for<'a, H: ToHost>(
    s: &Session<KnownCalls<'a>, H>,
    scope: Scope,
    object: Object,
) -> Option<Held>
    ensures value { result ≡ scopes.held_for s.now.layout object scope }
    ensures named { IfSome result (IsNamed s.now.layout) }
{
    match scope {
        Scope::AddressSpace => None,
        Scope::Thread => held_in(s, Kind::Thread, object),
        Scope::Parallel => held_in(s, Kind::Region, object),
        Scope::Task => held_in(s, Kind::Task, object),
    }
}
