//! The objects that a walk meets. Of each it keeps what a handle to it stands for, and makes a handle of this while it asks.

ghost use Rattle.std.specs.Prelude.{◌≡◌, ◌<◌, ◌^◌, ◌-◌, IfOk, IfErr, OnErr};
ghost use Rattle.std.specs.FinMap.{get, remove};
ghost use Rattle.std.specs.Option.{option_map};
ghost use Rattle.omi_session.specs.Handles.{name_of};
ghost use Rattle.omi_session.specs.Made.{AddsHandle, KeepsHandles};
ghost use Rattle.omi_session.specs.Named.{IsNamed};
ghost use Rattle.omi_session.specs.Opened.{Stays};
ghost use Rattle.omi_walk.specs.Objects.{IsHeldAs, name_in};

use crate::WalkFault;
use omi_calls::{Callbacks, ToHost};
use omi_handle::{Held, Kind};
use omi_model::{Id, Rid, Tid};
use omi_session::{Session, name};

/// An object that was met: its name, and what a handle to it stands for.
#[derive(Clone, Copy)]
pub struct Met {
    pub name: Id,
    pub held: Held,
}

/// The object of a handle, which is let go.
pub fn let_go<C: Callbacks, F: ToHost>(s: &mut Session<C, F>, kind: Kind, pair: (u64, u64)) -> Met
    requires { IsHeldAs kind (get s.old.handles.held pair) }
    ensures object { get s.old.handles.held pair ≡ Some result.held }
    ensures kind { result.held.kind ≡ kind }
    ensures name { name_of s.old.layout result.held ≡ Some result.name }
    ensures place { IsNamed s.old.layout result.held }
    ensures removed { s.new.handles.held ≡ remove s.old.handles.held pair }
    ensures made { s.new.handles.made ≡ s.old.handles.made }
    ensures layout { s.new.layout ≡ s.old.layout }
    ensures table { s.new.table ≡ s.old.table }
{
    let (Some(held), Ok(name)) = (s.find(pair.0, pair.1), name(s, kind, pair.0, pair.1)) else {
        unreachable!()
    };
    s.release(pair.0, pair.1);
    Met { name, held }
}

/// A handle of an object that was met, as a pair of key and serial.
pub fn hand<C: Callbacks, F: ToHost>(
    s: &mut Session<C, F>,
    met: Met,
) -> Result<(u64, u64), WalkFault>
    requires many { s.old.handles.made < 2 ^ 64 - 1 }
    requires named { IsNamed s.old.layout met.held }
    ensures handed { IfOk result
        (λ pair. AddsHandle s.old.handles s.new.handles pair met.held) }
    ensures memory { IfErr result (λ fault. fault ≡ WalkFault.OutOfMemory) }
    ensures refused { OnErr result (KeepsHandles s.old.handles s.new.handles) }
    ensures stays { Stays C.told s.old s.new }
    ensures table { s.new.table ≡ s.old.table }
{
    match s.make(met.held) {
        Ok(pair) => Ok(pair),
        Err(_) => Err(WalkFault::OutOfMemory),
    }
}

/// The name of a task that was met, where one was.
pub fn task_name(met: Option<Met>) -> Option<Tid>
    ensures { result ≡ option_map (λ n. record { 0 = n }) (name_in met) }
{
    let met = met?;
    Some(Tid(met.name))
}

/// The name of a region that was met, where one was.
pub fn region_name(met: Option<Met>) -> Option<Rid>
    ensures { result ≡ option_map (λ n. record { 0 = n }) (name_in met) }
{
    let met = met?;
    Some(Rid(met.name))
}
