//! What is asked of handles alone: their order, their release, and the names of their objects.

ghost use Rattle.std.specs.Prelude.{◌≡◌};
ghost use Rattle.std.specs.FinMap.{get};
ghost use Rattle.omi_rep.specs.Look.{slot_at};
ghost use Rattle.omi_session.specs.Named.{record_kind};
ghost use Rattle.omi_session.specs.Inquiry as inquiry;
ghost use Rattle.omi_session.specs.Handles.{LetsGo, handle_cmp, IsNameOf};

use crate::objects::live_handle;
use crate::rc::Rc;
use crate::session::Session;
use omi_calls::{Callbacks, ToHost};
use omi_handle::Kind;
use omi_layout::Layout;
use omi_model::Id;
use std::cmp::Ordering;

/// The order of the objects of two handles of a kind: by address, then by life word.
pub fn compare<C: Callbacks, F: ToHost>(
    s: &Session<C, F>,
    kind: Kind,
    a: (u64, u64),
    b: (u64, u64),
) -> Result<Ordering, Rc>
    ensures { result
        ≡ handle_cmp kind (get s.now.handles.held a) (get s.now.handles.held b) }
{
    let first = live_handle(s, kind, a.0, a.1)?;
    let second = live_handle(s, kind, b.0, b.1)?;
    let by_life = first.life.cmp(&second.life);
    Ok(first.addr.cmp(&second.addr).then(by_life))
}

/// Lets go of a handle of a kind.
pub fn let_go<C: Callbacks, F: ToHost>(
    s: &mut Session<C, F>,
    kind: Kind,
    key: u64,
    serial: u64,
) -> Result<(), Rc>
    ensures { LetsGo kind (key, serial) s.old s.new result }
{
    live_handle(s, kind, key, serial)?;
    s.release(key, serial);
    Ok(())
}

/// The slot of a kind of object whose record begins at a byte address.
pub(crate) fn slot_of(layout: &Layout, kind: Kind, addr: u64) -> Option<(u8, u16)>
    ensures { result ≡ slot_at layout.now.table (record_kind kind) addr }
{
    match kind {
        Kind::Thread => {
            let i = layout.thread_of(addr)?;
            Some((i, 0))
        }
        Kind::Region => layout.region_of(addr),
        Kind::Task => layout.task_of(addr),
    }
}

/// The name of the object of a handle of a kind.
pub fn name<C: Callbacks, F: ToHost>(
    s: &Session<C, F>,
    kind: Kind,
    key: u64,
    serial: u64,
) -> Result<Id, Rc>
    ensures { IsNameOf s.now.layout
        (inquiry.live_handle kind (get s.now.handles.held (key, serial))) result }
{
    let held = live_handle(s, kind, key, serial)?;
    let Some((creator, slot)) = slot_of(s.layout(), held.kind, held.addr) else {
        unreachable!()
    };
    Ok(Id {
        creator,
        slot,
        generation: (held.life / 2) as u32,
    })
}
