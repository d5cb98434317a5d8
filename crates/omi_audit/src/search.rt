//! The records that a search meets, in its order, and what is kept of them.

ghost use Rattle.std.specs.Prelude.{◌≡◌, ◌≤◌, [], nat_eq, All, OnOk, IfErr};
ghost use Rattle.indexmap.specs.IndexSet.{insert_key};
ghost use Rattle.omi_layout.specs.declared.limits.TheConstants.{LAST_END};

use crate::stop::Stop;
use crate::verdict::AuditFault;
use indexmap::IndexSet;
use std::alloc::Global;

/// What a search has met so far.
#[derive(Drop)]
pub struct Search {
    /// The addresses of the regions and tasks that were met, in their order.
    pub met: IndexSet<u64>,
    /// Of each of these that was judged, the address of the next record of its chain, or 0.
    pub links: Vec<u64>,
    /// Of each thread that was judged, whether it has begun.
    pub begun: Vec<bool>,
    // Each address is low, as each record's is.
    ghost low: { All (λ addr. addr ≤ LAST_END) met.keys },
}

impl Search {
    pub fn new(alloc: Global) -> Search
        ensures met { result.met.keys ≡ [] }
        ensures links { result.links.items ≡ [] }
        ensures begun { result.begun.items ≡ [] }
    {
        Search {
            met: IndexSet::new(alloc),
            links: Vec::new(alloc),
            begun: Vec::new(alloc),
        }
    }

    /// Notes the live region or task at an address.
    pub fn meet(&mut self, addr: u64) -> Result<(), Stop>
        requires { addr ≤ LAST_END }
        ensures met { OnOk result
            (self.new.met.keys ≡ insert_key nat_eq self.old.met.keys addr) }
        ensures links { self.new.links.items ≡ self.old.links.items }
        ensures begun { self.new.begun.items ≡ self.old.begun.items }
        ensures memory { IfErr result (λ stop.
            stop ≡ Stop.Fault AuditFault.OutOfMemory) }
    {
        self.met.insert(addr)?;
        Ok(())
    }
}
