//! The chains of scheduling tasks and of enclosing regions from the records that were met: each ends, or comes back to one of its records.

ghost use Rattle.std.specs.Prelude.{◌≡◌, ◌≢◌, ◌<◌, ◌+◌, length, slice_index, IfSome, IfErr};
ghost use Rattle.omi_layout.specs.Named.{number};
ghost use Rattle.std.specs.List.{flat_map};
ghost use Rattle.indexmap.specs.IndexSet.{index_set_len};
ghost use Rattle.omi_word.specs.Words.{Words};
ghost use Rattle.omi_audit.specs.Judged.{Judges, IsSearched, AreClear, TellsNext, HasWalked};
ghost use Rattle.omi_audit.specs.Search.{reached};
ghost use Rattle.omi_audit.specs.Verdicts.{chain_field, chain_clause, refused_chain};

use crate::search::Search;
use crate::stop::Stop;
use crate::verdict::AuditFault;
use omi_layout::{Field, Layout};
use std::alloc::Global;

/// The numbers of the clauses that a chain of scheduling tasks ends, and that one of enclosing regions does.
const SCHEDULING: u8 = 7;

const ENCLOSING: u8 = 8;

/// The chain comes back to the record at an address.
fn comes_back(layout: &Layout, addr: u64) -> Stop
    ensures fails { (memory : Words) → result ≡ Stop.Fails
        addr (number (chain_field layout.now.table memory addr))
        (chain_clause layout.now.table memory addr) }
    ensures cause { result ≢ Stop.Fault AuditFault.Callback }
{
    let (field, clause) = if layout.region_of(addr).is_some() {
        (Field::RegionEnclosing, ENCLOSING)
    } else {
        (Field::TaskScheduling, SCHEDULING)
    };
    Stop::Fails {
        addr,
        field: field.number(),
        clause,
    }
}

/// The place among the records that were met of the next one of a chain.
fn next_in_chain(search: &Search, at: usize) -> Option<usize>
    ensures met { IfSome result (λ next. next < index_set_len search.now.met) }
    ensures next { TellsNext search.now at result }
{
    let next = *search.links.get(at)?;
    search.met.get_index_of(&next)
}

/// Follows the chain from a record on, to its end or to a record that an earlier chain came to, which ended. `walks` has the number of the first
/// chain that came to each record, counted from 1, and 0 where none did.
fn follow(
    layout: &Layout,
    search: &Search,
    walks: &mut Vec<usize>,
    start: usize,
) -> Result<(), Stop>
    requires met { start < index_set_len search.now.met }
    requires all { length walks.old.items ≡ index_set_len search.now.met }
    ensures all { length walks.new.items ≡ index_set_len search.now.met }
    ensures judged { (memory : Words) → IsSearched layout.now.table memory search.now
        → AreClear layout.now.table memory
        → HasWalked layout.now.table memory start search.now walks.old.items → Judges
        (refused_chain layout.now.table memory (slice_index search.now.met.keys start)) (λ _.
        HasWalked layout.now.table memory (start + 1) search.now walks.new.items) result }
    ensures cause { IfErr result (λ stop. stop ≢ Stop.Fault AuditFault.Callback) }
{
    let walk = start + 1;
    let mut current = Some(start);
    while let Some(at) = current {
        let first = walks[at];
        if first == walk {
            return Err(comes_back(layout, search.met[at]));
        }
        if first != 0 {
            return Ok(());
        }
        walks[at] = walk;
        current = next_in_chain(search, at);
    }
    Ok(())
}

/// Follows the chains from all records that were met, in their order.
pub fn judge_chains(layout: &Layout, search: &Search, alloc: Global) -> Result<(), Stop>
    ensures judged { (memory : Words) → IsSearched layout.now.table memory search.now
        → AreClear layout.now.table memory → Judges
        (flat_map (refused_chain layout.now.table memory) (reached layout.now.table memory))
        (λ _. Unit {0}) result }
    ensures cause { IfErr result (λ stop. stop ≢ Stop.Fault AuditFault.Callback) }
{
    let count = search.met.len();
    let mut walks = vec![in alloc; 0; count]?;
    for start in 0..count {
        follow(layout, search, &mut walks, start)?;
    }
    Ok(())
}
