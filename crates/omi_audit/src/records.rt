//! The records in the order in which they are judged: the runtime's, the threads', and those that a search from the threads meets.

ghost use Rattle.omi_session.specs.Opened.{StaysWhole};
ghost use Rattle.omi_outside.specs.Outside.{HasCause};
ghost use Rattle.std.specs.Prelude.{◌≡◌, ◌+◌, ◌≤◌, ◌<◌, Err, OnOk, [], length};
ghost use Rattle.std.specs.List.{flat_map, range_with_len};
ghost use Rattle.omi_audit.specs.InOrder.{AsksOnly, ended};
ghost use Rattle.omi_audit.specs.Listed.{asked_in_records, asked_of_threads};
ghost use Rattle.omi_audit.specs.Judged.{OverKept, AsksFor, AsksWords, Judges, KnowsThreads, MeetsNamed, IsLinked, IsThread, AreThreads, IsRecord, Starts, IsSearched, all_places, refused_among, said_by, refused_thread, refused_record};
ghost use Rattle.omi_audit.specs.Search.{number_in, runtime_places, thread_places, group_places, task_places, record_places, reached};
ghost use Rattle.omi_audit.specs.Found.{next_with};
ghost use Rattle.omi_audit.specs.Verdicts.{chain_field};
ghost use Rattle.omi_layout.specs.declared.field.Field.{Field};
ghost use Rattle.omi_layout.specs.declared.field.Field.TheVariants.{TaskScheduling};
ghost use Rattle.omi_layout.specs.Field.{regions, tasks};
ghost use Rattle.omi_layout.specs.Table.{thread_count, records};
ghost use Rattle.omi_layout.specs.Valid.{IsValid};
ghost use Rattle.omi_layout.specs.declared.limits.TheConstants.{LAST_END};

use crate::fields::{BEGUN_FIELDS, REGION_FIELDS, RUNTIME_FIELDS, TASK_FIELDS};
use crate::judging::{judge, judge_elements, judge_fields};
use crate::search::Search;
use crate::stop::Stop;
use crate::verdict::AuditFault;
use omi_calls::{Callbacks, ToHost};
use omi_layout::{Field, GROUP_PLACE, GROUP_VERSION, Layout, OPEN_PLACE};
use omi_session::Session;

/// Judges the runtime record.
pub fn judge_runtime<C: Callbacks, F: ToHost>(
    s: &mut Session<C, F>,
    search: &mut Search,
) -> Result<(), Stop>
    ensures judged { OverKept C.told s.old search.old (λ memory.
        Judges (refused_among s.old.layout memory 0 (runtime_places s.old.layout memory)) (λ _.
        MeetsNamed s.old.layout memory [] search.old search.new) result) }
    ensures valid { IsValid s.old.layout }
    ensures asks { AsksFor C.told C.asked s.old s.new search.old 0
        (runtime_places s.old.layout) (ended result) }
    ensures begun { search.new.begun.items ≡ search.old.begun.items }
    ensures same { StaysWhole C.told s.old s.new }
    ensures cause { HasCause (C.faults s.old.table.calls) (C.faults s.new.table.calls)
        (result ≡ Err (Stop.Fault AuditFault.Callback)) }
{
    let addr = s.layout().runtime_place();
    judge_fields(s, search, 0, addr, &RUNTIME_FIELDS)?;
    Ok(())
}

/// Judges the record of a thread. Where it has begun, its current task is met.
fn judge_thread<C: Callbacks, F: ToHost>(
    s: &mut Session<C, F>,
    search: &mut Search,
    thread: u8,
) -> Result<(), Stop>
    requires { thread < thread_count s.old.layout }
    ensures judged { OverKept C.told s.old search.old (λ memory.
        Judges (refused_thread s.old.layout memory thread) (λ _.
        IsThread s.old.layout memory thread search.old search.new) result) }
    ensures asks { AsksFor C.told C.asked s.old s.new search.old thread
        (λ memory. thread_places s.old.layout memory thread) (ended result) }
    ensures begun { OnOk result (length search.new.begun.items
        ≡ length search.old.begun.items + 1) }
    ensures same { StaysWhole C.told s.old s.new }
    ensures cause { HasCause (C.faults s.old.table.calls) (C.faults s.new.table.calls)
        (result ≡ Err (Stop.Fault AuditFault.Callback)) }
{
    let addr = s.layout().thread_at(thread);
    let life = judge(s, search, thread, addr, Field::ThreadLife, 0)?;
    judge(s, search, thread, addr, Field::ThreadNative, 0)?;
    if life != 1 {
        search.begun.push(false)?;
        return Ok(());
    }
    judge_fields(s, search, thread, addr, &BEGUN_FIELDS)?;
    search.begun.push(true)?;
    Ok(())
}

/// Judges the records of all threads.
pub fn judge_threads<C: Callbacks, F: ToHost>(
    s: &mut Session<C, F>,
    search: &mut Search,
) -> Result<(), Stop>
    requires { length search.old.begun.items ≡ 0 }
    ensures judged { OverKept C.told s.old search.old (λ memory. Judges
        (flat_map (refused_thread s.old.layout memory) (range_with_len 0 (thread_count s.old.layout)))
        (λ _. AreThreads s.old.layout memory (range_with_len 0 (thread_count s.old.layout))
        search.old search.new) result) }
    ensures asks { AsksWords C.told C.asked s.old s.new search.old (λ memory. asked_of_threads
        s.old.layout memory search.old.met.keys (range_with_len 0 (thread_count s.old.layout)))
        (ended result) }
    ensures begun { OnOk result (KnowsThreads s.old.layout search.new) }
    ensures same { StaysWhole C.told s.old s.new }
    ensures cause { HasCause (C.faults s.old.table.calls) (C.faults s.new.table.calls)
        (result ≡ Err (Stop.Fault AuditFault.Callback)) }
{
    for thread in 0..s.layout().threads() {
        judge_thread(s, search, thread)?;
    }
    Ok(())
}

/// Judges the first words of these fields of a record, and then as many elements of another field as they say. Answers the next record of
/// its chain, or 0.
fn judge_parts<C: Callbacks, F: ToHost>(
    s: &mut Session<C, F>,
    search: &mut Search,
    addr: u64,
    fields: &[Field],
    elements: Field,
) -> Result<u64, Stop>
    requires low { addr ≤ LAST_END }
    requires begun { KnowsThreads s.old.layout search.old }
    ensures judged { OverKept C.told s.old search.old (λ memory. (chain : Field)
        → said_by s.old.layout memory next_with addr fields.now
        ≡ number_in s.old.layout memory addr chain
        → Judges (refused_among s.old.layout memory 0
        (all_places s.old.layout memory addr fields.now elements))
        (IsLinked s.old.layout memory addr chain
        (all_places s.old.layout memory addr fields.now elements) search.old search.new) result) }
    ensures asks { AsksFor C.told C.asked s.old s.new search.old 0
        (λ memory. all_places s.old.layout memory addr fields.now elements)
        (ended result) }
    ensures begun { search.new.begun.items ≡ search.old.begun.items }
    ensures same { StaysWhole C.told s.old s.new }
    ensures cause { HasCause (C.faults s.old.table.calls) (C.faults s.new.table.calls)
        (result ≡ Err (Stop.Fault AuditFault.Callback)) }
{
    let found = judge_fields(s, search, 0, addr, fields)?;
    judge_elements(s, search, addr, elements, found.count)?;
    Ok(found.next)
}

/// Judges the words for groups of a task, where the layout has them.
fn judge_groups<C: Callbacks, F: ToHost>(
    s: &mut Session<C, F>,
    search: &mut Search,
    addr: u64,
) -> Result<(), Stop>
    requires low { addr ≤ LAST_END }
    ensures judged { OverKept C.told s.old search.old (λ memory.
        Judges (refused_among s.old.layout memory 0 (group_places s.old.layout memory addr)) (λ _.
        MeetsNamed s.old.layout memory (group_places s.old.layout memory addr)
        search.old search.new) result) }
    ensures asks { AsksFor C.told C.asked s.old s.new search.old 0
        (λ memory. group_places s.old.layout memory addr) (ended result) }
    ensures begun { search.new.begun.items ≡ search.old.begun.items }
    ensures same { StaysWhole C.told s.old s.new }
    ensures cause { HasCause (C.faults s.old.table.calls) (C.faults s.new.table.calls)
        (result ≡ Err (Stop.Fault AuditFault.Callback)) }
{
    if s.layout().version() != GROUP_VERSION {
        return Ok(());
    }
    judge(s, search, 0, addr, Field::TaskSlots, u64::from(GROUP_PLACE))?;
    judge(s, search, 0, addr, Field::TaskSlots, u64::from(OPEN_PLACE))?;
    Ok(())
}

/// Judges the record of a task, and answers the task from which it was scheduled, or 0.
fn judge_task<C: Callbacks, F: ToHost>(
    s: &mut Session<C, F>,
    search: &mut Search,
    addr: u64,
) -> Result<u64, Stop>
    requires low { addr ≤ LAST_END }
    requires begun { KnowsThreads s.old.layout search.old }
    ensures judged { OverKept C.told s.old search.old (λ memory.
        Judges (refused_among s.old.layout memory 0 (task_places s.old.layout memory addr))
        (IsLinked s.old.layout memory addr TaskScheduling
        (task_places s.old.layout memory addr) search.old search.new) result) }
    ensures asks { AsksFor C.told C.asked s.old s.new search.old 0
        (λ memory. task_places s.old.layout memory addr) (ended result) }
    ensures begun { search.new.begun.items ≡ search.old.begun.items }
    ensures same { StaysWhole C.told s.old s.new }
    ensures cause { HasCause (C.faults s.old.table.calls) (C.faults s.new.table.calls)
        (result ≡ Err (Stop.Fault AuditFault.Callback)) }
{
    let next = judge_parts(s, search, addr, &TASK_FIELDS, Field::TaskNthreads)?;
    judge_groups(s, search, addr)?;
    Ok(next)
}

/// Judges the record of a region or a task, and answers the next one of its chain, or 0.
fn judge_either<C: Callbacks, F: ToHost>(
    s: &mut Session<C, F>,
    search: &mut Search,
    addr: u64,
) -> Result<u64, Stop>
    requires low { addr ≤ LAST_END }
    requires begun { KnowsThreads s.old.layout search.old }
    ensures judged { OverKept C.told s.old search.old (λ memory.
        Judges (refused_record s.old.layout memory addr)
        (IsLinked s.old.layout memory addr (chain_field s.old.layout memory addr)
        (record_places s.old.layout memory addr) search.old search.new) result) }
    ensures asks { AsksFor C.told C.asked s.old s.new search.old 0
        (λ memory. record_places s.old.layout memory addr) (ended result) }
    ensures begun { search.new.begun.items ≡ search.old.begun.items }
    ensures same { StaysWhole C.told s.old s.new }
    ensures cause { HasCause (C.faults s.old.table.calls) (C.faults s.new.table.calls)
        (result ≡ Err (Stop.Fault AuditFault.Callback)) }
{
    if s.layout().region_of(addr).is_some() {
        judge_parts(s, search, addr, &REGION_FIELDS, Field::RegionTeam)
    } else {
        judge_task(s, search, addr)
    }
}

/// Judges the record of a region or a task that was met, and keeps the next one of its chain.
fn judge_record<C: Callbacks, F: ToHost>(
    s: &mut Session<C, F>,
    search: &mut Search,
    addr: u64,
) -> Result<(), Stop>
    requires low { addr ≤ LAST_END }
    requires begun { KnowsThreads s.old.layout search.old }
    ensures judged { OverKept C.told s.old search.old (λ memory.
        Judges (refused_record s.old.layout memory addr) (λ _.
        IsRecord s.old.layout memory addr search.old search.new) result) }
    ensures asks { AsksFor C.told C.asked s.old s.new search.old 0
        (λ memory. record_places s.old.layout memory addr) (ended result) }
    ensures begun { search.new.begun.items ≡ search.old.begun.items }
    ensures same { StaysWhole C.told s.old s.new }
    ensures cause { HasCause (C.faults s.old.table.calls) (C.faults s.new.table.calls)
        (result ≡ Err (Stop.Fault AuditFault.Callback)) }
{
    let next = judge_either(s, search, addr)?;
    search.links.push(next)?;
    Ok(())
}

/// The number of records of regions and of tasks that a layout has.
fn record_count(layout: &Layout) -> u32
    ensures { result ≡ records layout.now.table regions + records layout.now.table tasks }
{
    let threads = u32::from(layout.threads());
    threads * u32::from(layout.regions_per_thread())
        + threads * u32::from(layout.tasks_per_thread())
}

/// Judges the records that are met, each in its turn, and so those that they name.
pub fn judge_met<C: Callbacks, F: ToHost>(
    s: &mut Session<C, F>,
    search: &mut Search,
) -> Result<(), Stop>
    requires { KnowsThreads s.old.layout search.old }
    ensures judged { OverKept C.told s.old search.old (λ memory.
        Starts s.old.layout memory search.old → Judges
        (flat_map (refused_record s.old.layout memory) (reached s.old.layout memory))
        (λ _. IsSearched s.old.layout memory search.new) result) }
    ensures asks { OverKept C.told s.old search.old (λ memory.
        Starts s.old.layout memory search.old → AsksOnly (C.told s.old.table.calls) memory
        (asked_in_records s.old.layout memory search.old.met.keys (reached s.old.layout memory))
        (C.asked s.old.table.calls) (C.asked s.new.table.calls) (ended result)) }
    ensures begun { search.new.begun.items ≡ search.old.begun.items }
    ensures same { StaysWhole C.told s.old s.new }
    ensures cause { HasCause (C.faults s.old.table.calls) (C.faults s.new.table.calls)
        (result ≡ Err (Stop.Fault AuditFault.Callback)) }
{
    for next in 0..record_count(s.layout()) {
        let Some(addr) = search.met.get_index(next as usize).copied() else {
            return Ok(());
        };
        judge_record(s, search, addr)?;
    }
    Ok(())
}
