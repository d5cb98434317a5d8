//! Words of records, each read once and judged, and the records that they name.

ghost use Rattle.omi_session.specs.Opened.{StaysWhole};
ghost use Rattle.omi_outside.specs.Outside.{HasCause};
ghost use Rattle.std.specs.Prelude.{ℕ, ◌≡◌, ◌+◌, ◌*◌, ◌≤◌, [], ◌∷◌, true, Some, None, Ok, Err, IfOk, IfErr, OnOk, ◌≢◌, ◌==◌, ◌&&◌, ◌||◌};
ghost use Rattle.omi_layout.specs.Field.{threads};
ghost use Rattle.omi_session.specs.Named.{record_kind};
ghost use Rattle.omi_audit.specs.Clauses as the;
ghost use Rattle.omi_audit.specs.InOrder.{ended};
ghost use Rattle.omi_audit.specs.Listed.{asked_of_record, asked_of_word};
ghost use Rattle.omi_audit.specs.Judged.{OverKept, AsksFor, AsksWords, KnowsThreads, name_threads, IsFault, IsLed, IsFailing, IsJudged, IsFound, Judges, MeetsNamed, refused_among, place_at};
ghost use Rattle.omi_audit.specs.Search.{elements_of, places_of};
ghost use Rattle.omi_audit.specs.Verdicts.{refused_at};
ghost use Rattle.omi_audit.specs.Found.{counts, next_with, count_with};
ghost use Rattle.omi_layout.specs.Named.{number};
ghost use Rattle.omi_layout.specs.Table.{offset};
ghost use Rattle.omi_layout.specs.declared.limits.TheConstants.{LAST_END};

use crate::clauses::{failing, leads_to, led_to, may_be_none, pointer_clause};
use crate::search::Search;
use crate::stop::Stop;
use crate::verdict::AuditFault;
use omi_calls::{Callbacks, ToHost};
use omi_handle::Kind;
use omi_layout::{Field, Layout};
use omi_session::{Rc, Session, lead, word};

/// The number of the clause that each word is mapped.
const MAPPED: u8 = 1;

/// A clause fails at a word at a place of a field of the record at an address.
fn fails(layout: &Layout, addr: u64, field: Field, at: u64, clause: u8) -> Stop
    requires low { addr ≤ LAST_END }
    requires few { at ≤ 64 }
    ensures { result ≡ Stop.Fails
        (addr + 8 * (offset layout.now.table (number field) + at)) (number field) clause }
{
    let number = field.number();
    let front = u64::from(layout.offset(number)) + at;
    Stop::Fails {
        addr: addr + 8 * front,
        field: number,
        clause,
    }
}

/// A fault where a callback failed.
fn unless_callback(rc: Rc) -> Result<(), Stop>
    ensures other { OnOk result (rc ≢ Rc.CallbackError) }
    ensures failed { IfErr result (λ stop. (stop ≡ Stop.Fault AuditFault.Callback)
        × (rc ≡ Rc.CallbackError)) }
{
    match rc {
        Rc::CallbackError => Err(Stop::Fault(AuditFault::Callback)),
        _ => Ok(()),
    }
}

/// Whether a live record of a kind is at the address that a field holds. A region or a task is met there.
fn names<C: Callbacks, F: ToHost>(
    s: &mut Session<C, F>,
    search: &mut Search,
    kind: Kind,
    field: Field,
    pointer: u64,
) -> Result<bool, Stop>
    requires begun { record_kind kind ≡ threads → KnowsThreads s.old.layout search.old }
    ensures led { OverKept C.told s.old search.old (λ memory. IfOk result (IsLed
        s.old.layout memory (record_kind kind) pointer search.old search.new)) }
    ensures asks { AsksWords C.told C.asked s.old s.new search.old (λ _. asked_of_record
        s.old.layout search.old.met.keys (record_kind kind) pointer) (ended result) }
    ensures fault { IfErr result IsFault }
    ensures begun { search.new.begun.items ≡ search.old.begun.items }
    ensures same { StaysWhole C.told s.old s.new }
    ensures cause { HasCause (C.faults s.old.table.calls) (C.faults s.new.table.calls)
        (result ≡ Err (Stop.Fault AuditFault.Callback)) }
{
    if kind == Kind::Thread {
        return Ok(search.is_begun(s.layout(), pointer));
    }
    if search.has_met(s.layout(), kind, pointer) {
        return Ok(true);
    }
    match lead(s, kind, field, pointer) {
        Ok(held) => {
            search.meet(held.addr)?;
            Ok(true)
        }
        Err(rc) => {
            unless_callback(rc)?;
            Ok(false)
        }
    }
}

/// Whether a word may stand in a field that points to a record: it names one, or it is 0 where that stands for none.
fn may_stand(field: Field, word: u64, led: bool) -> bool
    ensures { result ≡ ((the.may_be_none field && word == 0) || led) }
{
    may_be_none(field) && word == 0 || led
}

/// The clause that fails at a word, if one does. What the word names is met.
fn clause_failing<C: Callbacks, F: ToHost>(
    s: &mut Session<C, F>,
    search: &mut Search,
    thread: u8,
    field: Field,
    at: u64,
    word: u64,
) -> Result<Option<u8>, Stop>
    requires begun { the.leads_to field at ≡ Some threads → KnowsThreads s.old.layout search.old }
    ensures failing { OverKept C.told s.old search.old (λ memory. IfOk result (IsFailing
        s.old.layout memory thread field at word search.old search.new)) }
    ensures asks { AsksWords C.told C.asked s.old s.new search.old (λ _. asked_of_word
        s.old.layout search.old.met.keys field at word) (ended result) }
    ensures fault { IfErr result IsFault }
    ensures few { result ≡ Ok None → counts field ≡ true → word ≤ 64 }
    ensures begun { search.new.begun.items ≡ search.old.begun.items }
    ensures same { StaysWhole C.told s.old s.new }
    ensures cause { HasCause (C.faults s.old.table.calls) (C.faults s.new.table.calls)
        (result ≡ Err (Stop.Fault AuditFault.Callback)) }
{
    let Some(kind) = leads_to(field, at) else {
        return Ok(failing(s.layout(), thread, field, at, word));
    };
    let led = names(s, search, kind, field, led_to(field, word))?;
    if may_stand(field, word, led) {
        Ok(None)
    } else {
        Ok(Some(pointer_clause(field)))
    }
}

/// The word at a place of a field of the record at an address, where no clause fails there. `thread` is the one whose record it is.
pub fn judge<C: Callbacks, F: ToHost>(
    s: &mut Session<C, F>,
    search: &mut Search,
    thread: u8,
    addr: u64,
    field: Field,
    at: u64,
) -> Result<u64, Stop>
    requires low { addr ≤ LAST_END }
    requires few { at ≤ 64 }
    requires begun { the.leads_to field at ≡ Some threads → KnowsThreads s.old.layout search.old }
    ensures judged { OverKept C.told s.old search.old (λ memory.
        Judges (refused_at s.old.layout memory thread (place_at addr field at))
        (IsJudged s.old.layout memory (place_at addr field at) search.old search.new)
        result) }
    ensures few { IfOk result (λ found. counts field ≡ true → found ≤ 64) }
    ensures asks { AsksFor C.told C.asked s.old s.new search.old thread
        (λ _. place_at addr field at ∷ []) (ended result) }
    ensures begun { search.new.begun.items ≡ search.old.begun.items }
    ensures same { StaysWhole C.told s.old s.new }
    ensures cause { HasCause (C.faults s.old.table.calls) (C.faults s.new.table.calls)
        (result ≡ Err (Stop.Fault AuditFault.Callback)) }
{
    let found = match word(s, addr, field, at) {
        Ok(found) => found,
        Err(rc) => {
            unless_callback(rc)?;
            return Err(fails(s.layout(), addr, field, at, MAPPED));
        }
    };
    match clause_failing(s, search, thread, field, at, found)? {
        None => Ok(found),
        Some(clause) => Err(fails(s.layout(), addr, field, at, clause)),
    }
}

/// What the fields of a record say of what is judged behind them: the address of the next record of its chain, or 0, and how many elements
/// its last field has.
#[derive(Clone, Copy)]
pub struct Found {
    pub next: u64,
    pub count: u64,
}

impl Found {
    /// What is known once this word was found in a field.
    fn with(self, field: Field, word: u64) -> Found
        requires few { self.count ≤ 64 }
        requires right { counts field ≡ true → word ≤ 64 }
        ensures few { result.count ≤ 64 }
        ensures next { result.next ≡ next_with self.next field word }
        ensures count { result.count ≡ count_with self.count field word }
    {
        match field {
            Field::RegionEnclosing | Field::TaskScheduling => Found { next: word, ..self },
            Field::RegionSize | Field::TaskNthreadsLength => Found {
                count: word,
                ..self
            },
            _ => self,
        }
    }
}

/// Judges the first words of these fields of the record at an address.
pub fn judge_fields<C: Callbacks, F: ToHost>(
    s: &mut Session<C, F>,
    search: &mut Search,
    thread: u8,
    addr: u64,
    fields: &[Field],
) -> Result<Found, Stop>
    requires low { addr ≤ LAST_END }
    requires begun { name_threads fields.now ≡ true → KnowsThreads s.old.layout search.old }
    ensures judged { OverKept C.told s.old search.old (λ memory.
        Judges (refused_among s.old.layout memory thread (places_of addr fields.now))
        (IsFound s.old.layout memory addr fields.now search.old search.new) result) }
    ensures few { IfOk result (λ found. found.count ≤ 64) }
    ensures asks { AsksFor C.told C.asked s.old s.new search.old thread
        (λ _. places_of addr fields.now) (ended result) }
    ensures begun { search.new.begun.items ≡ search.old.begun.items }
    ensures same { StaysWhole C.told s.old s.new }
    ensures cause { HasCause (C.faults s.old.table.calls) (C.faults s.new.table.calls)
        (result ≡ Err (Stop.Fault AuditFault.Callback)) }
{
    let mut found = Found { next: 0, count: 0 };
    for field in fields {
        let word = judge(s, search, thread, addr, *field, 0)?;
        found = found.with(*field, word);
    }
    Ok(found)
}

/// Judges the first so many words of a field of the record at an address.
pub fn judge_elements<C: Callbacks, F: ToHost>(
    s: &mut Session<C, F>,
    search: &mut Search,
    addr: u64,
    field: Field,
    count: u64,
) -> Result<(), Stop>
    requires low { addr ≤ LAST_END }
    requires few { count ≤ 64 }
    requires begun { (at : ℕ) → the.leads_to field at ≡ Some threads
        → KnowsThreads s.old.layout search.old }
    ensures judged { OverKept C.told s.old search.old (λ memory.
        Judges (refused_among s.old.layout memory 0 (elements_of addr field count)) (λ _.
        MeetsNamed s.old.layout memory (elements_of addr field count)
        search.old search.new) result) }
    ensures asks { AsksFor C.told C.asked s.old s.new search.old 0
        (λ _. elements_of addr field count) (ended result) }
    ensures begun { search.new.begun.items ≡ search.old.begun.items }
    ensures same { StaysWhole C.told s.old s.new }
    ensures cause { HasCause (C.faults s.old.table.calls) (C.faults s.new.table.calls)
        (result ≡ Err (Stop.Fault AuditFault.Callback)) }
{
    for at in 0..count {
        judge(s, search, 0, addr, field, at)?;
    }
    Ok(())
}
