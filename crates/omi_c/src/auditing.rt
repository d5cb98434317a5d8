//! The audit of a memory: the verdict on the words of a target's records, as C hands them in.

ghost use Rattle.std.specs.Prelude.{◌≡◌};
ghost use Rattle.omi_calls.specs.Kept.{TakesAll, GivesNumbers};
ghost use Rattle.omi_c.specs.Audit.{IsAudited, IsVerdict, audited_of, field_reply};
ghost use Rattle.omi_c.specs.Range.{memory_of};
ghost use Rattle.omi_c.specs.Texts.{text_in};

use crate::answers::{Audited, OK, Text};
use crate::causes::Cause;
use crate::judged::Judged;
use crate::opening::lowest_first;
use crate::range::{RangeCalls, WordRange};
use crate::texts::put;
use omi_audit::{AuditFault, Verdict, audit};
use omi_calls::{Table, ToHost};
use omi_layout::{FIELDS, field_name};
use omi_session::{Rc, Session};
use std::alloc::Global;

impl Audited {
    /// The verdict, if there is one.
    fn of(reply: Result<Verdict, Cause>) -> Audited
        ensures { result ≡ audited_of reply }
    {
        match reply {
            Ok(Verdict::Yes { records }) => Audited {
                code: OK,
                place: 0,
                yes: true,
                records,
                addr: 0,
                field: 0,
                clause: 0,
            },
            Ok(
                Verdict::No {
                    addr,
                    field,
                    clause,
                },
            ) => Audited {
                code: OK,
                place: 0,
                yes: false,
                records: 0,
                addr,
                field,
                clause,
            },
            Err(cause) => {
                let refusal = cause.refusal();
                Audited {
                    code: refusal.code,
                    place: refusal.place,
                    yes: false,
                    records: 0,
                    addr: 0,
                    field: 0,
                    clause: 0,
                }
            }
        }
    }
}

/// The verdict on the words of a range in the layout of a table. By a conversion of a word's bytes.
fn verdict_on<H: ToHost>(
    alloc: Global,
    table: &Judged,
    range: WordRange<'_>,
    to_host: H,
) -> Result<Verdict, Cause>
    requires takes { TakesAll (H.takes to_host) }
    requires gives { GivesNumbers (H.gives to_host) 0 }
    ensures { IsVerdict table.now (memory_of range.entry.start range.entry.words.now) result }
{
    let layout = table.layout()?;
    let calls = Table::new(RangeCalls::over(range), 0, to_host);
    let mut session = Session::in_layout(alloc, calls, layout);
    match audit(&mut session, alloc) {
        Ok(verdict) => Ok(verdict),
        Err(AuditFault::OutOfMemory) => Err(Cause::Says(Rc::NoMem)),
        Err(AuditFault::Callback) => unreachable!(),
    }
}

/// The verdict on words that stand one behind another from a byte address on, in the layout of a table. No other word counts as mapped.
#[unsafe(no_mangle)]
pub extern "C" fn omi_audit(alloc: Global, table: &Judged, start: u64, words: &[u64]) -> Audited
    ensures { IsAudited table.now (memory_of start words.now) result }
{
    let range = WordRange { start, words };
    Audited::of(verdict_on(alloc, table, range, lowest_first))
}

/// The text that names a field, by its number, and `layout` for 0, which stands for the layout table. BadInput where no field has the number.
#[unsafe(no_mangle)]
pub extern "C" fn omi_field_text(field: u32, to: &mut [u8]) -> Text
    ensures { (result, to.new) ≡ text_in to.old (field_reply field) }
{
    if field > u32::from(FIELDS) {
        return Text::refused(Cause::Says(Rc::BadInput));
    }
    Text {
        code: OK,
        place: 0,
        length: put(to, field_name(field as u8).as_bytes()),
    }
}
