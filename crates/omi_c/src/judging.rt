//! How a layout table is judged, and what an inquiry takes of it.

ghost use Rattle.std.specs.Prelude.{◌≡◌, IfErr, IfOk, OnOk};
ghost use Rattle.omi_c.specs.Judged.{IsJudged, IsRefusedFor, Refused, table_refusal};
ghost use Rattle.omi_c.specs.Opened.{IsNoLayout};

use crate::answers::{OK, Refusal};
use crate::causes::Cause;
use crate::judged::Judged;
use omi_layout::{Layout, LayoutFault, TABLE_WORDS};
use omi_session::Rc;

impl Judged {
    /// The layout, or why there is none.
    pub fn layout(&self) -> Result<Layout, Cause>
        ensures code { OnOk result (self.now.code ≡ OK) }
        ensures layout { IfOk result (λ layout. layout.table ≡ self.now.words) }
        ensures refused { IfErr result (IsNoLayout self.now) }
    {
        if self.code == OK {
            let table = self.words;
            Ok(Layout { table })
        } else {
            Err(Cause::NoLayout(Refusal {
                code: self.code,
                place: self.place,
            }))
        }
    }
}

/// The refusal of a layout table for a fault.
fn fault_refusal(fault: &LayoutFault) -> Refusal
    ensures { result ≡ table_refusal (Refused fault.now) }
{
    let rc = match fault {
        LayoutFault::Version(_) => Rc::Incompatible,
        LayoutFault::Overlap(_, _) | LayoutFault::OutOfRecord(_) | LayoutFault::BadArena(_) => {
            Rc::Error { addr: 0, field: 0 }
        }
    };
    Refusal {
        code: u32::from(rc.code()),
        place: fault.table_word() as u64,
    }
}

/// The layout of a table.
fn layout_of(table: &[u64]) -> Result<Layout, Refusal>
    ensures layout { IfOk result (λ layout. layout.table ≡ table.now) }
    ensures refused { IfErr result (IsRefusedFor table.now) }
{
    if table.len() != TABLE_WORDS {
        return Err(Refusal {
            code: u32::from(Rc::Incompatible.code()),
            place: 0,
        });
    }
    let mut words = [0u64; TABLE_WORDS];
    words.copy_from_slice(table);
    match Layout::of_words(&words) {
        Ok(layout) => Ok(layout),
        Err(fault) => Err(fault_refusal(&fault)),
    }
}

/// Judges the words of a layout table. Each inquiry takes what this answers.
#[unsafe(no_mangle)]
pub extern "C" fn omi_judge_table(table: &[u64]) -> Judged
    ensures { IsJudged table.now result }
{
    match layout_of(table) {
        Ok(layout) => {
            let words = layout.table;
            Judged {
                code: OK,
                place: 0,
                words,
            }
        }
        Err(refusal) => {
            let words = [0; TABLE_WORDS];
            Judged {
                code: refusal.code,
                place: refusal.place,
                words,
            }
        }
    }
}
